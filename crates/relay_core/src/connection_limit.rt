//! How many pairs stand at once. A pair is a connection by both its sides.

ghost use Rattle.std.specs.Prelude.{◌≡◌, ◌≤◌, ◌<◌, ◌↔◌, true, option_map};
ghost use Rattle.relay_core.specs.ConnectionLimit.{most_pairs, pair_count};

/// The most pairs that may be asked for. One loop has places for 65,536, so that all may stand on
/// one. This project's own rule.
pub const MAX_PAIRS: usize = 50_000;

/// How many pairs stand at once where nobody asks for another number. This project's own rule.
pub const DEFAULT_PAIRS: usize = 512;

/// How many pairs stand at once: 1 to 50,000.
#[derive(Clone, Copy, Debug, PartialEq, Eq, Drop)]
pub struct PairLimit {
    pub count: usize,
    ghost some: { 0 < count },
    ghost most: { count ≤ most_pairs },
}

impl PairLimit {
    /// So many; none where that is 0 or more than the most. The definition has the figure itself, so
    /// that a constant of another value is refused.
    pub fn of(count: u64) -> Option<PairLimit>
        ensures { option_map (λ limit. limit.count) result ≡ pair_count count }
    {
        if count == 0 || count > MAX_PAIRS as u64 {
            return None;
        }
        Some(PairLimit {
            count: count as usize,
        })
    }

    /// The limit of a relay that isn't asked for another.
    pub fn by_default() -> PairLimit
        ensures { result.count ≡ 512 }
    {
        PairLimit {
            count: DEFAULT_PAIRS,
        }
    }
}

/// Whether one more pair may be set up beside so many.
pub fn has_room_for_pair(pairs: usize, limit: PairLimit) -> bool
    ensures { result ≡ true ↔ pairs < limit.count }
{
    pairs < limit.count
}
