//! How long a target has for a connect, of the time that a client has for all.

ghost use Rattle.std.specs.Prelude.{◌≡◌};
ghost use Rattle.target_pick.specs.TurnTime as spec;

/// The moment at which the next target is tried in the place of one that is dialled `now`, for a
/// client that has until `until`, where so many others may take it. Each of them has the same part
/// of the time that is left; the last one has all of it, and no moment of its own.
pub fn moves_on_at(now: u64, until: Option<u64>, others: u32) -> Option<u64>
    ensures { result ≡ spec.moves_on_at now until others }
{
    if others == 0 {
        return None;
    }
    let left = until?.saturating_sub(now);
    Some(now.saturating_add(left / (u64::from(others) + 1)))
}
