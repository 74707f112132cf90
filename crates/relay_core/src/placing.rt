//! Which loop a connection goes to.

ghost use Rattle.std.specs.Prelude.{◌≡◌, ◌<◌, ◌≤◌, ◌⊎◌, [], length, IfSome, IfNone};
ghost use Rattle.relay_core.specs.Placing.{IsFirstLeast};

use crate::connection_limit::{PairLimit, has_room_for_pair};

/// Of loops with so many connections each, the one with the fewest, and the first of those that
/// have equally few. This project's own rule.
pub fn loop_of(counts: &[u64]) -> usize
    requires some { 0 < length counts.now }
    ensures { IsFirstLeast counts.now result }
{
    let mut fewest = 0;
    for (place, count) in counts.iter().enumerate() {
        if *count < counts[fewest] {
            fewest = place;
        }
    }
    fewest
}

/// Where one connection more goes, beside so many on each loop and so many on all: to none where as
/// many stand as may at once, or where there is no loop.
pub fn place_of_pair(counts: &[u64], all: usize, limit: PairLimit) -> Option<usize>
    ensures none { IfNone result ((limit.count ≤ all) ⊎ (counts.now ≡ [])) }
    ensures room { IfSome result (λ place. all < limit.count) }
    ensures least { IfSome result (IsFirstLeast counts.now) }
{
    if counts.is_empty() || !has_room_for_pair(all, limit) {
        return None;
    }
    Some(loop_of(counts))
}
