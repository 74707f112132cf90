//! Timers of many keys: armed, armed again for later moments, and taken out in their order.

ghost use Rattle.std.specs.Prelude.{◌≡◌, IfSome, IsSome};

use base_types::Dir;
use deadline_core::{MAX_DUE, Timers};
use std::alloc::Global;

// A moment of the round. In each round the keys come in another order than that of their numbers.
fn moment(round: u64, key: u64) -> u64 {
    round
        .wrapping_mul(1 << 24)
        .wrapping_add(key.wrapping_mul(0x9e37_79b9_7f4a_7c15) >> 40)
}

/// Arms a timer for each of `count` keys, then each again in `rounds` rounds, and takes all out.
/// Gives a sum that tells the order in which they came, 0 where there are none, or `None` where
/// memory was refused.
pub fn fire(alloc: Global, count: u64, rounds: u64) -> Option<u64>
    ensures nothing { count ≡ 0 → IfSome result (λ sum. sum ≡ 0) }
    ensures runs { count ≡ 0 → IsSome result }
{
    let mut timers = Timers::new(alloc);
    for round in 0..=rounds {
        for key in 0..count {
            timers.arm(key, Dir::Read, moment(round, key)).ok()?;
        }
    }
    let mut sum = 0u64;
    for _ in 0..=count / MAX_DUE as u64 {
        for (key, _) in timers.due(u64::MAX).as_slice() {
            sum = sum.wrapping_mul(31).wrapping_add(*key);
        }
    }
    Some(sum)
}
