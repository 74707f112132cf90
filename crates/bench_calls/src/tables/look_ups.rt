//! A table of connections that is filled, and looked up in a mixed order.

ghost use Rattle.std.specs.Prelude.{◌≡◌, ◌<◌, ◌↔◌, None, IfSome, IsSome};

use crate::tables::job::By;
use conntable::ConnTable;
use std::alloc::Global;

/// Puts `count` entries into a table and looks entries up `times` times. Gives the sum of the
/// values found, which is 0 where nothing is looked up, or `None` where an insert or memory was
/// refused.
pub fn look_ups(alloc: Global, by: By, count: u64, times: u64) -> Option<u64>
    ensures nothing { times ≡ 0 → IfSome result (λ sum. sum ≡ 0) }
    ensures empty { count ≡ 0 → (IsSome result ↔ (times ≡ 0)) }
    ensures full { 4096 < count → result ≡ None }
{
    let mut table = ConnTable::new(alloc);
    let mut given = Vec::new(alloc);
    for value in 0..count {
        given.push(table.insert(value).ok()?).ok()?;
    }
    let (mut sum, mut state) = (0u64, 1u64);
    for _ in 0..times {
        // A linear congruence, whose upper half picks an entry.
        state = state
            .wrapping_mul(6_364_136_223_846_793_005)
            .wrapping_add(1);
        let (id, token) = *given.get(((state >> 32).wrapping_mul(count) >> 32) as usize)?;
        let value = match by {
            By::Token => table.by_token(token),
            By::Id => table.by_id(id),
        };
        sum = sum.wrapping_add(*value?);
    }
    Some(sum)
}
