//! How many loops a relay has.

ghost use Rattle.std.specs.Prelude.{◌≡◌, ◌≤◌, ◌<◌, option_map};
ghost use Rattle.relay_core.specs.Loops.{loop_count};

use std::thread::{Threads, available_parallelism};

/// The most loops of a relay. This project's own rule.
pub const MAX_LOOPS: usize = 64;

/// The most loops that a relay has by default.
const MOST_BY_DEFAULT: usize = 8;

/// How many loops a relay has: 1 to 64.
#[derive(Clone, Copy, Debug, PartialEq, Eq, Drop)]
pub struct Loops {
    pub count: usize,
    ghost some: { 0 < count },
    ghost most: { count ≤ 64 },
}

impl Loops {
    /// So many; none where that is 0 or more than 64. The clause has the figure itself, so that a
    /// constant of another value is refused.
    pub fn of(count: u64) -> Option<Loops>
        ensures { option_map (λ loops. loops.count) result ≡ loop_count count }
    {
        if count == 0 || count > MAX_LOOPS as u64 {
            return None;
        }
        Some(Loops {
            count: count as usize,
        })
    }

    /// As many as threads run at once on this machine, at most 8; one where that can't be told.
    pub fn by_processors<R: Threads>(rt: &R) -> Loops
        ensures { result.count ≤ 8 }
    {
        match available_parallelism(rt) {
            Ok(count) => Loops {
                count: count.get().min(MOST_BY_DEFAULT),
            },
            Err(_) => Loops { count: 1 },
        }
    }
}
