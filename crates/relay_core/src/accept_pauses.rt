//! How long accepting pauses after faults.

ghost use Rattle.std.specs.Prelude.{◌≡◌, ◌<◌, ◌*◌, min};

/// The pause after the first fault in a row, in milliseconds, as Go's `net/http` has it.
const FIRST_PAUSE_MS: u64 = 5;

/// The longest pause, in milliseconds, as Go's `net/http` has it.
const LONGEST_PAUSE_MS: u64 = 1_000;

/// The pause of what begins anew after too many faults in a row, in milliseconds.
pub const RESTART_MS: u64 = 1_000;

/// The pause after a fault, by the pause before it, in milliseconds: 5 after the first fault in a
/// row, and then twice the one before, at most 1,000. A pause of 0 stands for none.
pub fn next_pause_ms(before_ms: u64) -> u64
    ensures first { before_ms ≡ 0 → result ≡ 5 }
    ensures doubled { 0 < before_ms → result ≡ min (2 * before_ms) 1000 }
{
    if before_ms == 0 {
        return FIRST_PAUSE_MS;
    }
    if before_ms >= LONGEST_PAUSE_MS / 2 {
        return LONGEST_PAUSE_MS;
    }
    2 * before_ms
}
