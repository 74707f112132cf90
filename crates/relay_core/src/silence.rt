//! How long an admin session may be silent.

ghost use Rattle.std.specs.Prelude.{◌≡◌, ◌+◌, ◌-◌, ◌^◌, min};

use crate::moments::pause_end;

/// How long an admin session may say nothing, or take no reply, before it is ended. The clause
/// below has the figure itself, so that another value is refused.
const MAX_SILENCE_MS: u64 = 60_000;

/// The moment at which an admin session is ended that reads or writes from now on and that nothing
/// comes of: a minute on. A sum past the greatest `u64` is the greatest `u64`. This project's
/// own rule: only so many sessions stand at once, so that silent ones keep out others.
pub fn silence_end(now: u64) -> u64
    ensures { result ≡ min (now + 60000000000) (2 ^ 64 - 1) }
{
    pause_end(now, MAX_SILENCE_MS)
}
