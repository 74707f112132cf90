//! How long a poll may wait.

ghost use Rattle.readiness.specs.PollTimeout.{IsWait, IsSleep};

/// The longest that a poll waits, in milliseconds.
pub const MAX_WAIT_MS: u64 = 1_000;

const NANOS_IN_A_MILLI: u64 = 1_000_000;

/// The milliseconds from `now` to the next moment, both in nanoseconds, rounded up, so that a poll
/// which ends by time ends no earlier than the moment; at most [`MAX_WAIT_MS`], also where there is
/// none.
pub fn wait_ms(now: u64, next: Option<u64>) -> u64
    ensures { IsWait now next result }
{
    match next {
        None => MAX_WAIT_MS,
        Some(at) => at
            .saturating_sub(now)
            .div_ceil(NANOS_IN_A_MILLI)
            .min(MAX_WAIT_MS),
    }
}

/// The milliseconds that a loop may sleep from `now`: none where there is something to do already,
/// and else as [`wait_ms`] says.
pub fn sleep_ms(now: u64, next: Option<u64>, has_more: bool) -> u64
    ensures { IsSleep now next has_more result }
{
    if has_more { 0 } else { wait_ms(now, next) }
}
