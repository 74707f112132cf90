//! Moments of a clock that starts with the relay.

ghost use Rattle.std.specs.Prelude.{◌≡◌};

pub use relay_core::Moments;
use std::time::{Clock, Instant};

/// The nanoseconds since a start. Where the clock can't be read it tells the greatest moment, so
/// that what hangs on time ends and doesn't stay for ever.
#[derive(Clone, Copy)]
pub struct RelayClock<R: Clock + Copy> {
    rt: R,
    start: Instant,
}

impl<R: Clock + Copy> RelayClock<R> {
    ghost use Rattle.relay_facts.specs.Clock.{start_of};

    /// One that tells the nanoseconds since this start.
    pub fn new(rt: R, start: Instant) -> RelayClock<R>
        ensures { start_of result ≡ start }
    {
        RelayClock { rt, start }
    }
}

/// The nanoseconds of the clock that never goes back, from a start of its own on; none where it can't be
/// read.
pub fn monotonic_ns<R: Clock>(rt: &R) -> Option<u64> {
    let passed = rt.monotonic().ok()?;
    u64::try_from(passed.as_nanos()).ok()
}

impl<R: Clock + Copy> Moments for RelayClock<R> {
    fn now(&self) -> u64 {
        match self.start.elapsed(&self.rt) {
            Ok(passed) => u64::try_from(passed.as_nanos()).unwrap_or(u64::MAX),
            Err(_) => u64::MAX,
        }
    }
}
