//! The idle time of a rule, and the moments that come of it.

ghost use Rattle.std.specs.Prelude.{◌≡◌};
ghost use Rattle.relay_conn.specs.Deadlines.{IsIdleEnd};

use relay_core::idle_deadline;
use relay_facts::clock::Moments;

/// An idle time in milliseconds, or none, by this clock.
#[derive(Drop)]
pub struct IdleTime<C> {
    clock: C,
    idle_ms: Option<u32>,
}

impl<C: Moments> IdleTime<C> {
    pub fn new(clock: C, idle_ms: Option<u32>) -> IdleTime<C>
        ensures { result.idle_ms ≡ idle_ms }
    {
        IdleTime { clock, idle_ms }
    }

    /// The moment now.
    pub(crate) fn now(&self) -> u64 {
        self.clock.now()
    }

    /// When a call gives up that begins now; without an idle time it has no moment of its own.
    pub(crate) fn next_moment(&self) -> Option<u64>
        ensures { IsIdleEnd self.now.idle_ms result }
    {
        let idle_ms = self.idle_ms?;
        Some(idle_deadline(self.clock.now(), idle_ms))
    }
}
