//! What an end of a service that was asked for leaves with who asked: only the doors of its loops,
//! and the last call at its listener, give it.

ghost use Rattle.std.specs.Prelude.{◌≡◌, ◌<◌, ◌+◌, ◌-◌, ◌^◌, ℕ, IfSome, IsSomeAnd, IsNone};
ghost use Rattle.net.specs.Asked.{asked_loops, asked_listener, asked_until};
ghost use Rattle.net.specs.Ending.{with_end};
ghost use Rattle.net.specs.LastCall.{called_id, was_called};

use crate::door::Waiting;
use crate::last_call::LastCall;
use fd_descriptor::Deadline;

/// That a loop was told by when its tasks end.
#[derive(Drop)]
pub(crate) struct Told {
    until: Deadline,
}

impl Told {
    /// Tells it at the loop's door, if that isn't shut. Of two moments the earlier counts.
    pub(crate) fn tell(waiting: &mut Option<Waiting>, until: Deadline) -> Told
        ensures until { result.until ≡ until }
        ensures open { IfSome waiting.old (λ before. IsSomeAnd waiting.new (λ after.
            (after.phase ≡ with_end before.phase until) × (after.socks ≡ before.socks))) }
        ensures shut { IsNone waiting.old → IsNone waiting.new }
    {
        if let Some(waiting) = waiting {
            waiting.phase = waiting.phase.ending_by(until);
        }
        Told { until }
    }
}

/// That so many loops were told of an end by the same moment.
#[derive(Drop)]
pub(crate) struct ToldAll {
    loops: usize,
    until: Deadline,
}

impl ToldAll {
    /// None so far.
    pub(crate) fn none(until: Deadline) -> ToldAll
        ensures { result ≡ record { loops = 0; until = until } }
    {
        ToldAll { loops: 0, until }
    }

    /// And one more.
    pub(crate) fn and(self, told: Told) -> ToldAll
        requires room { self.loops < 2 ^ 64 - 1 }
        requires same { told.until ≡ self.until }
        ensures { result ≡ record { loops = self.loops + 1; until = self.until } }
    {
        let Told { until } = told;
        ToldAll {
            loops: self.loops + 1,
            until,
        }
    }
}

/// That an end of a service was asked for: each of its loops was told of it, and so was who accepts
/// for it. Who asked for the end has this, and nothing else gives one.
#[derive(Drop)]
pub struct Asked {
    told: ToldAll,
    listener: LastCall,
}

impl Asked {
    /// Of loops that were told, and the last call at the listener after that.
    pub(crate) fn new(told: ToldAll, listener: LastCall) -> Asked
        ensures loops { asked_loops result ≡ told.loops }
        ensures until { asked_until result ≡ told.until }
        ensures listener { asked_listener result ≡ listener }
    {
        Asked { told, listener }
    }

    /// Whether the service listened until then. Otherwise another had asked before, or its listener
    /// was closed.
    pub fn is_first(&self) -> bool
        ensures { result ≡ was_called (asked_listener self.now) }
    {
        self.listener.was_open()
    }
}
