//! When the calls of a way give up: plain values of the way's own, by its rule's idle time, or as a
//! session said.

ghost use Rattle.std.specs.Prelude.{◌≡◌, ◌↔◌, List, ◌∷◌, [], true, None, IsSome, IfErr};
ghost use Rattle.deadline_core.specs.CallHistory.{CallEvent, Answered, HasHistory};
ghost use Rattle.relay_conn.specs.Deadlines.{limit_moment, HasCome, BeginsCall, TellsCalls};
ghost use Rattle.rwloops.specs.declared.fault.Fault.{Fault};

use crate::idle_time::IdleTime;
use base_types::Dir;
use deadline_core::{CallDeadlines, Deadline};
use relay_core::has_come;
use relay_facts::clock::Moments;
use rwloops::Fault;

/// When the reads of a way's source and the writes to its target give up.
#[derive(Drop)]
pub(crate) struct WayTime<C> {
    pub(crate) idle: IdleTime<C>,
    pub(crate) deadlines: CallDeadlines,
}

impl<C: Moments> WayTime<C> {
    /// No call has begun, and none gives up.
    pub(crate) fn new(idle: IdleTime<C>) -> WayTime<C>
        ensures idle { result.idle ≡ idle }
        ensures history { HasHistory result.deadlines [] }
    {
        WayTime {
            idle,
            deadlines: CallDeadlines::new(),
        }
    }

    /// A call begins in this direction. With an idle time it gives up that long from now; without
    /// one it keeps to what a session said, and is refused where that moment has come.
    pub(crate) fn begin(&mut self, dir: Dir) -> Result<(), Fault>
        ensures idle { self.new.idle ≡ self.old.idle }
        ensures begun { BeginsCall self.old.idle.idle_ms self.old.deadlines self.new.deadlines dir }
        ensures refused { IfErr result (λ fault. fault ≡ Fault.DeadlineExceeded) }
        ensures untimed { IfErr result (λ _. self.old.idle.idle_ms ≡ None) }
        ensures limited { IfErr result (λ _. IsSome (limit_moment self.new.deadlines dir)) }
    {
        let own = self.idle.next_moment();
        self.deadlines.begin(dir, own);
        if own.is_none() && self.is_late(dir) {
            return Err(Fault::DeadlineExceeded);
        }
        Ok(())
    }

    // Whether the calls of this direction give up by now. Without a deadline no clock is asked.
    fn is_late(&self, dir: Dir) -> bool
        ensures { result ≡ true → IsSome (limit_moment self.now.deadlines dir) }
    {
        self.moment(dir).is_some() && self.has_passed(dir, self.idle.now())
    }

    /// The call of this direction has its answer.
    pub(crate) fn end(&mut self, dir: Dir)
        ensures idle { self.new.idle ≡ self.old.idle }
        ensures ended { (events : List CallEvent) → HasHistory self.old.deadlines events
            → HasHistory self.new.deadlines (Answered dir ∷ events) }
    {
        self.deadlines.end(dir);
    }

    /// A session says when the calls of this direction give up: until the next one that begins with
    /// an idle time.
    pub(crate) fn tell(&mut self, dir: Dir, deadline: Deadline)
        ensures idle { self.new.idle ≡ self.old.idle }
        ensures told { TellsCalls self.old.deadlines self.new.deadlines dir deadline }
    {
        self.deadlines.tell(dir, deadline);
    }

    /// The moment at which the calls of this direction give up.
    pub(crate) fn moment(&self, dir: Dir) -> Option<u64>
        ensures { result ≡ limit_moment self.now.deadlines dir }
    {
        match self.deadlines.deadline(dir) {
            Deadline::At(at) => Some(at),
            Deadline::Never => None,
        }
    }

    /// Whether that moment has come.
    pub(crate) fn has_passed(&self, dir: Dir, now: u64) -> bool
        ensures { result ≡ true ↔ HasCome (limit_moment self.now.deadlines dir) now }
    {
        has_come(self.moment(dir), now)
    }
}
