//! The timers of a loop that are due. A loop sleeps only on the word that none is, or that the tasks
//! of those that were taken out have been resumed, and that word is given here alone.

ghost use Rattle.std.specs.Prelude.{◌≡◌, ◌<◌, ◌≤◌, ℕ, IfSome, IfNone, map};
ghost use Rattle.base_types.specs.declared.direction.Dir.{Dir};
ghost use Rattle.deadline_core.specs.Timers.{AreFirstDue};
ghost use Rattle.readiness.specs.Agenda.{due_step, due_steps};
ghost use Rattle.readiness.specs.Resuming.{MakesSteps};

use crate::agenda::step_of_timer;
use crate::tasks::{Host, Tasks};
use crate::telling::Telling;
use arrayvec::ArrayVec;
use base_types::Dir;
use deadline_core::Timers;
use std::alloc::Allocator;

/// Timers that were due at a moment, and were taken out. They can't be dropped: their tasks have to be
/// resumed.
pub(crate) struct DueTimers {
    list: ArrayVec<(u64, Dir), 256>,
    moment: u64,
}

/// That at a moment no timer was due, or that the tasks of those that were taken out have been
/// resumed.
#[derive(Drop)]
pub(crate) struct TimersDone {
    moment: u64,
}

impl DueTimers {
    /// Takes out the timers that are due at `now`.
    pub(crate) fn take<A: Allocator>(timers: &mut Timers<A>, now: u64) -> DueTimers
        ensures due { AreFirstDue timers.old now result.list.items }
        ensures moment { result.moment ≡ now }
    {
        DueTimers {
            list: timers.due(now),
            moment: now,
        }
    }
}

impl TimersDone {
    /// Where the least moment of the timers comes after `now`.
    pub(crate) fn none_due(first: u64, now: u64) -> Option<TimersDone>
        ensures some { IfSome result (λ done. (done.moment ≡ now) × (now < first)) }
        ensures none { IfNone result (first ≤ now) }
    {
        if first <= now {
            return None;
        }
        Some(TimersDone { moment: now })
    }

    /// The moment of which it speaks.
    pub(crate) fn moment(&self) -> u64
        ensures { result ≡ self.now.moment }
    {
        self.moment
    }
}

impl<T, A: Allocator> Tasks<T, A> {
    // Makes the step of each timer that is due.
    fn resume_due<C: Telling, H: Host<Task = T>>(
        &mut self,
        cells: &mut C,
        host: &mut H,
        due: &[(u64, Dir)],
        now: u64,
    )
        ensures { MakesSteps H.awaited (H.tells host.old) (H.tells host.new) self.old self.new
            (map (λ timer. due_step timer.0 timer.1 now) due.now) }
    {
        for timer in due {
            let (key, dir) = *timer;
            self.resume(cells, host, step_of_timer(key, dir, now));
        }
    }

    /// Makes the step of each timer that was taken out.
    pub(crate) fn resume_taken<C: Telling, H: Host<Task = T>>(
        &mut self,
        cells: &mut C,
        host: &mut H,
        timers: DueTimers,
    ) -> TimersDone
        ensures made { MakesSteps H.awaited (H.tells host.old) (H.tells host.new) self.old self.new
            (due_steps timers.moment timers.list.items) }
        ensures done { result.moment ≡ timers.moment }
    {
        let DueTimers { list, moment } = timers;
        self.resume_due(cells, host, list.as_slice(), moment);
        TimersDone { moment }
    }
}
