//! A turn of a loop.

ghost use Rattle.std.specs.Prelude.{◌≡◌, IfErr, OnOk, OnErr};
ghost use Rattle.rwloops.specs.declared.fault.Fault.{Fault};
ghost use Rattle.rwloops.specs.declared.outcome.DevKind.{DevKind};
ghost use Rattle.readiness.specs.Agenda.{steps_of};
ghost use Rattle.readiness.specs.EventLoop.{tasks_of, events_in, told_in, round_in};
ghost use Rattle.readiness.specs.Resuming.{MakesSteps};
ghost use Rattle.readiness.specs.TaskAlarms.{AreArmed};
ghost use Rattle.readiness.specs.Tasks.{gone_again};
ghost use Rattle.readiness.specs.Turns.{BeginsTurn, MakesTurn, ResumesTimed, ResumesDue};
ghost use Rattle.readiness.specs.Turns.{ResumesHeard, ResumesAllIf};

use crate::agenda::Why;
use crate::due_timers::TimersDone;
use crate::event_loop::EventLoop;
use crate::tasks::Host;
use crate::telling::{CellsThemselves, Telling};
use rwloops::Fault;
use std::alloc::Allocator;
use std::sync::Wait;

impl<T, A: Allocator> EventLoop<T, A> {
    /// One turn: resumes the tasks whose alarms or timers are due at `now`, waits once for the
    /// system, at most until the next moment, and not at all where a task gave way or was named, and
    /// resumes the task of each event, then those that were named, then, each once, those that gave
    /// way before this turn. Where the wait fails, that ends the turn.
    ///
    /// `now` is in nanoseconds of the clock of the deadlines, read just before the call. A turn
    /// takes no memory.
    pub fn turn<R: Wait, H: Host<Task = T>>(
        &mut self,
        rt: &R,
        now: u64,
        host: &mut H,
    ) -> Result<(), Fault>
        ensures faults { IfErr result (λ fault. fault ≡ Fault.Device DevKind.Other) }
        ensures made { OnOk result (MakesTurn H.awaited (H.tells host.old) (H.tells host.new) now
            (steps_of (events_in self.new) (told_in self.new) (gone_again (tasks_of self.old)))
            (tasks_of self.old) (tasks_of self.new)) }
        ensures begun { OnErr result (BeginsTurn H.awaited (H.tells host.old) (H.tells host.new) now
            (tasks_of self.old) (tasks_of self.new)) }
        ensures armed { AreArmed H.awaited (tasks_of self.old)
            → AreArmed H.awaited (tasks_of self.new) }
    {
        let all_again = self.tasks.begin_round(&mut self.round);
        let done = self.resume_timed(rt, now, host);
        let all_told = match self.wait(rt, done, all_again) {
            Ok(all_told) => all_told,
            Err(fault) => return Err(fault),
        };
        self.resume_heard(rt, host, all_told, all_again);
        Ok(())
    }

    // Resumes the tasks whose alarms are due, and then those whose timers are.
    fn resume_timed<R: Wait, H: Host<Task = T>>(
        &mut self,
        rt: &R,
        now: u64,
        host: &mut H,
    ) -> TimersDone
        ensures done { result.moment ≡ now }
        ensures made { ResumesTimed H.awaited (H.tells host.old) (H.tells host.new) now
            (tasks_of self.old) (tasks_of self.new) }
        ensures kept { self.new ≡ record self.old { tasks = self.new.tasks } }
    {
        self.tasks
            .resume_late(&mut CellsThemselves { rt }, host, now);
        self.resume_if_due(rt, now, host)
    }

    // Resumes the tasks whose timers are due, if any is.
    fn resume_if_due<R: Wait, H: Host<Task = T>>(
        &mut self,
        rt: &R,
        now: u64,
        host: &mut H,
    ) -> TimersDone
        ensures done { result.moment ≡ now }
        ensures made { ResumesDue H.awaited (H.tells host.old) (H.tells host.new) now
            (tasks_of self.old) (tasks_of self.new) }
        ensures kept { self.new ≡ record self.old { tasks = self.new.tasks } }
    {
        if let Some(done) = self.remote.none_due(now) {
            return done;
        }
        self.resume_due(rt, now, host)
    }

    // Once it is done with its timers, waits for the system, and takes what was told meanwhile. It
    // says whether all tasks were named.
    fn wait<R: Wait>(&mut self, rt: &R, done: TimersDone, all_again: bool) -> Result<bool, Fault>
        ensures tasks { tasks_of self.new ≡ tasks_of self.old }
        ensures round { round_in self.new ≡ round_in self.old }
        ensures faults { IfErr result (λ fault. fault ≡ Fault.Device DevKind.Other) }
    {
        let gave_way = all_again || !self.round.is_empty() || self.tasks.gave_way();
        let own = self.tasks.first_alarm();
        let heard = self
            .poller
            .poll_for(self.remote.may_sleep(&done, own, gave_way));
        self.remote.has_slept();
        heard?;
        Ok(self.remote.take_told(rt, &mut self.told))
    }

    // Has the tasks go on that were heard of, and all where these were too many to list.
    fn resume_heard<R: Wait, H: Host<Task = T>>(
        &mut self,
        rt: &R,
        host: &mut H,
        all_told: bool,
        all_again: bool,
    )
        ensures made { ResumesHeard H.awaited (H.tells host.old) (H.tells host.new)
            (steps_of (events_in self.old) (told_in self.old) (round_in self.old))
            all_told all_again (tasks_of self.old) (tasks_of self.new) }
        ensures kept { self.new ≡ record self.old { tasks = self.new.tasks } }
    {
        let cells = &mut CellsThemselves { rt };
        self.resume_round(cells, host);
        self.resume_all_if(cells, host, all_told, Why::Named);
        self.resume_all_if(cells, host, all_again, Why::Again);
    }

    fn resume_all_if<C: Telling, H: Host<Task = T>>(
        &mut self,
        cells: &mut C,
        host: &mut H,
        all: bool,
        why: Why,
    )
        ensures made { ResumesAllIf H.awaited (H.tells host.old) (H.tells host.new) all why
            (tasks_of self.old) (tasks_of self.new) }
        ensures kept { self.new ≡ record self.old { tasks = self.new.tasks } }
    {
        if !all {
            return;
        }
        self.tasks.resume_all(cells, host, why);
    }

    // Resumes the tasks whose timers are due. The list of 4 KiB is cleared when the frame that it is
    // in is entered, so that frame is not the turn's.
    #[inline(never)]
    fn resume_due<R: Wait, H: Host<Task = T>>(
        &mut self,
        rt: &R,
        now: u64,
        host: &mut H,
    ) -> TimersDone
        ensures done { result.moment ≡ now }
        ensures made { ResumesDue H.awaited (H.tells host.old) (H.tells host.new) now
            (tasks_of self.old) (tasks_of self.new) }
        ensures kept { self.new ≡ record self.old { tasks = self.new.tasks } }
    {
        let due = self.remote.due(rt, now);
        self.tasks
            .resume_taken(&mut CellsThemselves { rt }, host, due)
    }

    // Has the tasks go on of the events, those that were told, and those that gave way.
    fn resume_round<C: Telling, H: Host<Task = T>>(&mut self, cells: &mut C, host: &mut H)
        ensures made { MakesSteps H.awaited (H.tells host.old) (H.tells host.new)
            (tasks_of self.old) (tasks_of self.new)
            (steps_of (events_in self.old) (told_in self.old) (round_in self.old)) }
        ensures kept { self.new ≡ record self.old { tasks = self.new.tasks } }
    {
        self.tasks.resume_ready(cells, host, self.poller.events());
        self.tasks
            .resume_each(cells, host, self.told.as_slice(), Why::Named);
        self.tasks
            .resume_each(cells, host, self.round.as_slice(), Why::Again);
    }
}
