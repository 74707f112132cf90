//! How a loop's tasks go on: steps, one after the other.

ghost use Rattle.std.specs.Prelude.{◌≡◌, ℕ, [], ◌∷◌, None, Some, Option, IfSome, is_some, true};
ghost use Rattle.std.specs.Prelude.{map};
ghost use Rattle.rwloops.specs.Waits.{Tells};
ghost use Rattle.readiness.specs.Agenda.{event_step, step_for};
ghost use Rattle.readiness.specs.HostCalls.{Resumed, Ended};
ghost use Rattle.readiness.specs.Tasks.{task_in, next_serial, SameTasks, OthersKept};
ghost use Rattle.readiness.specs.Resuming.{TicksFor, MakesCalls, MakesStep, MakesSteps};
ghost use Rattle.readiness.specs.TaskAlarms.{StandApart, StandStill, AreArmed, AreArmedBut, NoneComes};
ghost use Rattle.readiness.specs.TaskAlarms.{serial_at, awaited_at, alarm_by_place};
ghost use Rattle.readiness.specs.LoopToken.{place_in};
ghost use Rattle.readiness.specs.Turns.{ResumesAllIf};
ghost use Rattle.readiness.specs.declared.tasks.Turn.{Turn};
ghost use Rattle.readiness.specs.declared.agenda.Why.{Why};

use crate::agenda::{Step, Why, step_of_event};
use crate::batch::Ev;
use crate::loop_token::{place_of, serial_of};
use crate::tasks::{Host, Slot, Tasks, Turn};
use crate::telling::Telling;
use deadline_core::PlaceAlarms;
use slab::Slab;
use std::alloc::Allocator;
use std::mem;

// Shows the clock to the cell of a due timer's descriptor.
fn tick<C: Telling, H: Host>(cells: &mut C, host: &H, task: &H::Task, why: Why)
    ensures { TicksFor (H.has_cell host.now task.now)
        (C.tells cells.old) (C.tells cells.new) why }
{
    if let Why::Due { side, now, .. } = why {
        if let Some(cell) = host.cell(task, side) {
            cells.tick(cell, now);
        }
    }
}

impl<T, A: Allocator> Tasks<T, A> {
    // Has the task that a token names go on.
    fn go_on<C: Telling, H: Host<Task = T>>(
        &mut self,
        cells: &mut C,
        host: &mut H,
        step: Step,
    ) -> Turn
        ensures passed { task_in self.old step.token ≡ None → result ≡ Turn.Waits }
        ensures kept { task_in self.old step.token ≡ None → SameTasks self.old self.new }
        ensures silent { task_in self.old step.token ≡ None
            → Tells (H.tells host.old) (H.tells host.new) [] }
        ensures ticked { IfSome (task_in self.old step.token) (λ task.
            TicksFor (H.has_cell host.old task) (C.tells cells.old) (C.tells cells.new) step.why) }
        ensures stays { is_some (task_in self.new step.token)
            ≡ is_some (task_in self.old step.token) }
        ensures resumed { IfSome (task_in self.old step.token) (λ task.
            IfSome (task_in self.new step.token) (λ left. Tells (H.tells host.old) (H.tells host.new)
            (Resumed task step.why result left ∷ []))) }
        ensures others { OthersKept self.old self.new step.token }
        ensures apart { StandApart self.old self.new (place_in step.token) }
        ensures serials { (place : ℕ) → serial_at self.new place ≡ serial_at self.old place }
        ensures alarms { self.new.alarms ≡ self.old.alarms }
    {
        match self.slots.get_mut(place_of(step.token)) {
            Some(slot) if slot.serial == serial_of(step.token) => {
                tick(cells, host, &slot.task, step.why);
                host.resume(&mut slot.task, step.why)
            }
            _ => Turn::Waits,
        }
    }

    // A task that gave way comes now.
    fn come_to(&mut self, step: Step)
        ensures kept { SameTasks self.old self.new }
        ensures still { StandStill self.old self.new }
    {
        if step.why == Why::Again {
            self.come(step.token);
        }
    }

    /// Has the task of a step go on, does what it answers, and has it an alarm by the moment that it
    /// awaits then.
    pub(crate) fn resume<C: Telling, H: Host<Task = T>>(
        &mut self,
        cells: &mut C,
        host: &mut H,
        step: Step,
    )
        ensures others { OthersKept self.old self.new step.token }
        ensures passed { task_in self.old step.token ≡ None → SameTasks self.old self.new }
        ensures made { MakesStep H.awaited (H.tells host.old) (H.tells host.new)
            self.old self.new step }
        ensures apart { StandApart self.old self.new (place_in step.token) }
        ensures renewed { (now : ℕ) → step.why ≡ Why.Time now → AreArmed H.awaited self.old
            → alarm_by_place self.new (place_in step.token)
            ≡ awaited_at H.awaited self.new (place_in step.token) }
        ensures left { NoneComes self.old self.new }
    {
        self.make_step(cells, host, step);
        self.time_step(&*host, step);
    }

    // Has the task of a step go on, and does what it answers: it comes again in the next turn, or
    // it is handed to the host, with its place free. A step whose task is gone is passed over.
    fn make_step<C: Telling, H: Host<Task = T>>(&mut self, cells: &mut C, host: &mut H, step: Step)
        ensures others { OthersKept self.old self.new step.token }
        ensures passed { task_in self.old step.token ≡ None → SameTasks self.old self.new }
        ensures made { MakesCalls (H.tells host.old) (H.tells host.new) self.old self.new step }
        ensures apart { StandApart self.old self.new (place_in step.token) }
        ensures left { NoneComes self.old self.new }
        ensures armed { (awaited : T → Option ℕ) → AreArmed awaited self.old
            → AreArmedBut awaited (Some (place_in step.token)) self.new }
    {
        self.come_to(step);
        match self.go_on(cells, host, step) {
            Turn::Waits => {}
            Turn::Again => self.give_way(step.token),
            Turn::Over => self.end(host, step.token),
        }
    }

    /// Hands the task that a token names to the host.
    pub(crate) fn end<H: Host<Task = T>>(&mut self, host: &mut H, token: u64)
        ensures others { OthersKept self.old self.new token }
        ensures gone { task_in self.new token ≡ None }
        ensures handed { IfSome (task_in self.old token) (λ task.
            Tells (H.tells host.old) (H.tells host.new) (Ended task ∷ [])) }
        ensures apart { StandApart self.old self.new (place_in token) }
        ensures left { NoneComes self.old self.new }
        ensures armed { (awaited : T → Option ℕ)
            → AreArmedBut awaited (Some (place_in token)) self.old
            → AreArmedBut awaited (Some (place_in token)) self.new }
    {
        if let Some(task) = self.take(token) {
            host.over(task);
        }
    }

    /// Makes the step of each event.
    pub(crate) fn resume_ready<C: Telling, H: Host<Task = T>>(
        &mut self,
        cells: &mut C,
        host: &mut H,
        events: &[Ev],
    )
        ensures { MakesSteps H.awaited (H.tells host.old) (H.tells host.new) self.old self.new
            (map event_step events.now) }
    {
        for event in events {
            self.resume(cells, host, step_of_event(*event));
        }
    }

    /// Has each of the tasks that these tokens name go on, for this reason.
    pub(crate) fn resume_each<C: Telling, H: Host<Task = T>>(
        &mut self,
        cells: &mut C,
        host: &mut H,
        tokens: &[u64],
        why: Why,
    )
        ensures { MakesSteps H.awaited (H.tells host.old) (H.tells host.new) self.old self.new
            (map (step_for why) tokens.now) }
    {
        for token in tokens {
            let token = *token;
            self.resume(cells, host, Step { token, why });
        }
    }

    /// Has all tasks go on: a place that has a task has room for its alarm.
    pub(crate) fn resume_all<C: Telling, H: Host<Task = T>>(
        &mut self,
        cells: &mut C,
        host: &mut H,
        why: Why,
    )
        ensures { ResumesAllIf H.awaited (H.tells host.old) (H.tells host.new) true why
            self.old self.new }
    {
        for place in 0..self.alarms.room() {
            self.resume_at(cells, host, place, why);
        }
    }
}

impl<T: Drop, A: Allocator + Copy> Tasks<T, A> {
    /// Hands all tasks to the host.
    pub(crate) fn end_all<H: Host<Task = T>>(&mut self, alloc: A, host: &mut H)
        ensures none { (token : ℕ) → task_in self.new token ≡ None }
        ensures serial { next_serial self.new ≡ next_serial self.old }
        ensures armed { (awaited : T → Option ℕ) → AreArmed awaited self.new }
    {
        let slots = mem::replace(&mut self.slots, Slab::new(alloc));
        self.alarms = PlaceAlarms::new_in(alloc);
        for (_, slot) in slots {
            let Slot { task, .. } = slot;
            host.over(task);
        }
    }
}
