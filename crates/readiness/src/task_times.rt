//! The moments that a loop's tasks await. An alarm is left as it is where it comes before the moment
//! that its task awaits: the task is asked again then. So a moment that only moves on, as each read
//! puts off the end of an idle time, costs no change of the alarms.

ghost use Rattle.std.specs.Prelude.{◌≡◌, ◌≢◌, ◌<◌, ◌≤◌, ℕ, Option, Some, IfSome, length};
ghost use Rattle.deadline_core.specs.PlaceAlarms.{IsFirst};
ghost use Rattle.readiness.specs.TaskAlarms.{serial_at, alarm_by_place, awaited_at, IsArmed, AreArmed};
ghost use Rattle.readiness.specs.TaskAlarms.{AreArmedBut, IsPlaced, StandApart};
ghost use Rattle.readiness.specs.LoopToken.{token_of, place_in};
ghost use Rattle.readiness.specs.declared.agenda.Why.{Why};
ghost use Rattle.readiness.specs.Turns.{ResumesAt, ResumesLate};

use crate::agenda::{Step, Why};
use crate::loop_token::{LAST_SERIAL, MAX_PLACES, place_for, place_of};
use crate::tasks::{Host, Tasks};
use crate::telling::Telling;
use deadline_core::is_covered;
use std::alloc::Allocator;

impl<T, A: Allocator> Tasks<T, A> {
    // The moment that the task at a place awaits.
    fn awaited<H: Host<Task = T>>(&self, host: &H, place: usize) -> Option<u64>
        ensures { result ≡ awaited_at H.awaited self.now place }
    {
        match self.slots.get(place) {
            Some(slot) => host.until(&slot.task),
            None => None,
        }
    }

    // Arms the alarm of a place for this moment alone, or takes it back. A place without room has
    // no task.
    fn set_alarm(&mut self, place: usize, alarm: Option<u64>)
        ensures kept { self.new ≡ record self.old { alarms = self.new.alarms } }
        ensures apart { StandApart self.old self.new place }
        ensures room { length self.new.alarms ≡ length self.old.alarms }
        ensures set { place < length self.old.alarms → alarm_by_place self.new place ≡ alarm }
    {
        if place < self.alarms.room() {
            self.alarms.set(place, alarm);
        }
    }

    /// Has the task at a place an alarm by the moment that it awaits. One that comes before is left
    /// as it is.
    pub(crate) fn keep_time<H: Host<Task = T>>(&mut self, host: &H, place: usize)
        ensures kept { self.new ≡ record self.old { alarms = self.new.alarms } }
        ensures apart { StandApart self.old self.new place }
        ensures armed { AreArmedBut H.awaited (Some place) self.old → AreArmed H.awaited self.new }
        ensures idle { IsArmed H.awaited self.old place → self.new ≡ self.old }
    {
        let awaited = self.awaited(host, place);
        if is_covered(awaited, self.alarms.alarm(place)) {
            return;
        }
        self.set_alarm(place, awaited);
    }

    /// Has the task at a place, whose alarm came, an alarm at the moment that it awaits, and none
    /// where it awaits none.
    pub(crate) fn renew_time<H: Host<Task = T>>(&mut self, host: &H, place: usize)
        ensures kept { self.new ≡ record self.old { alarms = self.new.alarms } }
        ensures apart { StandApart self.old self.new place }
        ensures armed { AreArmedBut H.awaited (Some place) self.old → AreArmed H.awaited self.new }
        ensures exact { IsPlaced self.old place
            → alarm_by_place self.new place ≡ awaited_at H.awaited self.old place }
    {
        let awaited = self.awaited(host, place);
        self.set_alarm(place, awaited);
    }

    /// Has the task of a step that was made an alarm by the moment that it awaits then.
    pub(crate) fn time_step<H: Host<Task = T>>(&mut self, host: &H, step: Step)
        ensures kept { self.new ≡ record self.old { alarms = self.new.alarms } }
        ensures apart { StandApart self.old self.new (place_in step.token) }
        ensures armed { AreArmedBut H.awaited (Some (place_in step.token)) self.old
            → AreArmed H.awaited self.new }
        ensures exact { (now : ℕ) → step.why ≡ Why.Time now
            → IsPlaced self.old (place_in step.token) → alarm_by_place self.new (place_in step.token)
            ≡ awaited_at H.awaited self.old (place_in step.token) }
    {
        match step.why {
            Why::Time { .. } => self.renew_time(host, place_of(step.token)),
            _ => self.keep_time(host, place_of(step.token)),
        }
    }

    /// The least moment that an alarm is armed for.
    pub(crate) fn first_alarm(&self) -> Option<u64>
        ensures { IsFirst self.now.alarms result }
    {
        self.alarms.first()
    }

    // The first token of the task at a place.
    fn token_at(&self, place: usize) -> Option<u64>
        ensures named { IfSome result (λ token. (serial : ℕ) × (place < 65536)
            × (serial_at self.now place ≡ Some serial) × (token ≡ token_of 0 place serial)) }
        ensures all { (serial : ℕ) → serial_at self.now place ≡ Some serial → place < 65536
            → serial ≤ 140737488355326 → result ≡ Some (token_of 0 place serial) }
    {
        let slot = self.slots.get(place)?;
        if place >= MAX_PLACES || slot.serial > LAST_SERIAL {
            return None;
        }
        Some(place_for(place, slot.serial).first)
    }

    /// Has the task at a place go on, if there is one.
    pub(crate) fn resume_at<C: Telling, H: Host<Task = T>>(
        &mut self,
        cells: &mut C,
        host: &mut H,
        place: usize,
        why: Why,
    )
        ensures { ResumesAt H.awaited (H.tells host.old) (H.tells host.new) place why
            self.old self.new }
    {
        match self.token_at(place) {
            Some(token) => self.resume(cells, host, Step { token, why }),
            None => {}
        }
    }

    /// Resumes the tasks whose alarms are due at `now`, each once, in the order of their places.
    pub(crate) fn resume_late<C: Telling, H: Host<Task = T>>(
        &mut self,
        cells: &mut C,
        host: &mut H,
        now: u64,
    )
        ensures { ResumesLate H.awaited (H.tells host.old) (H.tells host.new) now self.old self.new }
    {
        let mut from = 0;
        while from < self.alarms.room() {
            match self.alarms.next_due(from, now) {
                Some(place) => {
                    self.resume_at(cells, host, place, Why::Time { now });
                    from = place + 1;
                }
                None => return,
            }
        }
    }
}
