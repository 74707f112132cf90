//! The tasks of a loop by their places, and those that gave way.
//!
//! A token names the task at its place only if that has the token's serial. A task that gave way
//! has its token in `again` once; a token whose task is gone is passed over when its turn comes.

ghost use Rattle.std.specs.Prelude.{◌≡◌, ◌≢◌, ◌+◌, ℕ, None, IfOk, OnOk, IfErr, OnErr, IfNone};
ghost use Rattle.std.specs.Prelude.{IsOk, is_some, Some, false, Option, OnSome};
ghost use Rattle.readiness.specs.Tasks.{task_in, next_place, next_serial, HasPlace, SameTasks};
ghost use Rattle.readiness.specs.Tasks.{IsPut, RefusesPlace, HasNumbers, task_count};
ghost use Rattle.readiness.specs.Tasks.{gave_way_in, StillCome};
ghost use Rattle.readiness.specs.TaskAlarms.{StandApart, NoneComes, KeepsArmed, AreArmed};
ghost use Rattle.readiness.specs.TaskAlarms.{AreArmedBut, serial_at, alarm_by_place};
ghost use Rattle.readiness.specs.LoopToken.{place_in};
ghost use Rattle.std.specs.Borrow.{sem};
ghost use Rattle.std.specs.Option.{option_copied, option_copied_mut};
ghost use Rattle.readiness.specs.Lends.{lends_task};

use crate::agenda::Why;
use crate::loop_token::{LAST_SERIAL, MAX_PLACES, Place, Side, place_for, place_of, serial_of};
use deadline_core::PlaceAlarms;
use fd_descriptor::PollCell;
use slab::Slab;
use std::alloc::Allocator;

/// What a task did that was resumed.
#[derive(Clone, Copy, Debug, PartialEq, Eq, Drop)]
pub enum Turn {
    /// Its last try would block. It is resumed by an event, a due timer, or who names it.
    Waits,
    /// It can go on, and gave way to others: it is resumed once in the next turn.
    Again,
    /// It has ended.
    Over,
}

/// What a program does with the tasks of a loop.
pub trait Host {
    ghost use Rattle.std.specs.Prelude.{List, ◌∷◌, Option, ℕ};
    ghost use Rattle.std.specs.Option.{option_copied};
    ghost use Rattle.fd_descriptor.specs.declared.poll_cell.PollCell.{PollCell};
    ghost use Rattle.readiness.specs.declared.loop_token.Side.{Side};
    ghost use Rattle.readiness.specs.HostCalls.{HostCall, Resumed, Ended};

    /// A task.
    type Task;

    /// This list is told: each task that was resumed or has ended so far, newest first. Whoever
    /// keeps no such list leaves it out.
    ghost tells: { Self → List (HostCall Self.Task) → Type 0 } = { λ _ _. ⊥ };

    /// This may be the cell on that side of a task. Whoever has nothing to say of it leaves it out.
    ghost has_cell: { Self → Self.Task → Side → Option PollCell → Type 0 } = { λ _ _ _ _. Unit {0} };

    /// The moment that a task awaits, if it does.
    ghost awaited: { Self.Task → Option ℕ };

    /// The cell of the descriptor on this side of a task, where it has one, so that due timers tick
    /// it.
    fn cell<'a>(&self, task: &'a Self::Task, side: Side) -> Option<&'a PollCell>
        ensures own { has_cell self.now task.now side (option_copied result) };

    /// Has a task go on, and says what came of it. It must not wait.
    ///
    /// A task answers `Waits` only after a try that would block, since the poller tells edges; a
    /// read over TCP that came short will do, where the poller has told of no stop ahead. It bounds
    /// what it does at a time, and answers `Again` where it could do more.
    fn resume(&mut self, task: &mut Self::Task, why: Why) -> Turn
        ensures told { (calls : List (HostCall Self.Task)) → tells self.old calls
            → tells self.new (Resumed task.old why result task.new ∷ calls) };

    /// The moment that a task awaits, if it does: the loop resumes it by then, with `Why::Time`, or
    /// before, and asks again after each resume.
    fn until(&self, task: &Self::Task) -> Option<u64>
        ensures own { result ≡ awaited task.now };

    /// Takes a task that has ended, whose place is free again.
    fn over(&mut self, task: Self::Task)
        ensures told { (calls : List (HostCall Self.Task)) → tells self.old calls
            → tells self.new (Ended task ∷ calls) };
}

/// Why a loop has no place more.
#[derive(Clone, Copy, Debug, PartialEq, Eq, Drop)]
pub enum NoPlace {
    /// It has 65,536 tasks.
    Full,
    /// The last serial was given.
    SerialsSpent,
    /// Memory was refused.
    OutOfMemory,
}

/// A task in its place.
#[derive(Drop)]
pub(crate) struct Slot<T> {
    pub(crate) serial: u64,
    /// Whether it gave way, so that its token is in the list.
    pub(crate) gave_way: bool,
    pub(crate) task: T,
}

/// The tasks.
#[derive(Drop)]
pub(crate) struct Tasks<T, A: Allocator> {
    pub(crate) slots: Slab<Slot<T>, A>,
    next_serial: u64,
    pub(crate) again: Vec<u64, A>,
    /// Whether all tasks come again, since a token found no room in `again`.
    pub(crate) all_again: bool,
    /// When the tasks are to be resumed at the latest that await a moment, by their places.
    pub(crate) alarms: PlaceAlarms<A>,
}

impl<T, A: Allocator + Copy> Tasks<T, A> {
    /// No task, with room for none.
    pub(crate) fn new(alloc: A) -> Tasks<T, A>
        ensures none { (token : ℕ) → task_in result token ≡ None }
        ensures armed { (awaited : T → Option ℕ) → AreArmed awaited result }
    {
        Tasks {
            slots: Slab::new(alloc),
            next_serial: 1,
            again: Vec::new(alloc),
            all_again: false,
            alarms: PlaceAlarms::new_in(alloc),
        }
    }

    /// Makes room for one task more, and gives the place that `put` gives next.
    pub(crate) fn vacant(&mut self) -> Result<Place, NoPlace>
        ensures place { IfOk result (λ place. place ≡ next_place self.new) }
        ensures room { OnOk result (HasPlace self.new) }
        ensures unused { IfOk result (λ place. (token : ℕ) →
            place_in token ≡ place_in place.first → task_in self.new token ≡ None) }
        ensures kept { SameTasks self.old self.new }
        ensures come { StillCome self.old self.new }
        ensures numbers { OnOk result (HasNumbers self.old) }
        ensures why { IfErr result (RefusesPlace self.old) }
        ensures armed { KeepsArmed self.old self.new }
    {
        let place = self.slots.vacant_key();
        if place >= MAX_PLACES {
            return Err(NoPlace::Full);
        }
        if self.next_serial > LAST_SERIAL {
            return Err(NoPlace::SerialsSpent);
        }
        let tasks = self.slots.len().saturating_add(1);
        if self.slots.reserve(1).is_err()
            || self.again.reserve(tasks).is_err()
            || self.alarms.reserve(place + 1).is_err()
        {
            return Err(NoPlace::OutOfMemory);
        }
        Ok(place_for(place, self.next_serial))
    }
}

impl<T, A: Allocator> Tasks<T, A> {
    /// Puts a task into the place that `vacant` gave last. It takes no memory.
    pub(crate) fn put(&mut self, task: T) -> Result<Place, T>
        ensures given { IfOk result (λ place. place ≡ next_place self.old) }
        ensures put { IfOk result (λ place. IsPut self.old self.new place task) }
        ensures stays { IfOk result (λ place. gave_way_in self.new place.first ≡ Some false) }
        ensures come { StillCome self.old self.new }
        ensures serial { OnOk result (next_serial self.new ≡ next_serial self.old + 1) }
        ensures returned { IfErr result (λ other. other ≡ task) }
        ensures kept { OnErr result (SameTasks self.old self.new) }
        ensures placed { HasPlace self.old → IsOk result }
        ensures apart { IfOk result (λ place. (awaited : T → Option ℕ) → AreArmed awaited self.old
            → AreArmedBut awaited (Some (place_in place.first)) self.new) }
        ensures still { OnErr result (self.new ≡ self.old) }
    {
        let place = self.slots.vacant_key();
        let serial = self.next_serial;
        let has_room = self.slots.len() < self.slots.capacity() && place < self.alarms.room();
        if place >= MAX_PLACES || serial > LAST_SERIAL || !has_room {
            return Err(task);
        }
        self.next_serial = serial + 1;
        let _ = self.slots.insert_reserved(Slot {
            serial,
            gave_way: false,
            task,
        });
        Ok(place_for(place, serial))
    }

    /// How many tasks there are.
    pub(crate) fn len(&self) -> usize
        ensures { result ≡ task_count self.now }
    {
        self.slots.len()
    }

    fn is_named(&self, token: u64) -> bool
        ensures { result ≡ is_some (task_in self.now token) }
    {
        match self.slots.get(place_of(token)) {
            Some(slot) => slot.serial == serial_of(token),
            None => false,
        }
    }

    /// Takes out the task that a token names.
    pub(crate) fn take(&mut self, token: u64) -> Option<T>
        ensures task { result ≡ task_in self.old token }
        ensures gone { task_in self.new token ≡ None }
        ensures others { (other : ℕ) → place_in other ≢ place_in token →
            task_in self.new other ≡ task_in self.old other }
        ensures serial { next_serial self.new ≡ next_serial self.old }
        ensures come { StillCome self.old self.new }
        ensures unknown { IfNone result (self.new ≡ self.old) }
        ensures apart { StandApart self.old self.new (place_in token) }
        ensures left { NoneComes self.old self.new }
        ensures empty { OnSome result ((serial_at self.new (place_in token) ≡ None)
            × (alarm_by_place self.new (place_in token) ≡ None)) }
    {
        if !self.is_named(token) {
            return None;
        }
        self.disarm(place_of(token));
        let Slot {
            serial: _,
            gave_way: _,
            task,
        } = self.slots.remove(place_of(token));
        Some(task)
    }

    // Takes the alarm of a place back.
    fn disarm(&mut self, place: usize)
        ensures kept { self.new ≡ record self.old { alarms = self.new.alarms } }
        ensures apart { StandApart self.old self.new place }
        ensures none { alarm_by_place self.new place ≡ None }
    {
        if place < self.alarms.room() {
            self.alarms.set(place, None);
        }
    }

    /// The task that a token names.
    pub(crate) fn task(&self, token: u64) -> Option<&T>
        ensures { option_copied result ≡ task_in self.now token }
    {
        match self.slots.get(place_of(token)) {
            Some(slot) if slot.serial == serial_of(token) => Some(&slot.task),
            _ => None,
        }
    }

    /// The same, to change it.
    pub(crate) fn task_mut(&mut self, token: u64) -> Option<&mut T>
        ensures* writes_back { sem 𝓛 (lends_task T.row A.row A.Allocator self.entry token result) }
        ensures value { option_copied_mut result ≡ task_in self.old token }
    {
        if !self.is_named(token) {
            return None;
        }
        let slot = self.slots.get_mut(place_of(token))?;
        Some(&mut slot.task)
    }
}
