//! The alarms of places, which are numbered from 0 on: at most one moment each. Room for them is
//! made beforehand, so that setting one takes no memory and can't be refused.
//!
//! The body is a tournament whose leaves are the alarms: setting one costs a step for each level,
//! at most, and the earliest is its first node.
ghost use Rattle.std.specs.Prelude.{◌≡◌, ◌<◌, ◌≤◌, ◌*◌, ◌^◌, [], length, max, slice_set, IsOk};
ghost use Rattle.std.specs.Prelude.{OnOk, OnErr};
ghost use Rattle.deadline_core.specs.PlaceAlarms.{alarm_of, SameAlarms, IsFirst, IsNextDue};

use crate::tournament::{due_leaf, put, tournament_of};
use base_types::OutOfMemory;
use std::alloc::{Allocator, Global};
use std::marker::Model;

/// The alarms of places. A moment is in nanoseconds of the caller's clock; every `u64` is one.
#[derive(Drop)]
pub struct PlaceAlarms<A: Allocator = Global> {
    tree: Vec<Option<u64>, A>,
    room: usize,
}

impl<A: Allocator> Model for PlaceAlarms<A> {
    ghost use Rattle.std.specs.Prelude.{◌≡◌, ◌⊎◌, ◌≤◌, ◌^◌, ℕ, List, Option, drop};
    ghost use Rattle.std.specs.Coded.{coded_list, coded_option, coded_ℕ};
    ghost use Rattle.std.specs.Int.{IsPowerOfTwo};
    ghost use Rattle.deadline_core.specs.Tournament.{IsTournament};

    ghost Value = { List (Option ℕ) };

    ghost coded = { coded_list (coded_option coded_ℕ) };

    ghost view = { λ alarms. drop alarms.room alarms.tree.items };

    ghost invariant = { λ alarms. IsTournament alarms.room alarms.tree.items
        × ((alarms.room ≡ 0) ⊎ IsPowerOfTwo alarms.room) × (alarms.room ≤ 2 ^ 33) };
}

impl<A: Allocator + Copy> PlaceAlarms<A> {
    /// Room for no alarm. It takes no memory.
    pub fn new_in(alloc: A) -> PlaceAlarms<A>
        ensures none { result ≡ [] }
    {
        PlaceAlarms {
            tree: Vec::new(alloc),
            room: 0,
        }
    }

    /// Makes room for the alarms of so many places, at least, and at most for twice as many, so that
    /// growing place by place costs little for each. Refused, nothing has changed.
    pub fn reserve(&mut self, places: usize) -> Result<(), OutOfMemory>
        requires { places ≤ 2 ^ 32 }
        ensures room { OnOk result (places ≤ length self.new) }
        ensures grows { length self.old ≤ length self.new }
        ensures bound { length self.new ≤ max (length self.old) (2 * places) }
        ensures enough { places ≤ length self.old → IsOk result × (self.new ≡ self.old) }
        ensures alarms { SameAlarms self.old self.new }
        ensures unchanged { OnErr result (self.new ≡ self.old) }
    {
        if places <= self.room {
            return Ok(());
        }
        let room = places.next_power_of_two();
        let alloc = *self.tree.allocator();
        let tree = tournament_of(alloc, &self.tree[self.room..], room)?;
        *self = PlaceAlarms { tree, room };
        Ok(())
    }
}

impl<A: Allocator> PlaceAlarms<A> {
    /// How many places have room for an alarm.
    pub fn room(&self) -> usize
        ensures { result ≡ length self.now }
    {
        self.room
    }

    /// The moment for which the alarm of a place is armed.
    pub fn alarm(&self, place: usize) -> Option<u64>
        ensures { result ≡ alarm_of self.now place }
    {
        if place < self.room {
            self.tree[self.room + place]
        } else {
            None
        }
    }

    /// Arms the alarm of a place for this moment alone, or takes it back.
    pub fn set(&mut self, place: usize, alarm: Option<u64>)
        requires { place < length self.old }
        ensures { self.new ≡ slice_set self.old place alarm }
    {
        put(self.tree.as_mut_slice(), self.room, place, alarm);
    }

    /// The least moment that an alarm is armed for.
    pub fn first(&self) -> Option<u64>
        ensures { IsFirst self.now result }
    {
        if self.room == 0 { None } else { self.tree[1] }
    }

    /// The first place from this one on whose alarm is due at `now`: an alarm is due at its own
    /// moment. It costs as many steps as there are levels.
    pub fn next_due(&self, from: usize, now: u64) -> Option<usize>
        ensures { IsNextDue self.now now from result }
    {
        if from >= self.room {
            return None;
        }
        let leaf = due_leaf(
            self.tree.as_slice(),
            self.room,
            1,
            self.room,
            self.room,
            self.room + from,
            now,
        )?;
        Some(leaf - self.room)
    }
}
