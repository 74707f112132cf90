//! Timers: at most one moment for each key and direction.
//!
//! Callers see a finite map. The body is an index from a key and a direction to a moment, and an
//! ordered set of moments with their keys and directions, by which `due` and `next` find the first
//! timer without a walk. Arming again and disarming leave the old entry in the order, stale.
ghost use Rattle.std.specs.Prelude.{◌≡◌, ◌≤◌, ◌+◌, ◌*◌, OnOk, OnErr, IfNone, IfSome};
ghost use Rattle.std.specs.FinMap as map;
ghost use Rattle.deadline_core.specs.Timers.{AreFirstDue, IsLeastMoment, remove_all};
ghost use Rattle.deadline_core.specs.TimerOrder.{IsFirstOf};

use crate::timer_order::{Slot, drop_stale, is_current, pop_first_due, put, put_both, take_out};
use arrayvec::ArrayVec;
use base_types::{Dir, OutOfMemory};
use std::alloc::{Allocator, Global};
use std::collections::{BTreeMap, BTreeSet};
use std::marker::Model;

/// The most timers that one `due` gives.
pub const MAX_DUE: usize = 256;

/// The timers that are armed: a finite map from a key and a direction to a moment.
///
/// It keeps the allocator that it was made with. A moment is in nanoseconds of the caller's clock;
/// every `u64` is a moment and a key. The order in which timers fire, and that `due` gives at most
/// `MAX_DUE` of them, are this project's own rules.
///
/// `arm`, `arm_both` and `disarm` cost a few steps down two trees. They leave an old entry in the
/// ordered set, and drop such entries, later or at once, where they are too many or in the way.
#[derive(Drop)]
pub struct Timers<A: Allocator = Global> {
    moments: BTreeMap<Slot, u64, A>,
    order: BTreeSet<(u64, Slot), A>,
}

impl<A: Allocator> Model for Timers<A> {
    ghost use Rattle.std.specs.Coded.{coded_ℕ};
    ghost use Rattle.std.specs.FinMap as map;
    ghost use Rattle.deadline_core.specs.DueOrder.{coded_slot};
    ghost use Rattle.deadline_core.specs.Timers.{Armed};
    ghost use Rattle.std.specs.Prelude.{◌+◌, ◌*◌, ◌≤◌};
    ghost use Rattle.std.specs.BTreeMap.{btree_map_len};
    ghost use Rattle.std.specs.BTreeSet.{btree_set_len};
    ghost use Rattle.deadline_core.specs.TimerOrder.{armed_in, IsStored};

    ghost Value = { Armed };

    ghost coded = { map.code coded_slot coded_ℕ };

    ghost view = { λ timers. armed_in timers.moments };

    ghost invariant = { λ timers. IsStored timers.moments timers.order
        × (btree_set_len timers.order ≤ 2 * btree_map_len timers.moments + 64) };
}

impl Timers {
    /// No timer is armed. Memory is taken by `arm` and `arm_both` alone.
    pub fn new(alloc: Global) -> Timers
        ensures empty { result ≡ map.empty }
    {
        Timers::new_in(alloc)
    }
}

impl<A: Allocator + Copy> Timers<A> {
    /// No timer is armed, over any allocator.
    pub fn new_in(alloc: A) -> Timers<A>
        ensures empty { result ≡ map.empty }
    {
        Timers {
            moments: BTreeMap::new(alloc),
            order: BTreeSet::new(alloc),
        }
    }

    /// Arms the timer of this key and direction for `at`, in place of the moment that it was armed
    /// for.
    ///
    /// `OutOfMemory` comes only where more room was asked for and refused; then nothing has
    /// changed.
    pub fn arm(&mut self, key: u64, dir: Dir, at: u64) -> Result<(), OutOfMemory>
        ensures armed { OnOk result (self.new ≡ map.insert self.old (key, dir) at) }
        ensures unchanged { OnErr result (self.new ≡ self.old) }
    {
        let done = put(&mut self.moments, &mut self.order, (key, dir), at);
        drop_stale(&self.moments, &mut self.order);
        done
    }

    /// Arms both timers of this key for `at`, as `arm` for `Read` and then for `Write`. Where it is
    /// refused, neither has changed.
    pub fn arm_both(&mut self, key: u64, at: u64) -> Result<(), OutOfMemory>
        ensures armed { let read_armed = map.insert self.old (key, Dir.Read) at in
            OnOk result (self.new ≡ map.insert read_armed (key, Dir.Write) at) }
        ensures unchanged { OnErr result (self.new ≡ self.old) }
    {
        let done = put_both(&mut self.moments, &mut self.order, key, at);
        drop_stale(&self.moments, &mut self.order);
        done
    }
}

impl<A: Allocator> Timers<A> {
    /// Disarms the timer of this key and direction, if it is armed.
    pub fn disarm(&mut self, key: u64, dir: Dir)
        ensures disarmed { self.new ≡ map.remove self.old (key, dir) }
    {
        take_out(&mut self.moments, (key, dir));
        drop_stale(&self.moments, &mut self.order);
    }

    /// Takes out the timers that are due at `now`, the first 256 of them, in the order of moment,
    /// key, and `Read` before `Write`.
    ///
    /// A timer is due at its own moment. Where it gives `MAX_DUE`, more may be due: ask again. It
    /// makes a list of that size each time, so who polls asks `next` first.
    pub fn due(&mut self, now: u64) -> ArrayVec<(u64, Dir), MAX_DUE>
        ensures first { AreFirstDue self.old now result.items }
        ensures taken_out { self.new ≡ remove_all self.old result.items }
    {
        let mut given = ArrayVec::new();
        for _ in 0..MAX_DUE {
            match self.take_first_due(now) {
                None => return given,
                Some((slot, _)) => given.push(slot),
            }
        }
        given
    }

    /// The least moment that a timer is armed for, or `None` where none is armed. It looks at two
    /// entries at most.
    pub fn next(&self) -> Option<u64>
        ensures none { IfNone result (self.now ≡ map.empty) }
        ensures least { IfSome result (λ moment. IsLeastMoment self.now moment) }
    {
        for stored in self.order.iter() {
            let entry = *stored;
            if is_current(&self.moments, &entry) {
                return Some(entry.0);
            }
        }
        None
    }

    /// How many timers are armed.
    pub fn live(&self) -> usize
        ensures { result ≡ map.len self.now }
    {
        self.moments.len()
    }

    /// How many entries the ordered set has: one for each timer, and the stale ones.
    pub fn stored(&self) -> usize
        ensures all { map.len self.now ≤ result }
        ensures bound { result ≤ 2 * map.len self.now + 64 }
    {
        // For the proof: its clause says that the index has each timer once.
        let _ = self.moments.len();
        self.order.len()
    }

    // Takes out the first due timer, and gives it with its moment.
    fn take_first_due(&mut self, now: u64) -> Option<(Slot, u64)>
        ensures first { IsFirstOf self.old now result }
        ensures none { IfNone result (self.new ≡ self.old) }
        ensures taken { IfSome result (λ first. self.new ≡ map.remove self.old first.0) }
    {
        let first = pop_first_due(&mut self.moments, &mut self.order, now);
        drop_stale(&self.moments, &mut self.order);
        first
    }
}
