//! Where the calls on one descriptor wait: what `watched` decides, under a lock, and the parking of
//! both directions.
//!
//! Whoever changes the state is told there who was parked and may now go on, gives the lock up, and
//! only then wakes those; each of them looks again. A waiter sets the flag of its direction under
//! the lock, and parking gives the lock up, so no wake-up is lost.

ghost use Rattle.std.specs.Prelude.{◌≡◌, IfErr};
ghost use Rattle.fd_descriptor.specs.CellKey.{key_of_cell};
ghost use Rattle.fd_descriptor.specs.Deadlines.{HasSet};
ghost use Rattle.fd_descriptor.specs.HandleCalls.{IsOwnFault, SetsDeadline};
ghost use Rattle.fd_descriptor.specs.Parking.{WasEvicted};

use crate::deadlines::{Setting, set_in};
use crate::resource::Alarms;
use crate::watched::{Parked, Watched};
use base_types::Dir;
use deadline_core::{Look, Refusal};
use lockword::Closing;
use rwloops::{Fault, Waits};
use std::sync::{Condvar, Mutex, Wait};

/// A poll state under a lock, and the parking of both directions, as Go's poll descriptor.
///
/// The lock is held for a few steps only, and for the alarm while a deadline is set. A notice with
/// nobody parked makes no system call.
#[derive(Drop)]
pub struct PollCell {
    key: u64,
    watched: Mutex<Watched>,
    read_parking: Condvar,
    write_parking: Condvar,
}

impl PollCell {
    /// A cell with this key for its alarms, and nobody parked.
    pub(crate) fn new(key: u64) -> PollCell
        ensures { key_of_cell result ≡ key }
    {
        PollCell {
            key,
            watched: Mutex::new(Watched::new()),
            read_parking: Condvar::new(),
            write_parking: Condvar::new(),
        }
    }

    fn parking(&self, dir: Dir) -> &Condvar {
        match dir {
            Dir::Read => &self.read_parking,
            Dir::Write => &self.write_parking,
        }
    }

    fn wake(&self, parked: Parked) {
        if parked.read {
            self.read_parking.notify_all();
        }
        if parked.write {
            self.write_parking.notify_all();
        }
    }

    /// Says that the descriptor is ready in this direction.
    pub fn notify<T: Wait>(&self, rt: &T, dir: Dir) {
        let parked = self.watched.lock(rt).notify(dir);
        self.wake(parked);
    }

    /// Shows the descriptor the clock: a direction whose deadline is at most `now` is expired.
    pub fn tick<T: Wait>(&self, rt: &T, now: u64) {
        let parked = self.watched.lock(rt).tick(now);
        self.wake(parked);
    }

    /// Makes the state closing, for good. Only who set the word's flag has the value that this
    /// takes, so that a close which is refused leaves the cell as it was.
    pub(crate) fn evict<R, W, T: Wait>(&self, rt: &T, _closing: &Closing<R, W>)
        ensures { WasEvicted }
    {
        let parked = self.watched.lock(rt).evict();
        self.wake(parked);
    }

    /// Sets a deadline, with its alarm, under the lock: cell, then timers.
    pub(crate) fn set<T: Wait, A: Alarms>(
        &self,
        rt: &T,
        alarms: &A,
        setting: Setting,
    ) -> Result<(), Fault>
        ensures faults { IfErr result (IsOwnFault SetsDeadline) }
        ensures set { HasSet (A.armed alarms.now) (A.refused alarms.now) (A.disarmed alarms.now)
            (key_of_cell self.now) setting result }
    {
        let parked = set_in(&mut *self.watched.lock(rt), alarms, self.key, setting)?;
        self.wake(parked);
        Ok(())
    }

    /// Says that tries in this direction begin, unless it is closing or expired.
    pub(crate) fn prepare<T: Wait>(&self, rt: &T, dir: Dir) -> Result<(), Refusal> {
        self.watched.lock(rt).prepare(dir)
    }

    fn wait<T: Wait>(&self, rt: &T, dir: Dir) -> Result<(), Refusal> {
        let mut watched = self.watched.lock(rt);
        for _ in rt.forever() {
            match watched.look(dir) {
                Look::Refused(refusal) => return Err(refusal),
                Look::Go => return Ok(()),
                Look::Park => watched = self.parking(dir).wait(rt, watched),
            }
        }
        unreachable!()
    }
}

/// A cell with the runtime that parks. It tells nothing: what others do to the cell in between
/// isn't known.
#[derive(Drop)]
pub struct CellWaits<'a, T: Wait> {
    cell: &'a PollCell,
    rt: &'a T,
}

impl<'a, T: Wait> CellWaits<'a, T> {
    pub fn new(cell: &'a PollCell, rt: &'a T) -> CellWaits<'a, T> {
        CellWaits { cell, rt }
    }
}

impl<'a, T: Wait> Waits for CellWaits<'a, T> {
    ghost tells = { λ _ _. ⊥ };

    fn prepare(&mut self, dir: Dir) -> Result<(), Refusal> {
        self.cell.prepare(self.rt, dir)
    }

    fn wait(&mut self, dir: Dir) -> Result<(), Refusal> {
        self.cell.wait(self.rt, dir)
    }
}
