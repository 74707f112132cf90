//! Alarms that are timers under a lock, and that wake the poller which waits for them.

ghost use Rattle.std.specs.Prelude.{◌≡◌, ◌↔◌, true, OnOk, OnErr};
ghost use Rattle.std.specs.Arc.{arc_value};
ghost use Rattle.deadline_core.specs.declared.deadline.Dirs.{Dirs};
ghost use Rattle.readiness.specs.Alarms.{ComesFirst, armed_for, disarmed_for, timers_of, woken_by};

use base_types::{Dir, OutOfMemory};
use deadline_core::{Dirs, Timers};
use fd_descriptor::Alarms;
use mio::Waker;
use std::alloc::{Allocator, Global};
use std::sync::{Arc, Mutex, Wait};

// Whether a moment comes before those of all timers, so that the poller may sleep past it.
pub(crate) fn comes_first<A: Allocator>(timers: &Timers<A>, at: u64) -> bool
    ensures { result ≡ true ↔ ComesFirst timers.now at }
{
    match timers.next() {
        None => true,
        Some(earliest) => at < earliest,
    }
}

pub(crate) fn arm_in<A: Allocator + Copy>(
    timers: &mut Timers<A>,
    key: u64,
    dirs: Dirs,
    at: u64,
) -> Result<(), OutOfMemory>
    ensures armed { OnOk result (timers.new ≡ armed_for dirs timers.old key at) }
    ensures unchanged { OnErr result (timers.new ≡ timers.old) }
{
    match dirs {
        Dirs::Read => timers.arm(key, Dir::Read, at),
        Dirs::Write => timers.arm(key, Dir::Write, at),
        Dirs::Both => timers.arm_both(key, at),
    }
}

pub(crate) fn disarm_in<A: Allocator>(timers: &mut Timers<A>, key: u64, dirs: Dirs)
    ensures { timers.new ≡ disarmed_for dirs timers.old key }
{
    match dirs {
        Dirs::Read => timers.disarm(key, Dir::Read),
        Dirs::Write => timers.disarm(key, Dir::Write),
        Dirs::Both => {
            timers.disarm(key, Dir::Read);
            timers.disarm(key, Dir::Write);
        }
    }
}

/// Timers that many descriptors share, with the waker of the poller that waits for them.
///
/// An alarm takes their lock for a moment, with the lock of its cell held: whoever holds the
/// timers' lock takes no cell's. It wakes the poller with the timers' lock held, so that of two
/// threads which arm, the one whose moment is the earliest has woken the poller when it goes.
#[derive(Drop)]
pub struct TimerAlarms<T: Wait + Drop, A: Allocator = Global> {
    rt: T,
    timers: Arc<Mutex<Timers<A>>, A>,
    waker: Arc<Waker, A>,
}

impl<T: Wait + Drop, A: Allocator> TimerAlarms<T, A> {
    /// Alarms on these timers, which `Poller::turn` takes too, and this waker of that poller.
    pub fn new(rt: T, timers: Arc<Mutex<Timers<A>>, A>, waker: Arc<Waker, A>) -> TimerAlarms<T, A>
        ensures timers { timers_of result ≡ arc_value timers }
        ensures waker { woken_by result ≡ arc_value waker }
    {
        TimerAlarms { rt, timers, waker }
    }
}

impl<T: Wait + Drop, A: Allocator + Copy> Alarms for TimerAlarms<T, A> {
    fn arm(&self, key: u64, dirs: Dirs, at: u64) -> Result<(), OutOfMemory> {
        let mut timers = self.timers.lock(&self.rt);
        let is_first = comes_first(&timers, at);
        arm_in(&mut *timers, key, dirs, at)?;
        if is_first {
            // A poller that can't be woken wakes by itself within `MAX_WAIT_MS`.
            let _ = self.waker.wake();
        }
        Ok(())
    }

    fn disarm(&self, key: u64, dirs: Dirs) {
        disarm_in(&mut *self.timers.lock(&self.rt), key, dirs);
    }
}
