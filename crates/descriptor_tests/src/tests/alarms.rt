//! With a deadline its alarm is armed once, with the cell's lock held.

use super::scripted::{Notice, Told};
use super::scripts::ALWAYS_BLOCKS;
use super::watch::Watch;
use super::{comes_to, holds, open};
use base_types::{Dir, OutOfMemory};
use deadline_core::{Deadline, Dirs};
use fd_descriptor::Alarms;
use std::sync::atomic::{AtomicU64, Ordering};
use std::sync::{Arc, Wait};
use std::thread;
use std::time::{Clock, Duration};

/// Alarms that take their time, and note whether a tick came through meanwhile.
#[derive(Drop)]
struct Slow<C: Clock + Drop> {
    clock: C,
    armed: AtomicU64,
    ticked: AtomicU64,
    ticked_meanwhile: AtomicU64,
}

impl<C: Clock + Drop> Alarms for Slow<C> {
    fn arm(&self, _key: u64, _dirs: Dirs, _at: u64) -> Result<(), OutOfMemory> {
        self.armed.fetch_add(1, Ordering::SeqCst);
        thread::sleep(&self.clock, Duration::from_millis(20));
        let ticked = self.ticked.load(Ordering::SeqCst);
        self.ticked_meanwhile.fetch_add(ticked, Ordering::SeqCst);
        Ok(())
    }

    fn disarm(&self, _key: u64, _dirs: Dirs) {}
}

/// Ticks the descriptor's cell once an alarm is armed.
fn ticks<T: Wait + Clock + Copy + Drop>(rt: &T, told: &Told, slow: &Slow<T>) -> bool {
    let armed = comes_to(rt, &slow.armed, 1);
    told.tell(rt, Notice::Clock(0), Dir::Read);
    slow.ticked.store(1, Ordering::SeqCst);
    armed
}

#[test]
fn an_alarm_is_armed_once_and_under_the_lock(rt: HostRuntime) {
    let watch = Watch::start(rt, rt.alloc(), "an alarm");
    let slow = Slow {
        clock: rt,
        armed: AtomicU64::new(0),
        ticked: AtomicU64::new(0),
        ticked_meanwhile: AtomicU64::new(0),
    };
    let slow = Arc::new(rt.alloc(), slow).expect(&rt, "alarms");
    let theirs = Arc::try_clone(&slow).expect(&rt, "alarms");
    let told = Told::shared(&rt, rt.alloc());
    let mut handle = open(rt, rt.alloc(), &told, ALWAYS_BLOCKS, None);
    let ticking = thread::spawn(&rt, move || ticks(&rt, &told, &theirs));
    let is_set = handle
        .set_deadline(&rt, Deadline::At(100), 0, &*slow)
        .is_ok();
    let is_armed = ticking.expect(&rt, "a thread").join(&rt);
    holds(&rt, is_set && is_armed, "an alarm was armed");
    holds(&rt, slow.armed.load(Ordering::SeqCst) == 1, "once");
    let meanwhile = slow.ticked_meanwhile.load(Ordering::SeqCst);
    holds(&rt, meanwhile == 0, "no tick came between");
    watch.end(&rt);
}
