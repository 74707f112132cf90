//! What no clause says: that a handle hands its half to the loops, that waiting calls end, that the
//! halves are destroyed once, which alarms are asked for, and refused memory. What can't be set up
//! ends the test's process there.

mod alarms;
mod calls;
mod closing;
mod controls;
mod deadlines;
mod draining;
mod memory;
mod outcome_lists;
mod playing;
mod processor_time;
mod scene;
mod scripted;
mod scripts;
mod stage;
mod storms;
mod tasks;
mod telling;
mod under_way;
mod wakes;
mod watch;

use base_types::OutOfMemory;
use deadline_core::Dirs;
use fd_descriptor::{Alarms, FdHandle};
use rwloops::DevKind;
use scripted::{Pair, Script, ScriptedHalf, Told};
use std::alloc::Global;
use std::process::Abort;
use std::sync::atomic::{AtomicU64, Ordering};
use std::sync::{Arc, Wait};
use std::thread;
use std::time::{Clock, Duration};

/// The most turns of one millisecond that a test waits.
const TURNS: u32 = 10_000;

/// The key that descriptors are opened with.
const KEY: u64 = 7;

/// Ends the test's process where this doesn't hold, and says what should. A call costs the proof
/// of a test less than a branch does.
fn holds<T: Abort>(rt: &T, is: bool, what: &str) {
    assert!(rt; is, "{what}");
}

/// Alarms that nobody hears.
#[derive(Drop)]
struct Silent;

impl Alarms for Silent {
    fn arm(&self, _key: u64, _dirs: Dirs, _at: u64) -> Result<(), OutOfMemory> {
        Ok(())
    }

    fn disarm(&self, _key: u64, _dirs: Dirs) {}
}

/// A handle on a descriptor of scripted halves.
type Plain<T> = FdHandle<Pair<T>>;

/// Waits until the count is at least so much, and says whether it came to that.
fn comes_to<C: Clock>(clock: &C, count: &AtomicU64, least: u64) -> bool {
    for _ in 0..TURNS {
        if count.load(Ordering::SeqCst) >= least {
            return true;
        }
        thread::sleep(clock, Duration::from_millis(1));
    }
    false
}

/// A descriptor over halves that both play this script, and whose destruction has this fault.
fn open<T: Wait + Clock + Abort + Copy + Drop>(
    rt: T,
    alloc: Global,
    told: &Arc<Told>,
    script: Script,
    fault: Option<DevKind>,
) -> Plain<T> {
    let read = ScriptedHalf::new(rt, told, script, fault);
    let write = ScriptedHalf::new(rt, told, script, None);
    let handle = FdHandle::open(alloc, read, write, KEY).expect(&rt, "a descriptor");
    *told.cell.lock(&rt) = Some(handle.cell().expect(&rt, "its cell"));
    handle
}

/// Another handle.
fn share<T: Wait + Clock + Abort + Drop>(rt: &T, handle: &mut Plain<T>) -> Plain<T> {
    handle.share().expect(rt, "a share")
}
