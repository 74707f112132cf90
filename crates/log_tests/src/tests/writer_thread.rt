//! A log with its thread, on devices that take little, fail for a while, or block.

mod blocked;
mod device;
mod failing;
mod files;
mod json_lines;
mod lines;
mod pushers;
mod refused_memory;

use device::{Device, Store};
use lines::tells;
use log_writer::{Finish, Log, LogThread};
use relay_log::format::Format;
use std::alloc::Global;
use std::process::Abort;
use std::sync::{Arc, Wait};
use std::thread;
use std::thread::Threads;
use std::time::{Clock, Duration};

/// The most turns of one millisecond that a test waits.
const TURNS: u32 = 10_000;

fn pause<R: Clock>(rt: &R, ms: u64) {
    thread::sleep(rt, Duration::from_millis(ms));
}

/// Waits until the log's thread is over, and says whether it came to that.
fn comes_to_its_end<R: Clock>(rt: &R, log: &Log) -> bool {
    for _ in 0..TURNS {
        if log.is_over() {
            return true;
        }
        pause(rt, 1);
    }
    false
}

/// A log whose thread runs, and what is behind its device.
#[derive(Drop)]
struct Running {
    log: Arc<Log>,
    store: Arc<Store>,
    thread: LogThread,
}

/// What two share.
fn two_of<T: Drop>(alloc: Global, value: T) -> Option<(Arc<T>, Arc<T>)> {
    let first = Arc::new(alloc, value).ok()?;
    let second = Arc::try_clone(&first).ok()?;
    Some((first, second))
}

impl Running {
    fn start<R>(rt: R, alloc: Global, store: Store) -> Running
    where
        R: Wait + Threads + Clock + Abort + Copy + Drop + Send + Sync + 'static,
    {
        let (log, own) = two_of(alloc, Log::new(alloc, Format::Text)).expect(&rt, "a log");
        let (store, behind) = two_of(alloc, store).expect(&rt, "a store");
        let thread = LogThread::start(rt, own, Device { rt, store: behind });
        Running {
            log,
            store,
            thread: thread.ok().expect(&rt, "a thread"),
        }
    }

    /// Ends the log, whose device has all of so many pushes then, or how many were lost, which it
    /// gives.
    fn lost_at_its_end<R>(self, rt: &R, pushed: u64, row: &str) -> u64
    where
        R: Wait + Threads + Clock + Abort,
    {
        let Running { log, store, thread } = self;
        log.end(rt);
        holds!(*rt; comes_to_its_end(rt, &log), row);
        holds!(*rt; thread.finish(rt) == Finish::Over, row);
        lost_of(rt, &log, &store, pushed, row)
    }
}

/// How many lines were lost of so many, where the store tells of all.
fn lost_of<R: Wait + Abort>(rt: &R, log: &Log, store: &Store, pushed: u64, row: &str) -> u64 {
    let counts = log.counts(rt);
    holds!(*rt; counts.pushed == pushed, row);
    holds!(*rt; tells(store.bytes.lock(rt).as_slice(), pushed, counts.lost), row);
    counts.lost
}
