//! A device that neither takes bytes nor fails, as a pipe that nobody reads.

use super::device::{Full, Store};
use super::lines::push_all;
use super::{Running, comes_to_its_end, lost_of};
use log_writer::{Finish, LogThread};
use std::prelude::HostRuntime;
use std::process::Abort;
use std::sync::Wait;
use std::sync::atomic::Ordering;
use std::thread::Threads;
use std::time::{Clock, Instant};

/// How many milliseconds the thread was waited for, before it was left.
fn ms_until_left<R: Wait + Threads + Clock + Abort>(rt: &R, thread: LogThread) -> u128 {
    let began = Instant::now(rt).expect(rt, "a clock");
    holds!(*rt; thread.finish(rt) == Finish::Left);
    began.elapsed(rt).expect(rt, "a clock").as_millis()
}

// A push that waited for the device would wait for ever. The thread that was left goes on once the
// device takes bytes again, and writes all that it owes.
#[test]
fn a_device_that_blocks_keeps_no_push_and_no_end_waiting(rt: HostRuntime) {
    let running = Running::start(rt, rt.alloc(), Store::new(rt.alloc(), 300, Full::Blocks));
    let Running { log, store, thread } = running;
    push_all(&rt, &log, "p0", 10_000);
    let took = ms_until_left(&rt, thread);
    holds!(rt; 900 <= took && took < 5_000);
    holds!(rt; !log.is_over());
    store.room.store(u64::MAX, Ordering::SeqCst);
    holds!(rt; comes_to_its_end(&rt, &log), "it does not go on");
    holds!(rt; lost_of(&rt, &log, &store, 10_000, "a device that blocks") > 0);
}
