//! Devices that fail, or take nothing, from some byte on: for a while, or to the end.

use super::Running;
use super::device::{Device, Full, Store};
use super::lines::push_all;
use log_writer::Log;
use relay_log::format::Format;
use std::alloc::Global;
use std::process::Abort;
use std::sync::atomic::Ordering;
use std::sync::{Arc, Wait};
use std::thread::Threads;
use std::time::Clock;

/// Has the device refuse twice, with more lines meanwhile than find room, and take all then.
fn fail_for_a_while<R: Wait + Clock + Abort>(rt: &R, log: &Log, store: &Store, row: &str) {
    push_all(rt, log, "p0", 100);
    holds!(*rt; store.comes_to_refuse(rt, 1), row);
    push_all(rt, log, "p1", 2_000);
    holds!(*rt; log.counts(rt).lost > 0, row);
    holds!(*rt; store.comes_to_refuse(rt, 2), row);
    store.room.store(u64::MAX, Ordering::SeqCst);
    push_all(rt, log, "p2", 1);
}

/// Where the device stops, and how. So many lines are pushed meanwhile that the queue is full.
const STOPS: &[(&str, u64, Full)] = &[
    ("at its first byte", 0, Full::Fails),
    ("in the middle of a line", 500, Full::Fails),
    ("between two lines", 89, Full::Fails),
    (
        "in the middle of a line, without an error",
        501,
        Full::TakesNothing,
    ),
];

#[test]
fn a_device_that_failed_for_a_while_has_no_line_cut_and_each_lost_one_said(rt: HostRuntime) {
    for (row, room, full) in STOPS {
        let running = Running::start(rt, rt.alloc(), Store::new(rt.alloc(), *room, *full));
        fail_for_a_while(&rt, &running.log, &running.store, row);
        running.lost_at_its_end(&rt, 2_101, row);
    }
}

/// Runs a log that is at its end, over a device that has room for so many bytes.
fn run_to_the_end<R: Wait + Clock + Drop>(rt: &R, log: &Log, device: &mut Device<R>, row: &str)
where
    R: Abort,
{
    push_all(rt, log, "p0", 100);
    log.end(rt);
    holds!(*rt; !log.is_over(), row);
    log.run(rt, device);
    holds!(*rt; log.is_over(), row);
    holds!(*rt; log.counts(rt).lost == 0, row);
}

fn fails_at_the_end<R>(rt: R, alloc: Global, room: u64, row: &str)
where
    R: Wait + Clock + Abort + Copy + Drop,
{
    let log = Log::new(alloc, Format::Text);
    let store = Arc::new(alloc, Store::new(alloc, room, Full::Fails));
    let store = store.ok().expect(&rt, "a store");
    let mut device = Device { rt, store };
    run_to_the_end(&rt, &log, &mut device, row);
    holds!(rt; device.store.refused.load(Ordering::SeqCst) == 1, row);
    holds!(rt; device.store.bytes.lock(&rt).len() as u64 == room, row);
}

const ENDS: &[(&str, u64)] = &[
    ("no room", 0),
    ("room for a byte", 1),
    ("room for 500 bytes", 500),
    ("room for 8,000 bytes", 8_000),
];

// Nobody waits for it then: what it took stays, and the rest is left.
#[test]
fn a_device_that_fails_at_the_end_ends_the_thread(rt: HostRuntime) {
    for (row, room) in ENDS {
        fails_at_the_end(rt, rt.alloc(), *room, row);
    }
}
