//! Four threads that push while the log's thread writes.

use super::device::{Full, Store};
use super::lines::{NAMES, numbered};
use super::{Running, TURNS, pause};
use log_writer::Log;
use std::alloc::Global;
use std::process::Abort;
use std::sync::Wait;
use std::sync::atomic::Ordering;
use std::thread;
use std::thread::Threads;
use std::time::Clock;

/// How many lines each pushes.
const LINES: u64 = 10_000;

/// How many lines may be on their way when fifty more are pushed: with those of four threads they
/// fill no queue, which has room for 700.
const MOST_UNDER_WAY: u64 = 400;

/// Waits until the device has taken most of what was pushed, and says whether it came to that.
fn comes_to_have_room<R: Wait + Clock>(rt: &R, log: &Log, store: &Store) -> bool {
    for _ in 0..TURNS {
        let written = store.lines.load(Ordering::SeqCst);
        if log.counts(rt).pushed.saturating_sub(written) <= MOST_UNDER_WAY {
            return true;
        }
        pause(rt, 1);
    }
    false
}

fn push_lines<R>(rt: &R, log: &Log, store: &Store, is_paced: bool, name: &str)
where
    R: Wait + Clock + Abort,
{
    for number in 0..LINES {
        if is_paced && number % 50 == 0 {
            holds!(*rt; comes_to_have_room(rt, log, store), name);
        }
        log.push(rt, &numbered(name, number));
    }
}

/// Has four threads push all their lines.
fn push_by_four<R>(rt: &R, log: &Log, store: &Store, is_paced: bool)
where
    R: Wait + Threads + Clock + Abort + Sync,
{
    thread::scope(thread::scope_env(), rt, |scope| {
        for name in NAMES {
            let pusher = scope.spawn(move || push_lines(rt, log, store, is_paced, name));
            holds!(*rt; pusher.is_ok(), name);
        }
    });
}

/// Has four threads push all their lines, and gives how many were lost.
fn lost_by_four<R>(rt: R, alloc: Global, store: Store, is_paced: bool) -> u64
where
    R: Wait + Threads + Clock + Abort + Copy + Drop + Send + Sync + 'static,
{
    let running = Running::start(rt, alloc, store);
    push_by_four(&rt, &running.log, &running.store, is_paced);
    running.lost_at_its_end(&rt, 4 * LINES, "four threads")
}

#[test]
fn with_room_no_line_of_four_threads_is_lost(rt: HostRuntime) {
    let mut store = Store::new(rt.alloc(), u64::MAX, Full::Fails);
    store.most = 1_000;
    holds!(rt; lost_by_four(rt, rt.alloc(), store, true) == 0);
}

#[test]
fn a_slow_device_has_all_lines_or_how_many_were_lost(rt: HostRuntime) {
    let mut store = Store::new(rt.alloc(), u64::MAX, Full::Fails);
    store.most = 200;
    store.pause_ms = 1;
    store.interrupts = 3;
    holds!(rt; lost_by_four(rt, rt.alloc(), store, false) > 0, "the device was as quick");
}
