//! Calls that wait take no processor time. Each thread asks the system what it has taken itself, so
//! that neither other threads nor a busy machine count.

use super::scene::READ;
use super::scripted::Told;
use super::scripts::ALWAYS_BLOCKS;
use super::watch::Watch;
use super::{Plain, TURNS, comes_to, holds, open, share};
use fd_descriptor::Word;
use rwloops::Fault;
use std::alloc::Global;
use std::fs::Files;
use std::sync::Wait;
use std::time::{Clock, Duration};
use std::{fs, io, thread};

/// The most nanoseconds that a call may take in a second that it waits.
const MOST_NANOS: u64 = 50_000_000;

/// The nanoseconds of processor time that this thread has taken.
fn own_nanos<T: Files>(rt: &T, alloc: Global) -> Option<u64> {
    let file = fs::open(rt, "/proc/thread-self/schedstat").ok()?;
    let told = io::read_to_string(alloc, file).ok()?;
    told.as_str().split_whitespace().next()?.parse().ok()
}

/// Whether a read that a close ends took next to nothing. It takes something: a system that doesn't
/// count tells the same before and after.
fn parks<T: Wait + Files + Clock + Drop>(rt: &T, alloc: Global, reader: Plain<T>) -> bool {
    let mut reader = reader;
    let before = own_nanos(rt, alloc);
    let is_closed = reader.read(rt, &mut [0; 4]) == Err(Fault::Closed);
    match (own_nanos(rt, alloc), before) {
        (Some(after), Some(before)) => {
            is_closed && before < after && after.saturating_sub(before) <= MOST_NANOS
        }
        _ => false,
    }
}

/// Waits until a read is queued behind another.
fn is_queued<T: Wait + Clock + Drop>(rt: &T, handle: &mut Plain<T>) -> bool {
    for _ in 0..TURNS {
        if handle.look() == (Word { rwait: 1, ..READ }) {
            return true;
        }
        thread::sleep(rt, Duration::from_millis(1));
    }
    false
}

#[test]
fn a_read_and_one_that_is_queued_take_no_processor_time(rt: HostRuntime) {
    let alloc = rt.alloc();
    let watch = Watch::start(rt, alloc, "a read and one that is queued");
    let told = Told::shared(&rt, alloc);
    let mut handle = open(rt, alloc, &told, ALWAYS_BLOCKS, None);
    let (reader, next) = (share(&rt, &mut handle), share(&rt, &mut handle));
    let first = thread::spawn(&rt, move || parks(&rt, alloc, reader)).expect(&rt, "a thread");
    holds(&rt, comes_to(&rt, &told.tries, 1), "one reads");
    let second = thread::spawn(&rt, move || parks(&rt, alloc, next)).expect(&rt, "a thread");
    holds(&rt, is_queued(&rt, &mut handle), "one is queued");
    thread::sleep(&rt, Duration::from_millis(1_000));
    holds(&rt, handle.close(&rt).is_ok(), "a close");
    holds(&rt, second.join(&rt), "who is queued parks");
    holds(&rt, first.join(&rt), "who reads parks");
    watch.end(&rt);
}
