//! Memory that is refused, and what a loop takes of it on a heap of fixed size: nothing in turns and
//! names, and for tasks that come and go what the first of them took.

use super::counting::{Counting, Ledger, Seen, WAITING};
use super::{holds, listening, socks};
use fd_descriptor::{Alarms, Deadline, Dirs, Fault};
use linked_list_allocator::LocalHeap;
use readiness::{
    ConnTable, EventLoop, HeldSocket, Listen, Poller, RemoteAlarms, Sock, SockRes, TimerAlarms,
    Timers,
};
use std::alloc::Global;
use std::fs::Files;
use std::net::Net;
use std::os::fd::{AsRawFd, RawFd};
use std::process::Abort;
use std::sync::{Arc, Mutex, Wait};
use std::time::Clock;

/// How often tasks come and go.
const ROUNDS: u64 = 10_000;

/// By so many rounds the timers have as many stale entries as they keep.
const FIRST_ROUNDS: u64 = 200;

const HEAP: usize = 262_144;

/// The file that the system would open next, which is another where one was left open. It takes no
/// memory to know.
fn next_file<R: Net + Files + Abort>(rt: &R) -> Option<RawFd> {
    match listening(rt) {
        Listen::Tcp(listener) => Some(listener.as_raw_fd()),
        Listen::Unix(_) => None,
    }
}

type HeapLoop<'h> = EventLoop<Counting, &'h LocalHeap>;

/// Whether it was made: what wasn't was refused memory.
fn is_made<R: Abort>(rt: &R, fault: Option<Fault>) -> bool {
    let is_told = matches!(fault, None | Some(Fault::OutOfMemory));
    holds(rt, is_told, "told as want of memory");
    fault.is_none()
}

/// Makes a poller, a loop and the halves of a socket on this heap, and says which it had memory for.
fn made_on<R: Net + Abort>(rt: &R, heap: &LocalHeap, near: Sock) -> (bool, bool, bool) {
    let has_poller = is_made(rt, Poller::new(rt, heap).err());
    let has_loop = is_made(rt, HeapLoop::new(rt, heap).err());
    (has_poller, has_loop, near.split(heap).is_ok())
}

#[test]
fn a_refused_poller_loop_or_split_leaves_nothing(rt: HostRuntime) {
    let before = next_file(&rt);
    let (mut pollers, mut loops, mut halves) = (0u32, 0u32, 0u32);
    for size in 1..128usize {
        let heap = LocalHeap::new(rt.alloc(), size.saturating_mul(128)).expect(&rt, "heap");
        let (near, _far) = socks(&rt);
        let (has_poller, has_loop, has_halves) = made_on(&rt, &heap, near);
        pollers = pollers.saturating_add(u32::from(has_poller));
        loops = loops.saturating_add(u32::from(has_loop));
        halves = halves.saturating_add(u32::from(has_halves));
        assert!(rt; heap.used() == 0, "nothing is left at {size}");
    }
    let some = 0 < loops && loops <= pollers && pollers < halves && halves < 127;
    holds(&rt, some, "some were refused");
    holds(&rt, next_file(&rt) == before, "no file is left open");
}

/// A task more, and its first token.
fn puts(tasks: &mut HeapLoop<'_>, ledger: &Ledger, task: Counting) -> Option<u64> {
    let place = tasks.vacant().ok()?;
    let is_put = tasks.put(task).is_ok();
    tasks.keep_time(ledger, place.first);
    is_put.then_some(place.first)
}

/// A task comes that awaits a moment and has an alarm, and one that gives way. The first goes as it
/// is told, and the second is taken out. In their turns nothing takes memory.
fn comes_and_goes<R: Wait + Drop>(
    rt: &R,
    heap: &LocalHeap,
    tasks: &mut HeapLoop<'_>,
    ledger: &mut Ledger,
    alarms: &RemoteAlarms<R, &LocalHeap>,
) -> Option<()> {
    let first = Counting {
        ends_when_told: true,
        awaits: Some(5),
        ..WAITING
    };
    let told = puts(tasks, ledger, first)?;
    let other = puts(
        tasks,
        ledger,
        Counting {
            yields: 1,
            ..WAITING
        },
    )?;
    let is_armed = alarms.arm(told, Dirs::Both, 1).is_ok();
    alarms.disarm(told, Dirs::Both);
    let before = heap.used();
    tasks.again(other);
    tasks.remote().ok()?.tell(rt, told);
    let is_turned = tasks.turn(rt, 0, ledger).is_ok() && tasks.turn(rt, 0, ledger).is_ok();
    let is_even = heap.used() <= before && tasks.len() == 1;
    (tasks.take(other).is_some() && is_armed && is_turned && is_even).then_some(())
}

/// The most that was used in the first rounds, and in all that came after, and whether an alarm is
/// refused once the heap is full: none is lost without a word.
fn used_on<R>(rt: R, heap: &LocalHeap, ledger: &mut Ledger) -> Option<(usize, usize, bool)>
where
    R: Wait + Net + Copy + Drop,
{
    let mut tasks = HeapLoop::new(&rt, heap).ok()?;
    let alarms = RemoteAlarms::new(rt, tasks.remote().ok()?);
    let (mut first, mut then) = (0, 0);
    for round in 0..FIRST_ROUNDS + ROUNDS {
        comes_and_goes(&rt, heap, &mut tasks, ledger, &alarms)?;
        if round < FIRST_ROUNDS {
            first = heap.used().max(first);
        }
        then = heap.used().max(then);
    }
    Some((first, then, is_refused(&alarms)))
}

fn is_refused<A: Alarms>(alarms: &A) -> bool {
    for key in 0..ROUNDS {
        if alarms.arm(key, Dirs::Both, ROUNDS - key).is_err() {
            return true;
        }
    }
    false
}

fn is_refused_of_a_poller<R>(rt: R, heap: &LocalHeap) -> Option<bool>
where
    R: Wait + Net + Copy + Drop,
{
    let poller = Poller::new(&rt, heap).ok()?;
    let timers = Arc::new(heap, Mutex::new(Timers::new_in(heap))).ok()?;
    Some(is_refused(&TimerAlarms::new(rt, timers, poller.waker().ok()?)))
}

#[test]
fn tasks_that_come_and_go_take_no_more_memory_than_the_first(rt: HostRuntime) {
    let heap = LocalHeap::new(rt.alloc(), HEAP).expect(&rt, "heap");
    let mut ledger = Ledger {
        wants: &[],
        at: 0,
        is_so: true,
        seen: Arc::new(rt.alloc(), Seen::new()).expect(&rt, "seen"),
    };
    let used = used_on(rt, &heap, &mut ledger);
    let (first, then, is_refused) = used.expect(&rt, "a round took memory, or was refused it");
    assert!(rt; then <= first, "{then} bytes for {first}");
    holds(&rt, is_refused, "an alarm without memory is refused");
    let is_refused = is_refused_of_a_poller(rt, &heap);
    holds(&rt, is_refused == Some(true), "and so is one of a poller");
    holds(&rt, heap.used() == 0, "nothing is left");
}

/// A table, and a descriptor with a deadline in it, as far as memory is given.
fn sets_up_on<R: Wait + Copy + Drop>(
    rt: R,
    alloc: Global,
    poller: &Poller,
    near: Sock,
) -> Option<()> {
    let timers = Arc::new(alloc, Mutex::new(Timers::new(alloc))).ok()?;
    let alarms = TimerAlarms::new(rt, timers, poller.waker().ok()?);
    let mut table = ConnTable::<HeldSocket<SockRes>>::new(alloc);
    let (_, mut handle) = poller.hold(alloc, &mut table, near).ok()?;
    handle.set_deadline(&rt, Deadline::At(100), 0, &alarms).ok()
}

/// Sets up a poller, and these on it.
fn sets_up<R: Wait + Net + Copy + Drop>(rt: R, alloc: Global, near: Sock) -> Option<()> {
    sets_up_on(rt, alloc, &Poller::new(&rt, alloc).ok()?, near)
}

/// The same over a connection whose other end is closed then.
fn sets_up_one_end<R: Wait + Net + Files + Clock + Abort + Copy + Drop>(rt: R, alloc: Global) {
    let (near, _far) = socks(&rt);
    let _ = sets_up(rt, alloc, near);
}

/// Holds where memory is refused as well: `tests/refused_memory.sh` refuses each allocation in
/// turn.
#[test]
fn a_refused_setting_up_leaves_no_file_open(rt: HostRuntime) {
    let before = next_file(&rt);
    sets_up_one_end(rt, rt.alloc());
    holds(&rt, next_file(&rt) == before, "no file is left open");
}
