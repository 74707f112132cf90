//! Eight threads and the task of an event loop at one descriptor whose halves are never ready, in
//! many rounds, until one of the threads closes it.

use super::scripted::{Pair, Told};
use super::scripts::ALWAYS_BLOCKS;
use super::watch::Watch;
use super::{Plain, Silent, open, share};
use deadline_core::Deadline;
use fd_descriptor::TaskReader;
use rwloops::{Fault, WriteFault};
use std::alloc::Global;
use std::process::Abort;
use std::sync::Wait;
use std::sync::atomic::Ordering;
use std::thread;
use std::thread::{JoinHandle, Threads};
use std::time::{Clock, Duration};

/// What a thread does again and again until the descriptor is closed.
#[derive(Clone, Copy)]
enum Role {
    Reads,
    Writes,
    /// Sets the deadline to now.
    Expires,
    /// Sets no deadline.
    Lifts,
    /// Closes it, and is then told that it is closed.
    Closes,
}

const ROLES: [Role; 7] = [
    Role::Reads,
    Role::Reads,
    Role::Reads,
    Role::Writes,
    Role::Writes,
    Role::Expires,
    Role::Lifts,
];

/// Every other round is drained before it is closed.
const ROUNDS: u64 = 100;

/// So many calls of a thread come right behind each other. Then it sleeps: eight threads that never do
/// leave each other no processor on a machine that has few to spare, and a round takes too long.
const CALLS: u64 = 64;

/// An answer that no call of a storm may give.
const ODD: Result<(), Fault> = Err(Fault::EndOfFile);

fn takes<T: Wait + Clock + Drop>(rt: &T, handle: &mut Plain<T>, role: Role) -> Result<(), Fault> {
    match role {
        Role::Reads => match handle.read(rt, &mut [0; 4]) {
            Ok(_) => ODD,
            Err(fault) => Err(fault),
        },
        Role::Writes => match handle.write(rt, b"abc") {
            Err(WriteFault { fault, count: 0 }) => Err(fault),
            _ => ODD,
        },
        Role::Expires => handle.set_deadline(rt, Deadline::At(5), 5, &Silent),
        Role::Lifts => handle.set_deadline(rt, Deadline::Never, 5, &Silent),
        Role::Closes => handle.close(rt),
    }
}

/// Whether an answer ends a storm, and then whether it may; none where the storm goes on.
fn ends(answer: Result<(), Fault>, is_drained: bool) -> Option<bool> {
    match answer {
        Ok(()) | Err(Fault::DeadlineExceeded) => None,
        Err(Fault::Draining) => Some(is_drained),
        refused => Some(refused == Err(Fault::Closed)),
    }
}

/// Plays a role until the descriptor is closed, or drained, and says whether no other answer came.
fn plays<T: Wait + Clock + Drop>(
    rt: &T,
    handle: &mut Plain<T>,
    role: Role,
    is_drained: bool,
) -> bool {
    let mut calls = 0u64;
    for _ in rt.forever() {
        if let Some(may) = ends(takes(rt, handle, role), is_drained) {
            return may;
        }
        calls = calls.wrapping_add(1);
        gives_way(rt, calls);
    }
    unreachable!()
}

/// Lets others run behind a thread's call with this number.
fn gives_way<C: Clock>(clock: &C, calls: u64) {
    if calls % CALLS == 0 {
        thread::sleep(clock, Duration::from_millis(1));
    } else {
        thread::yield_now();
    }
}

/// What a task's read is answered beside them, but by a deadline; none once so many tries were made.
fn polls<T: Wait + Clock + Copy + Drop>(
    reader: &mut TaskReader<Pair<T>, T>,
    told: &Told,
    tries: u64,
) -> Option<Result<usize, Fault>> {
    for _ in 0..u64::MAX {
        if told.tries.load(Ordering::SeqCst) >= tries {
            return None;
        }
        match reader.poll_read(&mut [0; 4]) {
            None | Some(Err(Fault::DeadlineExceeded)) => thread::yield_now(),
            answer => return answer,
        }
    }
    None
}

/// Starts a role in a thread of its own.
fn start<T: Threads + Wait + Clock + Abort + Copy + Send + Drop + 'static>(
    rt: T,
    handle: Plain<T>,
    role: Role,
    is_drained: bool,
) -> JoinHandle<bool> {
    let mut handle = handle;
    let play = move || plays(&rt, &mut handle, role, is_drained);
    thread::spawn(&rt, play).expect(&rt, "a thread")
}

/// Plays a round: the drain and the close come once so many tries were made. The task, which has the
/// read lock before anybody else, reads on until it is refused.
fn play<T: Threads + Wait + Clock + Abort + Copy + Send + Drop + 'static>(
    rt: T,
    alloc: Global,
    round: u64,
) -> bool {
    let told = Told::shared(&rt, alloc);
    let mut handle = open(rt, alloc, &told, ALWAYS_BLOCKS, None);
    let is_drained = round % 2 == 0;
    let mut reader = TaskReader::new(rt, share(&rt, &mut handle));
    let mut held = reader.begin().is_ok();
    let mut threads = Vec::new(alloc);
    for role in ROLES {
        let thread = start(rt, share(&rt, &mut handle), role, is_drained);
        threads.push(thread).expect(&rt, "room");
    }
    held = polls(&mut reader, &told, round).is_none() && held;
    held = (!is_drained || handle.drain(&rt).is_ok()) && held;
    let closer = start(rt, handle, Role::Closes, is_drained);
    threads.push(closer).expect(&rt, "room");
    let refused = polls(&mut reader, &told, u64::MAX);
    held = (refused == Some(Err(Fault::Closed))
        || is_drained && refused == Some(Err(Fault::Draining)))
        && held;
    let _handle = reader.into_handle();
    for thread in threads {
        held = thread.join(&rt) && held;
    }
    held && told.destroys.load(Ordering::SeqCst) == 1
}

#[test]
fn all_threads_end_when_one_closes(rt: HostRuntime) {
    for round in 0..ROUNDS {
        let watch = Watch::start(rt, rt.alloc(), "a storm");
        let held = play(rt, rt.alloc(), round);
        assert!(rt; held, "round {round}");
        watch.end(&rt);
    }
}
