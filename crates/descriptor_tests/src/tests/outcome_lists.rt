//! Each list of at most three outcomes and then a reset: a handle answers, tries, offers and leaves
//! in the buffer what the loop does on the half itself.

use super::open;
use super::scripted::{END, Notice, Script, ScriptedHalf, Told, Tries, Try};
use base_types::Dir;
use deadline_core::Refusal;
use rwloops::{DevKind, Fault, Outcome, Waits, WriteFault, accept, read, write};
use std::alloc::Global;
use std::process::Abort;
use std::sync::Wait;
use std::sync::atomic::Ordering;
use std::time::Clock;

/// Waits that grant everything.
#[derive(Drop)]
struct Willing;

impl Waits for Willing {
    ghost tells = { λ _ _. ⊥ };

    fn prepare(&mut self, _dir: Dir) -> Result<(), Refusal> {
        Ok(())
    }

    fn wait(&mut self, _dir: Dir) -> Result<(), Refusal> {
        Ok(())
    }
}

/// What a list has at each of its places; an end isn't passed.
const KINDS: [Tries; 7] = [
    END,
    (Try::Gives(Outcome::Count(0)), 1),
    (Try::Gives(Outcome::Count(3)), 1),
    (Try::Gives(Outcome::Interrupted), 1),
    (Try::Gives(Outcome::Aborted), 1),
    (Try::Tells(Notice::Ready), 1),
    (Try::Gives(Outcome::Broken(DevKind::Other)), 1),
];

const BYTES: &[u8] = b"01234567";

#[derive(Clone, Copy)]
enum Call {
    Read,
    Write,
    Accept,
}

/// What a call came to: its answer, the buffer, how many tries were made, and what was offered and
/// written.
#[derive(Clone, Copy, PartialEq)]
struct Came {
    answer: Result<usize, Fault>,
    cut: usize,
    buf: [u8; 8],
    tries: u64,
    offered: u64,
    taken: u64,
}

fn outcome_of(answer: Result<usize, WriteFault>, buf: [u8; 8], told: &Told) -> Came {
    let (answer, cut) = match answer {
        Ok(count) => (Ok(count), 0),
        Err(WriteFault { fault, count }) => (Err(fault), count),
    };
    Came {
        answer,
        cut,
        buf,
        tries: told.tries.load(Ordering::SeqCst),
        offered: told.offered.load(Ordering::SeqCst),
        taken: told.taken.load(Ordering::SeqCst),
    }
}

fn none_written(fault: Fault) -> WriteFault {
    WriteFault { fault, count: 0 }
}

/// By the loop on the half itself.
fn by_loop<T: Wait + Clock + Abort + Copy + Drop>(
    rt: T,
    alloc: Global,
    list: Script,
    call: Call,
) -> Came {
    let told = Told::shared(&rt, alloc);
    let mut half = ScriptedHalf::new(rt, &told, list, None);
    let mut buf = [0u8; 8];
    let answer = match call {
        Call::Read => read(&rt, &mut half, &mut buf, &mut Willing).map_err(none_written),
        Call::Write => write(&rt, &mut half, BYTES, &mut Willing),
        Call::Accept => accept(&rt, &mut half, &mut Willing).map_err(none_written),
    };
    outcome_of(answer, buf, &told)
}

/// Through a handle.
fn by_handle<T: Wait + Clock + Abort + Copy + Drop>(
    rt: T,
    alloc: Global,
    list: Script,
    call: Call,
) -> Came {
    let told = Told::shared(&rt, alloc);
    let mut handle = open(rt, alloc, &told, list, None);
    let mut buf = [0u8; 8];
    let answer = match call {
        Call::Read => handle.read(&rt, &mut buf).map_err(none_written),
        Call::Write => handle.write(&rt, BYTES),
        Call::Accept => handle.accept(&rt).map_err(none_written),
    };
    outcome_of(answer, buf, &told)
}

/// The list of this number.
fn list(number: usize) -> Script {
    [
        KINDS[number / 49 % 7],
        KINDS[number / 7 % 7],
        KINDS[number % 7],
        END,
        END,
    ]
}

/// The first list of which a call through a handle doesn't try the half, or doesn't come to what the
/// loop comes to.
fn odd_list<T: Wait + Clock + Abort + Copy + Drop>(
    rt: T,
    alloc: Global,
    call: Call,
) -> Option<usize> {
    for number in 0..343 {
        let through = by_handle(rt, alloc, list(number), call);
        if through.tries == 0 || through != by_loop(rt, alloc, list(number), call) {
            return Some(number);
        }
    }
    None
}

#[test]
fn handle_answers_what_the_half_gave(rt: HostRuntime) {
    for (name, call) in [
        ("read", Call::Read),
        ("write", Call::Write),
        ("accept", Call::Accept),
    ] {
        let odd = odd_list(rt, rt.alloc(), call);
        assert!(rt;
            odd.is_none(),
            "a {name} of list {odd:?} came to something else"
        );
    }
}
