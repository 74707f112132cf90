//! Worked values from outside the definitions of the word, and runs of a machine.

use base_types::Dir::{Read, Write};
use lockword_core::After::{Closing, Drained, Held, Kept, Last, Owes, Queued};
use lockword_core::Kind::{Close, Decref, Drain, Incref, Lock, Unlock};
use lockword_core::Refused::{Misuse, TooMany};
use lockword_core::layout_one::to_two;
use lockword_core::{
    After, Answer, Event, Kind, MAX_SIGNALS, Machine, Op, Refused, Word, signal_add, signal_take,
    unpack, word_step,
};
use std::alloc::Global;

/// A call with its answer.
enum Case {
    /// A word, a step on it, and the word that it leaves with its answer.
    Steps(u64, Kind, Result<(u64, After), Refused>),
    /// A word, and its fields.
    Reads(u64, Word),
    /// A word of the first layout, and the one of this layout.
    Becomes(u64, Option<u64>),
    /// Signals, and one more.
    Adds(u64, Option<u64>),
    /// Signals, and one less.
    Takes(u64, Option<u64>),
}

use Case::{Adds, Becomes, Reads, Steps, Takes};

const FIELDS: Word = Word {
    closed: true,
    rlock: false,
    wlock: true,
    refs: 3,
    rwait: 262_143,
    wwait: 2,
    drain: false,
};

const DRAINED: Word = Word {
    drain: true,
    ..FIELDS
};

const CASES: &[Case] = &[
    Steps(0, Incref, Ok((8, Held))),
    Steps(8, Decref, Ok((0, Kept))),
    Steps(9, Incref, Err(Refused::Closed)),
    Steps(9, Decref, Ok((1, Last))),
    Steps(0x11, Decref, Ok((9, Kept))),
    Steps(134_217_720, Incref, Err(TooMany)),
    Steps(134_217_720, Lock(Read), Err(TooMany)),
    Steps(134_217_720, Close, Err(TooMany)),
    Steps(0, Decref, Err(Misuse)),
    Steps(2, Unlock(Read), Err(Misuse)),
    Steps(1 << 63, Incref, Err(Refused::Draining)),
    Steps(1 << 63, Drain, Err(Refused::Draining)),
    Steps(0x8000_0000_07ff_fff8, Close, Err(TooMany)),
    Steps(0x8000_0000_0000_0009, Drain, Err(Refused::Closed)),
    Steps(
        0x8000_0000_0000_000a,
        Close,
        Ok((0x8000_0000_0000_0013, Closing { read: 0, write: 0 })),
    ),
    Steps(
        0x8000_0000_0000_0009,
        Decref,
        Ok((0x8000_0000_0000_0001, Last)),
    ),
    Steps(
        0x2000_1800_000e,
        Drain,
        Ok((0x8000_0000_0000_000e, Drained { read: 3, write: 1 })),
    ),
    Steps(0, Lock(Read), Ok((0xa, Held))),
    Steps(0xa, Lock(Read), Ok((0x800_000a, Queued))),
    Steps(0xa, Lock(Write), Ok((0x16, Held))),
    Steps(0x1fff_f800_000a, Lock(Read), Err(TooMany)),
    Steps(0x2000_0000_000c, Unlock(Write), Ok((0, Owes))),
    Steps(0xb, Unlock(Read), Ok((1, Last))),
    Steps(0x800_000a, Close, Ok((0x13, Closing { read: 1, write: 0 }))),
    Reads(0x5fff_f800_001d, FIELDS),
    Reads(0x8000_5fff_f800_001d, DRAINED),
    Becomes(0x80_000a, Some(0x800_000a)),
    Becomes(0x200_0000_000a, None),
    Becomes(0x2000_0000_0000_000c, None),
    Becomes(0x8000_0800_0080_001f, Some(0x8000_2000_0800_001f)),
    Adds(4_294_967_294, Some(MAX_SIGNALS)),
    Adds(4_294_967_295, None),
    Takes(1, Some(0)),
    Takes(0, None),
];

fn holds(case: &Case) -> bool {
    match case {
        Steps(word, kind, want) => word_step(*word, *kind) == *want,
        Reads(word, fields) => unpack(*word) == Some(*fields),
        Becomes(first, now) => to_two(*first) == *now,
        Adds(signals, more) => signal_add(*signals) == *more,
        Takes(signals, less) => signal_take(*signals) == *less,
    }
}

#[test]
fn words_and_signals_are_as_their_rows_say(rt: HostRuntime) {
    for (at, case) in CASES.iter().enumerate() {
        assert!(rt; holds(case), "row {at}");
    }
}

const EVENTS: &[Event] = &[
    Event {
        holder: 1,
        op: Op::Lock(Read),
    },
    Event {
        holder: 2,
        op: Op::Lock(Read),
    },
    Event {
        holder: 1,
        op: Op::Unlock(Read),
    },
    Event {
        holder: 3,
        op: Op::Close,
    },
];

/// Rows of events on a new machine, with their answers and the word that they leave.
const RUNS: &[(&[Event], &[Answer], u64)] = &[
    (&[], &[], 0),
    (
        EVENTS,
        &[Answer::Held, Answer::Queued, Answer::Owes, Answer::Closing],
        9,
    ),
];

fn runs(alloc: Global, events: &[Event], want: &[Answer], word: u64) -> bool {
    let mut machine = Machine::new(alloc);
    match machine.run(alloc, events) {
        Ok(answers) => answers.as_slice() == want && machine.word() == word,
        Err(_) => false,
    }
}

#[test]
fn a_machine_answers_as_its_rows_say(rt: HostRuntime) {
    for (events, answers, word) in RUNS {
        let holds = runs(rt.alloc(), events, answers, *word);
        assert!(rt; holds, "{} events", events.len());
    }
}
