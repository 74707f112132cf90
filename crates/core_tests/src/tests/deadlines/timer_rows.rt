//! A row of timers, with what is due and in which order.
use base_types::Dir;
use base_types::Dir::{Read, Write};
use deadline_core::Timers;
use std::alloc::Global;

/// A step on timers, with what it has to answer.
enum Step {
    Arm(u64, Dir, u64),
    Both(u64, u64),
    Disarm(u64, Dir),
    /// What is due, in this order.
    Due(u64, &'static [(u64, Dir)]),
    Next(Option<u64>),
    Live(usize),
}

use Step::{Arm, Both, Disarm, Due, Live, Next};

const STEPS: &[Step] = &[
    Next(None),
    // By moment, then key, then read first.
    Arm(2, Write, 7),
    Arm(2, Read, 7),
    Arm(1, Write, 7),
    Arm(9, Read, 3),
    Arm(0, Read, 8),
    Live(5),
    Due(2, &[]),
    Due(7, &[(9, Read), (1, Write), (2, Read), (2, Write)]),
    Next(Some(8)),
    // Armed again, it has its new moment alone.
    Arm(0, Read, 50),
    Both(0, 60),
    Due(59, &[]),
    Due(60, &[(0, Read), (0, Write)]),
    Both(7, 60),
    Disarm(7, Read),
    Disarm(8, Write),
    Due(u64::MAX, &[(7, Write)]),
    Live(0),
];

/// Takes a step, and says whether its answer is the one that it must get.
fn answers(timers: &mut Timers, step: &Step) -> bool {
    match step {
        Arm(key, dir, at) => timers.arm(*key, *dir, *at).is_ok(),
        Both(key, at) => timers.arm_both(*key, *at).is_ok(),
        Disarm(key, dir) => {
            timers.disarm(*key, *dir);
            true
        }
        Due(now, want) => timers.due(*now).as_slice() == *want,
        Next(want) => timers.next() == *want,
        Live(want) => timers.live() == *want,
    }
}

/// The first step whose answer is another, if one's is.
fn other_step(alloc: Global) -> Option<usize> {
    let mut timers = Timers::new(alloc);
    for (at, step) in STEPS.iter().enumerate() {
        if !answers(&mut timers, step) {
            return Some(at);
        }
    }
    None
}

#[test]
fn timers_answer_as_their_row_says(rt: HostRuntime) {
    let other = other_step(rt.alloc());
    assert!(rt; other.is_none(), "step {other:?}");
}
