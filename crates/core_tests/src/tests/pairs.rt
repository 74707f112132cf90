//! The limits of pairs, moments and pauses, and when a pair closes.

use base_types::Dir;
use relay_core::Way::{Down, Up};
use relay_core::{
    Ended, PairLimit, PairNext, PairTasks, Step, has_room_for_pair, idle_deadline, loop_of,
    next_pause_ms,
};
use rwloops::{DevKind, Fault};

/// A call with its answer.
enum Case {
    /// The limit that was asked for, the pairs that stand, and whether there is room for one more;
    /// none where there can't be such a limit.
    Room(u64, usize, Option<bool>),
    /// A moment, the idle time in ms, and the deadline.
    Idle(u64, u32, u64),
    /// A pause in ms, and the next.
    Pause(u64, u64),
    /// The connections of each loop, and the loop that takes one more.
    Loop(&'static [u64], usize),
    /// How far the way up came, what then follows for its pair, and what follows once the way down
    /// has ended too.
    Ends(Step, PairNext, PairNext),
}

use Case::{Ends, Idle, Loop, Pause, Room};

const END: Step = Step::Ended(Ended::Eof);

const CASES: &[(&str, Case)] = &[
    ("the last of most pairs", Room(50_000, 49_999, Some(true))),
    ("a pair more than most", Room(50_000, 50_000, Some(false))),
    ("a limit of none", Room(0, 0, None)),
    ("a limit past the most", Room(50_001, 0, None)),
    ("five seconds", Idle(7, 5_000, 5_000_000_007)),
    ("the greatest moment", Idle(u64::MAX - 1, 1, u64::MAX)),
    ("the first pause", Pause(0, 5)),
    ("a pause below half a second", Pause(499, 998)),
    ("a pause past half a second", Pause(640, 1_000)),
    ("the first of the least loops", Loop(&[3, 1, 2, 1], 1)),
    (
        "both ways ended",
        Ends(END, PairNext::Again, PairNext::Closes),
    ),
    (
        "one way waits",
        Ends(Step::Waits(Dir::Read), PairNext::Again, PairNext::Waits),
    ),
    (
        "one way failed",
        Ends(
            Step::Ended(Ended::ReadFault(Fault::Device(DevKind::Reset))),
            PairNext::Closes,
            PairNext::Closes,
        ),
    ),
    (
        "a full book",
        Ends(
            Step::Ended(Ended::BookFull(0)),
            PairNext::Closes,
            PairNext::Closes,
        ),
    ),
];

fn holds(case: &Case) -> bool {
    match case {
        Room(asked, pairs, want) => match PairLimit::of(*asked) {
            Some(limit) => Some(has_room_for_pair(*pairs, limit)) == *want,
            None => want.is_none(),
        },
        Idle(now, idle_ms, deadline) => idle_deadline(*now, *idle_ms) == *deadline,
        Pause(before, next) => next_pause_ms(*before) == *next,
        Loop(counts, least) => !counts.is_empty() && loop_of(counts) == *least,
        Ends(step, first, then) => {
            let mut tasks = PairTasks::new();
            tasks.note(Up, step) == *first && tasks.note(Down, &END) == *then
        }
    }
}

#[test]
fn pairs_deadlines_pauses_and_loops_are_as_their_rows_say(rt: HostRuntime) {
    for (row, case) in CASES {
        assert!(rt; holds(case), "{row}");
    }
}
