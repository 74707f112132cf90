//! A row of what is begun, answered and told of an owner's calls, and when they give up then.
use base_types::Dir;
use base_types::Dir::{Read, Write};
use deadline_core::{CallDeadlines, Deadline};

/// A step on the deadlines of calls, with what it has to answer.
enum Step {
    Begin(Dir, Option<u64>),
    End(Dir),
    Tell(Dir, Deadline),
    /// Whether calls of this direction give up at this moment.
    Passed(Dir, u64, bool),
    Next(Option<u64>),
}

use Step::{Begin, End, Next, Passed, Tell};

const STEPS: &[Step] = &[
    // What was told lasts, and nothing is awaited of no call.
    Tell(Read, Deadline::At(5)),
    Next(None),
    Passed(Read, 4, false),
    Passed(Read, 5, true),
    Passed(Write, 5, false),
    // A call gives up at its own moment, until it has its answer.
    Begin(Read, Some(10)),
    Passed(Read, 9, false),
    Next(Some(10)),
    // The earlier direction comes first.
    Begin(Write, Some(7)),
    Next(Some(7)),
    End(Write),
    Next(Some(10)),
    // What was told last counts, also under way, until a call's own moment.
    Tell(Read, Deadline::Never),
    Next(None),
    Tell(Read, Deadline::At(3)),
    Next(Some(3)),
    End(Read),
    Begin(Read, None),
    Next(Some(3)),
    Begin(Read, Some(30)),
    Next(Some(30)),
];

/// Takes a step, and says whether its answer is the one that it must get.
fn answers(calls: &mut CallDeadlines, step: &Step) -> bool {
    match step {
        Begin(dir, own) => calls.begin(*dir, *own),
        End(dir) => calls.end(*dir),
        Tell(dir, deadline) => calls.tell(*dir, *deadline),
        Passed(dir, now, want) => return calls.has_passed(*dir, *now) == *want,
        Next(want) => return calls.next() == *want,
    }
    true
}

#[test]
fn calls_give_up_as_their_row_says(rt: HostRuntime) {
    let mut calls = CallDeadlines::new();
    for (at, step) in STEPS.iter().enumerate() {
        assert!(rt; answers(&mut calls, step), "step {at}");
    }
}
