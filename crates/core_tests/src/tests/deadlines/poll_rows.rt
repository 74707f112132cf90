//! Rows of calls on one poll state, each with the answers that it must get.
use base_types::Dir;
use base_types::Dir::{Read, Write};
use deadline_core::Deadline::{At, Never};
use deadline_core::{Deadline, Dirs, PollState, Refusal};

/// A step on a poll state, with the answer that it must get.
enum Step {
    Set(Dirs, Deadline, u64, Result<(), Refusal>),
    Tick(u64),
    Ready(Dir),
    Evict,
    Prepare(Dir, Result<(), Refusal>),
    Look(Dir, deadline_core::Look),
}

use Step::{Evict, Look, Prepare, Ready, Set, Tick};

const EXCEEDED: Result<(), Refusal> = Err(Refusal::DeadlineExceeded);

const CLOSED: Result<(), Refusal> = Err(Refusal::Closed);

const PARK: deadline_core::Look = deadline_core::Look::Park;

const GO: deadline_core::Look = deadline_core::Look::Go;

const ROWS: &[(&str, &[Step])] = &[
    (
        "each direction expires by its own deadline, at its moment, until it is set anew",
        &[
            Set(Dirs::Read, At(200), 100, Ok(())),
            Tick(199),
            Prepare(Read, Ok(())),
            Tick(200),
            Prepare(Read, EXCEEDED),
            Prepare(Write, Ok(())),
            Tick(0),
            Prepare(Read, EXCEEDED),
            Set(Dirs::Both, At(300), 300, Ok(())),
            Prepare(Write, EXCEEDED),
            Set(Dirs::Read, Never, 300, Ok(())),
            Prepare(Read, Ok(())),
            Prepare(Write, EXCEEDED),
        ],
    ),
    (
        "a notice is used up by a look, and forgotten by a prepare",
        &[
            Ready(Read),
            Ready(Read),
            Look(Write, PARK),
            Look(Read, GO),
            Look(Read, PARK),
            Ready(Read),
            Prepare(Read, Ok(())),
            Look(Read, PARK),
        ],
    ),
    (
        "a refusal keeps the notice and comes before it, and closing comes before expiry",
        &[
            Set(Dirs::Read, At(1), 1, Ok(())),
            Ready(Read),
            Prepare(Read, EXCEEDED),
            Look(
                Read,
                deadline_core::Look::Refused(Refusal::DeadlineExceeded),
            ),
            Set(Dirs::Read, Never, 1, Ok(())),
            Look(Read, GO),
            Set(Dirs::Read, At(1), 1, Ok(())),
            Ready(Read),
            Evict,
            Prepare(Read, CLOSED),
            Look(Read, deadline_core::Look::Refused(Refusal::Closed)),
            Set(Dirs::Both, Never, 2, CLOSED),
            Prepare(Write, CLOSED),
        ],
    ),
];

/// Makes a step, and says whether its answer is the one that it must get.
fn answers(state: &mut PollState, step: &Step) -> bool {
    match step {
        Set(dirs, deadline, now, want) => return state.set(*dirs, *deadline, *now) == *want,
        Tick(now) => state.tick(*now),
        Ready(dir) => state.ready(*dir),
        Evict => state.evict(),
        Prepare(dir, want) => return state.prepare(*dir) == *want,
        Look(dir, want) => return state.look(*dir) == *want,
    }
    true
}

/// The first step whose answer is another, if one's is.
fn other_step(steps: &[Step]) -> Option<usize> {
    let mut state = PollState::new();
    for (at, step) in steps.iter().enumerate() {
        if !answers(&mut state, step) {
            return Some(at);
        }
    }
    None
}

#[test]
fn a_poll_state_answers_as_its_rows_say(rt: HostRuntime) {
    for (row, steps) in ROWS {
        let other = other_step(steps);
        assert!(rt; other.is_none(), "{row}: step {other:?}");
    }
}
