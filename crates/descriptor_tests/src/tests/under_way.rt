//! Halves of a task: what its calls answer, that each keeps its half's lock until it has its answer
//! or is ended, and who is told of a close.

use super::playing::play_all;
use super::scene::{
    CLOSED, CLOSED_UNDER_READ, Call, Count, Event, FREE, NONE_READ, OK, READ, Scene, Step, Task,
};
use super::scripts::{ALWAYS_BLOCKS, TWO_AND_ONE};
use base_types::Dir;
use deadline_core::{Deadline, Dirs};
use fd_descriptor::{Progress, Word};
use rwloops::{Fault, WriteFault};

const BLOCKED: Task = Task::Read(None);

const TWO: Task = Task::Read(Some(Ok(2)));

const LATE: Fault = Fault::DeadlineExceeded;

const NO_BYTES_LATE: Progress = Progress::Failed(WriteFault {
    fault: LATE,
    count: 0,
});

/// One writes.
const WRITTEN: Word = Word {
    wlock: true,
    refs: 1,
    ..FREE
};

/// One reads, and another queues.
const ONE_QUEUES: Word = Word { rwait: 1, ..READ };

const SCENES: &[Scene] = &[
    Scene(
        "tries give what the half gives",
        TWO_AND_ONE,
        None,
        &[
            Step::Runs(Task::Begin(Dir::Read)),
            Step::Runs(BLOCKED),
            Step::Shows(READ),
            Step::Runs(TWO),
            Step::Shows(FREE),
            Step::Runs(Task::Begin(Dir::Write)),
            Step::Runs(Task::Write(b"abc", Progress::Part(0))),
            Step::Runs(Task::Write(b"abc", Progress::Part(2))),
            Step::Shows(WRITTEN),
        ],
    ),
    Scene(
        "a call under way keeps its lock until it ends",
        ALWAYS_BLOCKS,
        None,
        &[
            Step::Runs(Task::Begin(Dir::Read)),
            Step::Runs(BLOCKED),
            Step::Shows(READ),
            Step::Start(Call::Read),
            Step::Becomes(ONE_QUEUES),
            Step::Has(Event::Pause(20)),
            Step::Counts(Count::Tries, 1),
            Step::Shows(ONE_QUEUES),
            Step::Runs(Task::End),
            Step::Comes(Count::Tries, 2),
            Step::By(0, Call::Close, OK),
            Step::End(0, NONE_READ),
        ],
    ),
    Scene(
        "a task that is dropped in mid call leaves the lock free",
        ALWAYS_BLOCKS,
        None,
        &[
            Step::Runs(Task::Begin(Dir::Read)),
            Step::Runs(Task::Begin(Dir::Write)),
            Step::Runs(BLOCKED),
            Step::Runs(Task::Write(b"abc", Progress::Part(0))),
            Step::Runs(Task::Drop(Dir::Read)),
            Step::Runs(Task::Drop(Dir::Write)),
            Step::Shows(FREE),
            Step::By(0, Call::Close, OK),
            Step::Counts(Count::Destroys, 1),
        ],
    ),
    Scene(
        "a deadline and a drain by a handle that a half shares hold for the call under way",
        TWO_AND_ONE,
        None,
        &[
            Step::Runs(Task::Begin(Dir::Read)),
            Step::Runs(BLOCKED),
            Step::Runs(Task::Share),
            Step::Shows(READ),
            Step::By(1, Call::Set(Dirs::Both, Deadline::At(9), 5), OK),
            Step::By(1, Call::Drain, OK),
            Step::Runs(TWO),
            Step::Runs(Task::Read(Some(Err(Fault::Draining)))),
            Step::NoneBy(0, Fault::Draining),
        ],
    ),
    Scene(
        "a call under way is refused once its deadline has passed",
        ALWAYS_BLOCKS,
        None,
        &[
            Step::Runs(Task::Begin(Dir::Read)),
            Step::Runs(Task::Begin(Dir::Write)),
            Step::Runs(BLOCKED),
            Step::Runs(Task::Write(b"ab", Progress::Part(0))),
            Step::By(0, Call::Set(Dirs::Both, Deadline::At(9), 5), OK),
            Step::Runs(BLOCKED),
            Step::Has(Event::Clock(9)),
            Step::Counts(Count::Tries, 3),
            Step::Runs(Task::Read(Some(Err(LATE)))),
            Step::Runs(Task::Write(b"ab", NO_BYTES_LATE)),
            Step::Shows(FREE),
            Step::Counts(Count::Tries, 3),
        ],
    ),
    Scene(
        "a close tells and waits for the call under way",
        ALWAYS_BLOCKS,
        None,
        &[
            Step::Runs(Task::Begin(Dir::Read)),
            Step::Runs(BLOCKED),
            Step::Start(Call::Tell),
            Step::Comes(Count::Tellings, 1),
            Step::Becomes(CLOSED_UNDER_READ),
            Step::Counts(Count::Destroys, 0),
            Step::Counts(Count::Tries, 1),
            Step::Runs(Task::Read(Some(Err(Fault::Closed)))),
            Step::Counts(Count::Tries, 1),
            Step::Runs(Task::End),
            Step::End(0, OK),
            Step::Counts(Count::Destroys, 1),
            Step::Counts(Count::Tellings, 1),
            Step::By(0, Call::Tell, CLOSED),
            Step::Counts(Count::Tellings, 1),
        ],
    ),
];

#[test]
fn a_call_under_way_keeps_its_lock_and_tries_as_the_half_says(rt: HostRuntime) {
    play_all(rt, rt.alloc(), SCENES);
}
