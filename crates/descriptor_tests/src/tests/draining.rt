//! Drains: who has a half goes on, who queues for one is woken and refused, nobody comes in any
//! more, and a close still works.

use super::playing::play_all;
use super::scene::{
    ABC, Answer, CLOSED, Call, Count, Event, FREE, NONE_READ, NONE_WRITTEN, OK, Scene, Step,
};
use super::scripts::{ALWAYS_BLOCKS, THEN_THREE};
use base_types::Dir;
use fd_descriptor::Word;
use rwloops::Fault;

/// What a read is told that was let in no more.
const NO_READ: Answer = Answer::Took(Err(Fault::Draining));

/// What a write is told that was let in no more.
const NO_WRITE: Answer = Answer::Cut(Fault::Draining, 0);

const DRAINED: Word = Word {
    drain: true,
    ..FREE
};

const DRAINED_AND_CLOSED: Word = Word {
    closed: true,
    ..DRAINED
};

/// One reads and one writes, of a drained descriptor.
const BOTH_GO_ON: Word = Word {
    rlock: true,
    wlock: true,
    refs: 2,
    ..DRAINED
};

/// One reads and one writes, and two queue for each lock.
const TWO_QUEUE: Word = Word {
    rwait: 2,
    wwait: 2,
    drain: false,
    ..BOTH_GO_ON
};

const SCENES: &[Scene] = &[
    Scene(
        "a parked read of a drained descriptor answers the bytes that come",
        THEN_THREE,
        None,
        &[
            Step::Start(Call::Read),
            Step::Comes(Count::Tries, 1),
            Step::By(0, Call::Drain, OK),
            Step::Has(Event::Pause(20)),
            Step::Counts(Count::Tries, 1),
            Step::Has(Event::Ready(Dir::Read)),
            Step::End(0, Answer::Took(Ok(3))),
            Step::By(0, Call::Read, NO_READ),
        ],
    ),
    Scene(
        "a parked write of a drained descriptor goes on",
        THEN_THREE,
        None,
        &[
            Step::Start(ABC),
            Step::Comes(Count::Tries, 1),
            Step::By(0, Call::Drain, OK),
            Step::Has(Event::Ready(Dir::Write)),
            Step::End(0, Answer::Wrote(3)),
            Step::By(0, ABC, NO_WRITE),
        ],
    ),
    Scene(
        "a drain wakes who queues for a lock",
        ALWAYS_BLOCKS,
        None,
        &[
            Step::Start(Call::Read),
            Step::Start(ABC),
            Step::Comes(Count::Tries, 2),
            Step::Start(Call::Read),
            Step::Start(Call::Read),
            Step::Start(ABC),
            Step::Start(ABC),
            Step::Becomes(TWO_QUEUE),
            Step::By(0, Call::Drain, OK),
            Step::End(2, NO_READ),
            Step::End(2, NO_READ),
            Step::End(2, NO_WRITE),
            Step::End(2, NO_WRITE),
            Step::Shows(BOTH_GO_ON),
            Step::By(0, Call::Close, OK),
            Step::End(0, NONE_READ),
            Step::End(0, NONE_WRITTEN),
            Step::Counts(Count::Destroys, 1),
        ],
    ),
    Scene(
        "a drained descriptor is shared and closed and takes nothing on",
        THEN_THREE,
        None,
        &[
            Step::Share,
            Step::Shows(FREE),
            Step::By(0, Call::Drain, OK),
            Step::Share,
            Step::Shows(DRAINED),
            Step::NoneBy(0, Fault::Draining),
            Step::NoneBy(1, Fault::Draining),
            Step::NoneBy(2, Fault::Draining),
            Step::Counts(Count::Tries, 0),
            Step::Counts(Count::Destroys, 0),
            Step::By(1, Call::Close, OK),
            Step::Shows(DRAINED_AND_CLOSED),
            Step::By(2, Call::Close, CLOSED),
            Step::NoneBy(0, Fault::Closed),
            Step::NoneBy(1, Fault::Closed),
            Step::NoneBy(2, Fault::Closed),
            Step::Counts(Count::Destroys, 1),
        ],
    ),
];

#[test]
fn a_drain_leaves_alone_who_is_in_and_lets_nobody_in(rt: HostRuntime) {
    play_all(rt, rt.alloc(), SCENES);
}
