//! Calls through a descriptor to its socket: they wait for no read and no write, are answered by what
//! was made of the read half, and keep the halves until they end.

use super::playing::play_all;
use super::scene::{
    ABC, Answer, Call, Count, Event, FREE, NONE_READ, NONE_WRITTEN, OK, READ, Scene, Step,
};
use super::scripts::{ALWAYS_BLOCKS, GATED};
use fd_descriptor::Word;
use rwloops::{DevKind, Fault};

const RESET: Answer = Answer::Done(Err(Fault::Device(DevKind::Reset)));

/// What is asked where the destruction has no fault, and where it has this one.
const ASKED: Answer = Answer::Asked(Ok(None));

const ASKED_RESET: Answer = Answer::Asked(Ok(Some(DevKind::Reset)));

const NONE_ASKED: Answer = Answer::Asked(Err(Fault::Closed));

/// One asks.
const ASKS: Word = Word { refs: 1, ..FREE };

/// One asks while another reads and a third writes.
const ALL_THREE: Word = Word {
    wlock: true,
    refs: 3,
    ..READ
};

/// One asks, and the closer waits for its end.
const CLOSED_UNDER_ASK: Word = Word {
    closed: true,
    ..ASKS
};

const SCENES: &[Scene] = &[
    Scene(
        "a control is answered while a read and a write wait",
        ALWAYS_BLOCKS,
        None,
        &[
            Step::Start(Call::Read),
            Step::Start(ABC),
            Step::Comes(Count::Tries, 2),
            Step::By(0, Call::Ask, ASKED),
            Step::Start(Call::AskGated),
            Step::Becomes(ALL_THREE),
            Step::By(0, Call::Ask, ASKED),
            Step::Has(Event::Gate),
            Step::End(2, ASKED),
            Step::Counts(Count::Tries, 2),
            Step::By(0, Call::Close, OK),
            Step::End(0, NONE_READ),
            Step::End(0, NONE_WRITTEN),
        ],
    ),
    Scene(
        "a control has what was made of the read half and none after a close",
        ALWAYS_BLOCKS,
        Some(DevKind::Reset),
        &[
            Step::Share,
            Step::By(0, Call::Ask, ASKED_RESET),
            Step::By(1, Call::Ask, ASKED_RESET),
            Step::Shows(FREE),
            Step::Counts(Count::Tries, 0),
            Step::By(0, Call::Close, RESET),
            Step::By(1, Call::Ask, NONE_ASKED),
            Step::By(0, Call::Ask, NONE_ASKED),
            Step::Counts(Count::Destroys, 1),
        ],
    ),
    Scene(
        "a close waits for a control under way which then destroys",
        ALWAYS_BLOCKS,
        Some(DevKind::Reset),
        &[
            Step::Start(Call::AskGated),
            Step::Becomes(ASKS),
            Step::Start(Call::Close),
            Step::Becomes(CLOSED_UNDER_ASK),
            Step::By(0, Call::Ask, NONE_ASKED),
            Step::Has(Event::Pause(20)),
            Step::Counts(Count::Destroys, 0),
            Step::Counts(Count::Answers, 0),
            Step::Has(Event::Gate),
            Step::End(1, OK),
            Step::End(0, ASKED_RESET),
            Step::Counts(Count::Destroys, 1),
        ],
    ),
    Scene(
        "a control under way when a drain comes ends as ever",
        GATED,
        None,
        &[
            Step::Start(Call::AskGated),
            Step::Becomes(ASKS),
            Step::By(0, Call::Drain, OK),
            Step::By(0, Call::Ask, Answer::Asked(Err(Fault::Draining))),
            Step::Has(Event::Gate),
            Step::End(0, ASKED),
            Step::Counts(Count::Destroys, 0),
        ],
    ),
];

#[test]
fn a_control_is_answered_under_a_reference_until_a_close(rt: HostRuntime) {
    play_all(rt, rt.alloc(), SCENES);
}
