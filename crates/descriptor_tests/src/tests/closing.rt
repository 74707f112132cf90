//! Closes: they end calls that wait, destroy once, answer once the halves are destroyed and no
//! sooner, and tell the device's fault to the right caller.

use super::playing::play_all;
use super::scene::{
    ABC, Answer, CLOSED, CLOSED_UNDER_READ, Call, Count, Event, NONE_READ, NONE_WRITTEN, OK, Scene,
    Step,
};
use super::scripts::{ALWAYS_BLOCKS, CONNECTS, GATED};
use base_types::Dir;
use rwloops::{DevKind, Fault};

const BROKEN_PIPE: Answer = Answer::Done(Err(Fault::Device(DevKind::BrokenPipe)));

const RESET: Answer = Answer::Done(Err(Fault::Device(DevKind::Reset)));

const SCENES: &[Scene] = &[
    Scene(
        "halves are destroyed once",
        ALWAYS_BLOCKS,
        None,
        &[
            Step::Start(Call::Read),
            Step::Start(ABC),
            Step::Comes(Count::Tries, 2),
            Step::By(0, Call::Close, OK),
            Step::End(0, NONE_READ),
            Step::End(0, NONE_WRITTEN),
            Step::Counts(Count::Destroys, 1),
            Step::By(0, Call::Close, CLOSED),
            Step::By(0, Call::Shut, CLOSED),
            Step::By(0, Call::Accept, NONE_READ),
            Step::Leave,
            Step::Counts(Count::Destroys, 1),
        ],
    ),
    Scene(
        "a closer whose reader destroys is told nothing",
        GATED,
        Some(DevKind::Reset),
        &[
            Step::Start(Call::Read),
            Step::Comes(Count::Tries, 1),
            Step::Start(Call::Close),
            Step::Becomes(CLOSED_UNDER_READ),
            Step::Counts(Count::Destroys, 0),
            Step::Has(Event::Gate),
            Step::End(1, OK),
            Step::End(0, NONE_READ),
            Step::Counts(Count::Destroys, 1),
            Step::By(0, Call::Close, CLOSED),
        ],
    ),
    Scene(
        "a closer that destroys is told the fault",
        ALWAYS_BLOCKS,
        Some(DevKind::Reset),
        &[
            Step::By(0, Call::Shut, BROKEN_PIPE),
            Step::Counts(Count::Tries, 1),
            Step::By(0, Call::Close, RESET),
            Step::By(0, Call::Close, CLOSED),
            Step::Counts(Count::Destroys, 1),
        ],
    ),
    Scene(
        "handles that go close nothing",
        ALWAYS_BLOCKS,
        None,
        &[
            Step::Share,
            Step::Leave,
            Step::By(0, Call::Write(b""), Answer::Wrote(0)),
            Step::Leave,
            Step::Counts(Count::Destroys, 0),
        ],
    ),
    Scene(
        "a shut waits until its connection is made",
        CONNECTS,
        None,
        &[
            Step::Start(Call::Shut),
            Step::Comes(Count::Tries, 1),
            Step::Has(Event::Pause(20)),
            Step::Counts(Count::Tries, 1),
            Step::Has(Event::Ready(Dir::Write)),
            Step::End(0, BROKEN_PIPE),
            Step::Counts(Count::Tries, 2),
        ],
    ),
    Scene(
        "a close answers after a destroy that is held",
        GATED,
        None,
        &[
            Step::Has(Event::Hold),
            Step::Start(Call::Read),
            Step::Comes(Count::Tries, 1),
            Step::Start(Call::Close),
            Step::Becomes(CLOSED_UNDER_READ),
            Step::Has(Event::Gate),
            Step::Comes(Count::Destroys, 1),
            Step::Has(Event::Pause(20)),
            Step::Counts(Count::Answers, 0),
            Step::Has(Event::LetGo),
            Step::End(1, OK),
            Step::End(0, NONE_READ),
        ],
    ),
];

#[test]
fn a_close_ends_who_waits_and_destroys_once(rt: HostRuntime) {
    play_all(rt, rt.alloc(), SCENES);
}
