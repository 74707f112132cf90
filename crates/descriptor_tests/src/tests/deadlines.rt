//! Deadlines set by one thread for calls of another, and the alarms that go with them.

use super::KEY;
use super::playing::play_all;
use super::scene::{ABC, Answer, CLOSED, Call, Count, Event, OK, Scene, Step};
use super::scripts::{ALWAYS_BLOCKS, THEN_THREE, TWO_AND_LATE};
use base_types::Dir;
use deadline_core::{Deadline, Dirs};
use rwloops::Fault;

const AT_100: Deadline = Deadline::At(100);

const AT_200: Deadline = Deadline::At(200);

const READ_LATE: Answer = Answer::Took(Err(Fault::DeadlineExceeded));

const WROTE_LATE: Answer = Answer::Cut(Fault::DeadlineExceeded, 0);

/// A write of nothing asks whether writes are expired.
const NOTHING: Call = Call::Write(b"");

const NOT_LATE: Answer = Answer::Wrote(0);

const DRAINING: Answer = Answer::Done(Err(Fault::Draining));

const SCENES: &[Scene] = &[
    Scene(
        "a deadline ends a parked read",
        ALWAYS_BLOCKS,
        None,
        &[
            Step::Start(Call::Read),
            Step::Comes(Count::Tries, 1),
            Step::By(0, Call::Set(Dirs::Read, AT_100, 0), OK),
            Step::Has(Event::Clock(99)),
            Step::Has(Event::Clock(100)),
            Step::End(0, READ_LATE),
            Step::By(0, Call::Read, READ_LATE),
            Step::By(0, Call::Accept, READ_LATE),
            Step::Counts(Count::Tries, 1),
        ],
    ),
    Scene(
        "a deadline that has passed ends a parked read at once",
        ALWAYS_BLOCKS,
        None,
        &[
            Step::Start(Call::Read),
            Step::Comes(Count::Tries, 1),
            Step::By(0, Call::Set(Dirs::Both, AT_200, 99), OK),
            Step::By(0, Call::Set(Dirs::Both, AT_100, 100), OK),
            Step::End(0, READ_LATE),
            Step::Alarm(Some((KEY, Dirs::Both, None))),
        ],
    ),
    Scene(
        "a later deadline replaces the earlier",
        THEN_THREE,
        None,
        &[
            Step::Start(Call::Read),
            Step::Comes(Count::Tries, 1),
            Step::By(0, Call::Set(Dirs::Both, AT_100, 0), OK),
            Step::By(0, Call::Set(Dirs::Both, AT_200, 0), OK),
            Step::Has(Event::Clock(100)),
            Step::Has(Event::Ready(Dir::Read)),
            Step::End(0, Answer::Took(Ok(3))),
            Step::Start(Call::Read),
            Step::Comes(Count::Tries, 3),
            Step::Has(Event::Clock(200)),
            Step::End(0, READ_LATE),
        ],
    ),
    Scene(
        "a deadline that passes in mid try cuts off a write after what was taken",
        TWO_AND_LATE,
        None,
        &[
            Step::By(0, Call::Set(Dirs::Both, AT_100, 99), OK),
            Step::By(0, ABC, Answer::Cut(Fault::DeadlineExceeded, 2)),
            Step::Counts(Count::Tries, 2),
        ],
    ),
    Scene(
        "no deadline lifts the earlier",
        THEN_THREE,
        None,
        &[
            Step::Start(Call::Read),
            Step::Comes(Count::Tries, 1),
            Step::By(0, Call::Set(Dirs::Read, AT_100, 0), OK),
            Step::By(0, Call::Set(Dirs::Read, Deadline::Never, 0), OK),
            Step::Alarm(Some((KEY, Dirs::Read, None))),
            Step::Has(Event::Clock(100)),
            Step::Has(Event::Ready(Dir::Read)),
            Step::End(0, Answer::Took(Ok(3))),
        ],
    ),
    Scene(
        "each deadline is for its directions",
        ALWAYS_BLOCKS,
        None,
        &[
            Step::By(0, Call::Set(Dirs::Read, AT_100, 0), OK),
            Step::Alarm(Some((KEY, Dirs::Read, Some(100)))),
            Step::By(0, Call::Set(Dirs::Write, AT_200, 0), OK),
            Step::Alarm(Some((KEY, Dirs::Write, Some(200)))),
            Step::Has(Event::Clock(100)),
            Step::By(0, Call::Read, READ_LATE),
            Step::By(0, NOTHING, NOT_LATE),
            Step::Has(Event::Clock(200)),
            Step::By(0, NOTHING, WROTE_LATE),
            Step::By(0, Call::Set(Dirs::Both, Deadline::At(300), 200), OK),
            Step::By(0, NOTHING, NOT_LATE),
            Step::Alarm(Some((KEY, Dirs::Both, Some(300)))),
        ],
    ),
    Scene(
        "a closed descriptor arms nothing",
        ALWAYS_BLOCKS,
        None,
        &[
            Step::Share,
            Step::By(0, Call::Set(Dirs::Both, AT_100, 0), OK),
            Step::Alarm(Some((KEY, Dirs::Both, Some(100)))),
            Step::By(0, Call::Close, OK),
            Step::By(1, Call::Set(Dirs::Both, Deadline::At(50), 0), CLOSED),
            Step::By(1, Call::Set(Dirs::Both, Deadline::Never, 0), CLOSED),
            Step::Alarm(None),
        ],
    ),
    Scene(
        "a drained descriptor keeps its deadline and arms nothing",
        ALWAYS_BLOCKS,
        None,
        &[
            Step::By(0, Call::Set(Dirs::Both, AT_100, 0), OK),
            Step::Alarm(Some((KEY, Dirs::Both, Some(100)))),
            Step::Start(Call::Read),
            Step::Comes(Count::Tries, 1),
            Step::By(0, Call::Drain, OK),
            Step::By(0, Call::Set(Dirs::Both, Deadline::At(50), 0), DRAINING),
            Step::By(0, Call::Set(Dirs::Both, Deadline::Never, 0), DRAINING),
            Step::Alarm(None),
            Step::Has(Event::Clock(100)),
            Step::End(0, READ_LATE),
        ],
    ),
    Scene(
        "a refused alarm changes no deadline",
        ALWAYS_BLOCKS,
        None,
        &[
            Step::By(0, Call::Set(Dirs::Both, AT_100, 0), OK),
            Step::By(
                0,
                Call::SetInVain(Deadline::At(50)),
                Answer::Done(Err(Fault::OutOfMemory)),
            ),
            Step::Has(Event::Clock(99)),
            Step::By(0, NOTHING, NOT_LATE),
            Step::Has(Event::Clock(100)),
            Step::By(0, Call::Read, READ_LATE),
        ],
    ),
];

#[test]
fn a_deadline_ends_calls_of_others_and_its_alarm_goes_with_it(rt: HostRuntime) {
    play_all(rt, rt.alloc(), SCENES);
}
