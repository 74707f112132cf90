//! Deadlines that have passed, that pass, and that are set while calls wait. A call that is late
//! has passed no byte, and the next one works once the deadline is lifted.

use super::playing::plays;
use super::scene::{Call, Part, Scene, Step, When};
use super::world::addrs;
use fd_descriptor::{Dirs, Fault};

const LATE: Fault = Fault::DeadlineExceeded;

const END: Fault = Fault::EndOfFile;

/// More milliseconds than any test takes.
const MUCH_LATER: u64 = 3_600_000;

const SCENES: &[Scene] = &[
    // An end whose reads are late writes, and reads once its deadline is lifted.
    Scene {
        name: "reads that are late leave writes alone",
        is_whole: true,
        near: &[Part(
            1,
            &[
                Step::Do(Call::Set(Dirs::Read, When::LongAgo)),
                Step::Refused(Call::Read, LATE),
                Step::Write(1_024),
                Step::Pause(20),
                Step::Refused(Call::Read, LATE),
                Step::Do(Call::Set(Dirs::Read, When::Never)),
                Step::Read(1_024),
                Step::Do(Call::Shut),
                Step::Refused(Call::Read, END),
            ],
        )],
        far: &[Part(
            1,
            &[
                Step::Read(1_024),
                Step::Write(1_024),
                Step::Refused(Call::Read, END),
                Step::Do(Call::Shut),
            ],
        )],
    },
    // An end whose writes are late reads, and writes once its deadline is lifted.
    Scene {
        name: "writes that are late leave reads alone",
        is_whole: true,
        near: &[Part(
            1,
            &[
                Step::Do(Call::Set(Dirs::Write, When::LongAgo)),
                Step::Refused(Call::Write, LATE),
                Step::Read(1_024),
                Step::Refused(Call::Write, LATE),
                Step::Do(Call::Set(Dirs::Write, When::Never)),
                Step::Write(1_024),
                Step::Do(Call::Shut),
                Step::Refused(Call::Read, END),
            ],
        )],
        far: &[Part(
            1,
            &[
                Step::Write(1_024),
                Step::Read(1_024),
                Step::Refused(Call::Read, END),
                Step::Do(Call::Shut),
            ],
        )],
    },
    // A greeting goes round before and after a time when all calls are late at once.
    Scene {
        name: "a deadline of long ago refuses calls at once until it is lifted",
        is_whole: true,
        near: &[Part(
            1,
            &[
                Step::Write(13),
                Step::Read(13),
                Step::Do(Call::Set(Dirs::Both, When::LongAgo)),
                Step::Refused(Call::Write, LATE),
                Step::Refused(Call::Read, LATE),
                Step::Do(Call::Set(Dirs::Both, When::Never)),
                Step::Write(13),
                Step::Read(13),
                Step::Do(Call::Shut),
                Step::Refused(Call::Read, END),
            ],
        )],
        far: &[Part(
            1,
            &[
                Step::Read(13),
                Step::Write(13),
                Step::Repeat(2),
                Step::Refused(Call::Read, END),
                Step::Do(Call::Shut),
            ],
        )],
    },
    // A read and writes wait, or soon do, when their deadline is set to a moment long ago.
    Scene {
        name: "a deadline of long ago ends calls that wait",
        is_whole: true,
        near: &[
            Part(
                1,
                &[Step::Mark, Step::Refused(Call::Read, LATE), Step::Mark],
            ),
            Part(1, &[Step::Mark, Step::WriteUntil(LATE), Step::Mark]),
            Part(
                1,
                &[
                    Step::Await(5),
                    Step::Write(1_024),
                    Step::Do(Call::Shut),
                    Step::Read(1_024),
                    Step::Refused(Call::Read, END),
                ],
            ),
            Part(
                1,
                &[
                    Step::Await(2),
                    Step::Pause(100),
                    Step::Do(Call::Set(Dirs::Both, When::LongAgo)),
                    Step::Await(4),
                    Step::Do(Call::Set(Dirs::Both, When::Never)),
                    Step::Mark,
                ],
            ),
        ],
        far: &[Part(
            1,
            &[
                Step::Await(5),
                Step::ReadUntil(END),
                Step::Write(1_024),
                Step::Do(Call::Shut),
            ],
        )],
    },
    // A deadline in a tenth of a second ends a read and writes, and stays until it is lifted.
    Scene {
        name: "a deadline to come ends calls at its moment and no earlier",
        is_whole: true,
        near: &[
            Part(
                1,
                &[Step::Await(1), Step::Refused(Call::Read, LATE), Step::Mark],
            ),
            Part(1, &[Step::Await(1), Step::WriteUntil(LATE), Step::Mark]),
            Part(
                1,
                &[
                    Step::Do(Call::Set(Dirs::Both, When::In(100))),
                    Step::Mark,
                    Step::Await(3),
                    Step::Refused(Call::Write, LATE),
                    Step::Refused(Call::Read, LATE),
                    Step::Do(Call::Set(Dirs::Both, When::Never)),
                    Step::Mark,
                    Step::Write(1_024),
                    Step::Do(Call::Shut),
                    Step::Read(1_024),
                    Step::Refused(Call::Read, END),
                ],
            ),
        ],
        far: &[Part(
            1,
            &[
                Step::Await(4),
                Step::ReadUntil(END),
                Step::Write(1_024),
                Step::Do(Call::Shut),
            ],
        )],
    },
    // While one direction has a deadline to come, that of the other is set to a much later one, and
    // lifted. A call that is late doesn't wait for either.
    Scene {
        name: "a deadline of one direction stands while the other's is set and lifted",
        is_whole: true,
        near: &[Part(
            1,
            &[
                Step::Do(Call::Set(Dirs::Read, When::In(50))),
                Step::Do(Call::Set(Dirs::Write, When::In(MUCH_LATER))),
                Step::Refused(Call::Read, LATE),
                Step::Do(Call::Set(Dirs::Read, When::In(50))),
                Step::Do(Call::Set(Dirs::Write, When::Never)),
                Step::Refused(Call::Read, LATE),
                Step::Do(Call::Set(Dirs::Write, When::In(50))),
                Step::Do(Call::Set(Dirs::Read, When::In(MUCH_LATER))),
                Step::WriteUntil(LATE),
                Step::Do(Call::Set(Dirs::Write, When::In(50))),
                Step::Do(Call::Set(Dirs::Read, When::Never)),
                Step::WriteUntil(LATE),
                Step::Mark,
                Step::Do(Call::Set(Dirs::Write, When::Never)),
                Step::Do(Call::Shut),
                Step::Read(1_024),
                Step::Refused(Call::Read, END),
            ],
        )],
        far: &[Part(
            1,
            &[
                Step::Await(1),
                Step::ReadUntil(END),
                Step::Write(1_024),
                Step::Do(Call::Shut),
            ],
        )],
    },
];

#[test]
fn late_calls_pass_nothing_and_work_once_their_deadline_is_lifted(rt: HostRuntime) {
    plays(rt, rt.alloc(), addrs(&rt), SCENES);
}
