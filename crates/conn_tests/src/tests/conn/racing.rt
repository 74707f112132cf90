//! Many callers in one direction, each of whom sets the deadline anew. What a call that is late had
//! passed before isn't lost, and nothing passes twice.

use super::playing::plays;
use super::scene::{Call, Part, Scene, Step, When};
use super::world::addrs;
use fd_descriptor::{Dirs, Fault};

const RACERS: u64 = 10;

const ROUNDS: u64 = 40;

/// The bytes that come at once.
const PIECE: u64 = 4_096;

/// How many milliseconds a connection has until it has to be full.
const FILLING: u64 = 500;

const LATE: Fault = Fault::DeadlineExceeded;

const SCENES: &[Scene] = &[
    // Ten read under deadlines of a millisecond, while a piece comes each millisecond or two: so
    // many a piece comes just as a deadline passes.
    Scene {
        name: "reads that time out again and again lose no byte",
        is_whole: true,
        near: &[
            Part(
                RACERS,
                &[
                    Step::Do(Call::Set(Dirs::Read, When::In(1))),
                    Step::Try(Call::Read),
                    Step::Repeat(ROUNDS),
                    Step::Mark,
                ],
            ),
            Part(
                1,
                &[
                    Step::Await(RACERS),
                    Step::Do(Call::Set(Dirs::Read, When::Never)),
                    Step::ReadUntil(Fault::EndOfFile),
                    Step::Do(Call::Shut),
                ],
            ),
        ],
        far: &[Part(
            1,
            &[
                Step::Write(PIECE),
                Step::Pause(1),
                Step::Repeat(256),
                Step::Await(RACERS),
                Step::Do(Call::Shut),
                Step::Refused(Call::Read, Fault::EndOfFile),
            ],
        )],
    },
    // Ten write under deadlines of a millisecond, from when the connection takes no more until the
    // other end has read all. It takes a part of the last write, which is counted.
    Scene {
        name: "writes that time out again and again send what they say",
        is_whole: true,
        near: &[
            Part(
                1,
                &[
                    Step::Do(Call::Set(Dirs::Write, When::In(FILLING))),
                    Step::WriteUntil(LATE),
                    Step::Mark,
                    Step::Await(RACERS + 1),
                    Step::Do(Call::Set(Dirs::Write, When::Never)),
                    Step::Do(Call::Shut),
                    Step::Refused(Call::Read, Fault::EndOfFile),
                ],
            ),
            Part(
                RACERS,
                &[
                    Step::Await(1),
                    Step::Do(Call::Set(Dirs::Write, When::In(1))),
                    Step::Try(Call::Write),
                    Step::Repeat(ROUNDS),
                    Step::Mark,
                ],
            ),
        ],
        far: &[Part(
            1,
            &[
                Step::Await(1),
                Step::Pause(20),
                Step::ReadUntil(Fault::EndOfFile),
                Step::Do(Call::Shut),
            ],
        )],
    },
];

#[test]
fn callers_race_in_one_direction(rt: HostRuntime) {
    plays(rt, rt.alloc(), addrs(&rt), SCENES);
}
