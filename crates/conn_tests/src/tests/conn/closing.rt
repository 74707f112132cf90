//! A close of one end, while calls wait there and while bytes pass.

use super::playing::plays;
use super::scene::{Call, Part, Scene, Step, When};
use super::world::addrs;
use fd_descriptor::{Dirs, Fault};

const CLOSED: Fault = Fault::Closed;

/// One reads, and one writes, until they are told of the close. One closes once the two others have
/// begun; from then on each call is refused.
const CLOSED_ON: &[Part] = &[
    Part(1, &[Step::Mark, Step::ReadUntil(CLOSED)]),
    Part(1, &[Step::Mark, Step::WriteUntil(CLOSED)]),
    Part(
        1,
        &[
            Step::Do(Call::Set(Dirs::Both, When::Never)),
            Step::Await(2),
            Step::Pause(100),
            Step::Do(Call::Close),
            Step::Refused(Call::Read, CLOSED),
            Step::Refused(Call::Write, CLOSED),
            Step::Refused(Call::Set(Dirs::Both, When::Never), CLOSED),
            Step::Refused(Call::Shut, CLOSED),
            Step::Refused(Call::Close, CLOSED),
            Step::Mark,
        ],
    ),
];

const SCENES: &[Scene] = &[
    // A read and writes wait, or soon do, when their end is closed; the other end reads what was
    // sent.
    Scene {
        name: "a close ends calls that wait and refuses all others",
        is_whole: true,
        near: CLOSED_ON,
        far: &[Part(1, &[Step::Await(3), Step::ReadUntil(Fault::EndOfFile)])],
    },
    // Bytes pass each way when one end is closed. Some of them are lost then.
    Scene {
        name: "a close ends both ends while bytes pass",
        is_whole: false,
        near: CLOSED_ON,
        far: &[
            Part(1, &[Step::UntilCut(Call::Read)]),
            Part(1, &[Step::UntilCut(Call::Write)]),
        ],
    },
];

#[test]
fn a_close_ends_all_calls(rt: HostRuntime) {
    plays(rt, rt.alloc(), addrs(&rt), SCENES);
}
