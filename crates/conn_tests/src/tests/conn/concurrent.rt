//! All calls at once.

use super::playing::plays;
use super::scene::{Call, Part, Scene, Step, When};
use super::world::addrs;
use fd_descriptor::{Dirs, Fault};

const CALLERS: u64 = 8;

/// Eight read, write and set deadlines to come and of long ago, while the other end reads and
/// writes. Once they have ended, nothing of what passed is lost.
const SCENES: &[Scene] = &[Scene {
    name: "calls of every kind at once succeed or are late, and lose nothing",
    is_whole: true,
    near: &[
        Part(
            CALLERS,
            &[
                Step::Do(Call::Set(Dirs::Both, When::In(10))),
                Step::Try(Call::Read),
                Step::Try(Call::Write),
                Step::Do(Call::Set(Dirs::Read, When::LongAgo)),
                Step::Do(Call::Set(Dirs::Write, When::LongAgo)),
                Step::Repeat(40),
                Step::Mark,
            ],
        ),
        Part(
            1,
            &[
                Step::Await(CALLERS),
                Step::Do(Call::Set(Dirs::Both, When::Never)),
                Step::Do(Call::Shut),
                Step::ReadUntil(Fault::EndOfFile),
            ],
        ),
    ],
    far: &[
        Part(1, &[Step::ReadUntil(Fault::EndOfFile)]),
        Part(
            1,
            &[
                Step::Write(100_000),
                Step::Await(CALLERS),
                Step::Do(Call::Shut),
            ],
        ),
    ],
}];

#[test]
fn calls_of_every_kind_go_on_at_once(rt: HostRuntime) {
    plays(rt, rt.alloc(), addrs(&rt), SCENES);
}
