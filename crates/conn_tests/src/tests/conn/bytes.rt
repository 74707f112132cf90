//! Bytes, and the end after them.

use super::playing::plays;
use super::scene::{Call, Part, Scene, Step};
use super::world::addrs;
use fd_descriptor::Fault;

const MEBIBYTE: u64 = 1 << 20;

const SCENES: &[Scene] = &[
    // One end sends and closes; the other reads all of it, then the end, and closes.
    Scene {
        name: "what is written before a close is read whole, and then the end",
        is_whole: true,
        near: &[Part(1, &[Step::Write(MEBIBYTE), Step::Do(Call::Close)])],
        far: &[Part(
            1,
            &[
                Step::Read(MEBIBYTE),
                Step::Refused(Call::Read, Fault::EndOfFile),
                Step::Do(Call::Close),
            ],
        )],
    },
    // Eight bytes go to and fro, each time those that come next in the stream.
    Scene {
        name: "two ends answer each other in turn",
        is_whole: true,
        near: &[Part(
            1,
            &[
                Step::Write(8),
                Step::Read(8),
                Step::Repeat(500),
                Step::Do(Call::Close),
            ],
        )],
        far: &[Part(
            1,
            &[
                Step::Read(8),
                Step::Write(8),
                Step::Repeat(500),
                Step::Refused(Call::Read, Fault::EndOfFile),
                Step::Do(Call::Close),
            ],
        )],
    },
];

#[test]
fn bytes_pass_and_end(rt: HostRuntime) {
    plays(rt, rt.alloc(), addrs(&rt), SCENES);
}
