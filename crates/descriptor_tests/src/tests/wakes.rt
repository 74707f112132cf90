//! Who waits is woken by a notice alone, with no tick and no close beside it, and tries no more
//! once a close has woken it.

use super::playing::play_all;
use super::scene::{ABC, Answer, Call, Count, Event, NONE_READ, OK, Scene, Step};
use super::scripts::{ALWAYS_BLOCKS, AT_LAST_THREE};
use base_types::Dir;

const SCENES: &[Scene] = &[
    Scene(
        "a notice alone wakes a parked read",
        AT_LAST_THREE,
        None,
        &[
            Step::Start(Call::Read),
            Step::ReadyAfterEach(Dir::Read, 20),
            Step::End(0, Answer::Took(Ok(3))),
        ],
    ),
    Scene(
        "a notice alone wakes a parked write",
        AT_LAST_THREE,
        None,
        &[
            Step::Start(ABC),
            Step::ReadyAfterEach(Dir::Write, 20),
            Step::End(0, Answer::Wrote(3)),
        ],
    ),
    Scene(
        "a read that a close wakes tries no more",
        ALWAYS_BLOCKS,
        None,
        &[
            Step::Start(Call::Read),
            Step::Comes(Count::Tries, 1),
            Step::Has(Event::Pause(1)),
            Step::By(0, Call::Close, OK),
            Step::End(0, NONE_READ),
            Step::Counts(Count::Tries, 1),
        ],
    ),
];

#[test]
fn who_is_parked_is_woken_by_a_notice_alone_and_a_close_ends_it(rt: HostRuntime) {
    play_all(rt, rt.alloc(), SCENES);
}
