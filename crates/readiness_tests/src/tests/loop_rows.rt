//! Worked rows of a loop: whom its turns resume, why, in which order and how often, and how long they
//! sleep. Which timers are due and who was named stands under locks, of which no clause tells.

use super::counting::Heard;
use super::counting::Heard::{Back, Due, Early, Ended, Late, Told};
use super::loop_stage::Step;
use super::loop_stage::Step::{
    Again, Arm, Await, EndAll, Lift, Nobody, Put, PutEnding, Rests, Sleeps, Take, Tell, Turn, Wake,
};
use super::{AHEAD, LATER};
use fd_descriptor::{Dir, Dirs};
use readiness::Side;

const NOTHING: &[Heard] = &[];

/// Each row: its name, and its steps.
pub(super) const ROWS: &[(&str, &[Step])] = &[
    (
        "a task that gives way comes once a turn, and nobody else",
        &[
            Put(2),
            Put(0),
            Again(0),
            Again(0),
            Turn(0, &[Back(0)]),
            Turn(0, &[Back(0)]),
            Turn(0, &[Back(0)]),
            Arm(1, Side::First, Dirs::Read, AHEAD),
            Sleeps(0, AHEAD, NOTHING),
        ],
    ),
    (
        "a due timer resumes its task alone, and not before its moment",
        &[
            Put(0),
            Put(0),
            Arm(0, Side::Second, Dirs::Read, 50),
            Arm(1, Side::First, Dirs::Write, 1_000),
            Again(1),
            Turn(49, &[Back(1)]),
            Again(1),
            Turn(50, &[Due(0, Side::Second, Dir::Read), Back(1)]),
            Again(1),
            Turn(1_000, &[Due(1, Side::First, Dir::Write), Back(1)]),
        ],
    ),
    (
        "a stale token resumes nobody",
        &[
            PutEnding,
            Tell(0),
            Turn(0, &[Told(0), Ended(0)]),
            Put(0),
            Tell(0),
            Again(0),
            Arm(0, Side::First, Dirs::Both, 0),
            Turn(0, NOTHING),
        ],
    ),
    (
        "more are told than the list holds, so that each task is looked at once",
        &[
            Put(0),
            Put(0),
            Nobody(300, None),
            Turn(0, &[Told(0), Told(1)]),
        ],
    ),
    (
        "behind a place that is free too",
        &[
            Put(0),
            Put(0),
            Put(0),
            Take(0),
            Nobody(300, None),
            Turn(0, &[Told(1), Told(2)]),
        ],
    ),
    (
        "also where one gave way before",
        &[
            Put(0),
            Put(0),
            Again(1),
            Nobody(300, None),
            Turn(0, &[Back(1), Told(0), Told(1)]),
        ],
    ),
    (
        "as many are told as the list holds, so that the others aren't looked at",
        &[
            Put(0),
            Put(0),
            Nobody(255, None),
            Tell(1),
            Turn(0, &[Told(1)]),
        ],
    ),
    (
        "a wake between two turns ends the next wait, and no other",
        &[
            Put(0),
            Wake,
            Turn(0, NOTHING),
            Arm(0, Side::First, Dirs::Read, AHEAD),
            Sleeps(0, AHEAD, NOTHING),
        ],
    ),
    (
        "a name between two turns ends the next wait, and no other",
        &[
            Put(0),
            Tell(0),
            Tell(0),
            Turn(0, &[Told(0)]),
            Arm(0, Side::First, Dirs::Read, AHEAD),
            Sleeps(0, AHEAD, NOTHING),
        ],
    ),
    (
        "all timers of one moment are told, and a key of no task is passed over",
        &[
            Put(0),
            Put(0),
            Arm(9, Side::First, Dirs::Read, 50),
            Arm(0, Side::Second, Dirs::Write, 50),
            Arm(1, Side::First, Dirs::Read, 50),
            Again(0),
            Turn(
                50,
                &[
                    Due(0, Side::Second, Dir::Write),
                    Due(1, Side::First, Dir::Read),
                    Back(0),
                ],
            ),
        ],
    ),
    (
        "more are due than a turn takes, so that the next turn takes the others at once",
        &[
            Put(0),
            Nobody(256, Some(50)),
            Arm(0, Side::First, Dirs::Read, 51),
            Turn(60, NOTHING),
            Again(0),
            Turn(60, &[Due(0, Side::First, Dir::Read), Back(0)]),
        ],
    ),
    (
        "of two directions the one that is lifted leaves no timer, and the other does",
        &[
            Put(0),
            Arm(0, Side::First, Dirs::Both, 70),
            Lift(0, Side::First, Dirs::Write),
            Arm(0, Side::Second, Dirs::Both, 71),
            Lift(0, Side::Second, Dirs::Read),
            Again(0),
            Turn(
                71,
                &[
                    Due(0, Side::First, Dir::Read),
                    Due(0, Side::Second, Dir::Write),
                    Back(0),
                ],
            ),
        ],
    ),
    (
        "a turn sleeps until the next moment and no longer, by the clock that it is shown",
        &[
            Put(0),
            Arm(0, Side::First, Dirs::Read, LATER + AHEAD),
            Arm(0, Side::Second, Dirs::Read, LATER + 50 * AHEAD),
            Sleeps(LATER, LATER + AHEAD, NOTHING),
            Sleeps(LATER + AHEAD / 2, LATER + AHEAD, NOTHING),
        ],
    ),
    (
        "a turn that told what was due sleeps until the moment after it",
        &[
            Put(0),
            Arm(0, Side::First, Dirs::Read, LATER),
            Arm(0, Side::Second, Dirs::Read, LATER + AHEAD),
            Sleeps(LATER, LATER + AHEAD, &[Due(0, Side::First, Dir::Read)]),
        ],
    ),
    (
        "a turn tells who awaits what has come, what is due, who was named and who gave way",
        &[
            Put(0),
            Put(0),
            Put(0),
            Await(2, Some(10)),
            Await(0, Some(20)),
            Arm(1, Side::First, Dirs::Read, 5),
            Tell(0),
            Again(1),
            Turn(
                20,
                &[
                    Late(0),
                    Late(2),
                    Due(1, Side::First, Dir::Read),
                    Told(0),
                    Back(1),
                ],
            ),
        ],
    ),
    (
        "a task that gives way when its timer is due comes at once",
        &[
            Put(1),
            Arm(0, Side::First, Dirs::Read, 50),
            Turn(50, &[Due(0, Side::First, Dir::Read)]),
            Turn(50, &[Back(0)]),
        ],
    ),
    (
        "a moment that moves on keeps its alarm, which comes early, and is kept then",
        &[
            Put(0),
            Await(0, Some(50)),
            Await(0, Some(80)),
            Again(0),
            Turn(50, &[Early(0), Back(0)]),
            Again(0),
            Turn(79, &[Back(0)]),
            Again(0),
            Turn(80, &[Late(0), Back(0)]),
        ],
    ),
    (
        "a turn sleeps until the first of moments and timers",
        &[
            Put(0),
            Await(0, Some(LATER + AHEAD)),
            Arm(0, Side::First, Dirs::Read, LATER + 50 * AHEAD),
            Sleeps(LATER, LATER + AHEAD, NOTHING),
            Again(0),
            Turn(LATER + AHEAD, &[Late(0), Back(0)]),
            Await(0, Some(LATER + 99 * AHEAD)),
            Arm(0, Side::First, Dirs::Read, LATER + 2 * AHEAD),
            Sleeps(LATER + AHEAD, LATER + 2 * AHEAD, NOTHING),
        ],
    ),
    (
        "a loop whose tasks wait rests",
        &[
            Put(1),
            Again(0),
            Turn(0, &[Back(0)]),
            Turn(0, &[Back(0)]),
            Rests,
        ],
    ),
    (
        "all tasks are handed over at the end, those that gave way or were named too",
        &[
            Put(9),
            Put(0),
            Put(0),
            Again(0),
            Turn(0, &[Back(0)]),
            Take(1),
            Tell(2),
            EndAll(&[Ended(0), Ended(2)]),
            Turn(0, NOTHING),
        ],
    ),
];
