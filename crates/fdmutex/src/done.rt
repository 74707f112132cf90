//! The wait until the resource is destroyed. `mark_done` wakes one waiter, and each wakes the next.

ghost use Rattle.std.specs.Prelude.{◌≡◌, true};
ghost use Rattle.lockword.specs.Marks.{saw_closed, saw_draining, saw_done, word_of, SameDeeds};
ghost use Rattle.lockword.specs.Marks.{SameHeard};
ghost use Rattle.lockword.specs.Places.{seat_place};
ghost use Rattle.lockword.specs.TransitionOutcomes.{IsSeatOf};

use lockword::{LockWord, Seat};
use std::sync::Wait;

/// Waits until the resource is destroyed, and wakes the next one that waits for it.
pub fn wait_done<R: Drop, W: Drop, T: Wait>(
    rt: &T,
    word: &LockWord<R, W>,
    seat: Seat<R, W>,
) -> Seat<R, W>
    requires seat { IsSeatOf word.now (seat_place seat) }
    ensures same_word { word_of (seat_place result) ≡ word_of (seat_place seat) }
    ensures same_closed { saw_closed (seat_place result) ≡ saw_closed (seat_place seat) }
    ensures same_draining { saw_draining (seat_place result) ≡ saw_draining (seat_place seat) }
    ensures done { saw_done (seat_place result) ≡ true }
    ensures same_deeds { SameDeeds (seat_place seat) (seat_place result) }
    ensures same_heard { SameHeard (seat_place seat) (seat_place result) }
{
    let mut seat = seat;
    for _ in rt.forever() {
        if word.is_done(&mut seat) {
            word.wake_until_done();
            return seat;
        }
        word.park_until_done(rt);
    }
    unreachable!()
}
