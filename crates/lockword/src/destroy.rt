//! The end of a word: the halves, which come out once, and the done word.

ghost use Rattle.std.specs.Prelude.{◌≡◌, true};
ghost use Rattle.lockword_core.specs.declared.stake.Op.TheVariants as op;
ghost use Rattle.lockword_core.specs.declared.stake.Answer.TheVariants as answer;
ghost use Rattle.lockword.specs.Marks.{saw_closed, saw_draining, saw_done};
ghost use Rattle.lockword.specs.Marks.{SameMarks, Did, SameDeeds, SameHeard};
ghost use Rattle.lockword.specs.Places.{seat_place, last_place};
ghost use Rattle.lockword.specs.TransitionOutcomes.{IsSeatOf, HasTaken, HasNotTaken};

use crate::holders::{Last, LockWord, Seat};
use crate::shared_rule::{DONE, Half, READ_HALF, WRITE_HALF};
use crate::transitions::{Ask, Empty, Mark};
use std::sync::Wait;

impl<R: Drop, W: Drop> LockWord<R, W> {
    /// Whether the resource was destroyed, by one load of the done word.
    pub fn is_done(&self, seat: &mut Seat<R, W>) -> bool
        requires { IsSeatOf self.now (seat_place seat.old) }
        ensures word { IsSeatOf self.now (seat_place seat.new) }
        ensures same_closed { saw_closed (seat_place seat.new) ≡ saw_closed (seat_place seat.old) }
        ensures same_draining { saw_draining (seat_place seat.new)
            ≡ saw_draining (seat_place seat.old) }
        ensures sees { saw_done (seat_place seat.new) ≡ result }
        ensures stays { saw_done (seat_place seat.old) ≡ true → result ≡ true }
        ensures same_deeds { SameDeeds (seat_place seat.old) (seat_place seat.new) }
        ensures same_heard { SameHeard (seat_place seat.old) (seat_place seat.new) }
    {
        self.table.shared.load::<Ask>(&mut seat.place, DONE) == 1
    }

    /// Sleeps while the resource is not destroyed, or returns for no reason. It changes nothing and
    /// tells nothing: ask `is_done`, park, and ask again.
    pub fn park_until_done<T: Wait>(&self, rt: &T) {
        self.table.shared.park(rt, DONE, 0);
    }

    /// Wakes one thread that is parked until the resource is destroyed: `mark_done` wakes one, and
    /// each that was woken wakes the next.
    pub fn wake_until_done(&self) {
        self.table.shared.wake_one(DONE);
    }

    /// Says that the resource was destroyed, once its halves were taken, and wakes one thread that
    /// is parked on the done word.
    pub fn mark_done(&self, last: Last<R, W>) -> Seat<R, W>
        requires word { IsSeatOf self.now (last_place last) }
        requires taken { HasTaken (last_place last) }
        ensures word { IsSeatOf self.now (seat_place result) }
        ensures closed { saw_closed (seat_place result) ≡ true }
        ensures draining { saw_draining (seat_place result) ≡ saw_draining (last_place last) }
        ensures done { saw_done (seat_place result) ≡ true }
        ensures made { Did op.Destroy answer.Done (last_place last) (seat_place result) }
    {
        let Last { mut place } = last;
        self.table.shared.store::<Mark>(&mut place, DONE, 1);
        self.table.shared.wake_one(DONE);
        Seat { place }
    }
}

impl<R: Drop, W: Drop> Last<R, W> {
    /// Both halves, which come out once.
    pub fn halves(&mut self, word: &LockWord<R, W>) -> (R, W)
        requires word { IsSeatOf word.now (last_place self.old) }
        requires not_taken { HasNotTaken (last_place self.old) }
        ensures marks { SameMarks (last_place self.old) (last_place self.new) }
        ensures taken { HasTaken (last_place self.new) }
        ensures same_deeds { SameDeeds (last_place self.old) (last_place self.new) }
        ensures same_heard { SameHeard (last_place self.old) (last_place self.new) }
    {
        let shared = &word.table.shared;
        let place = &mut self.place;
        shared.load::<Empty>(place, DONE);
        let Half::Write(write) = shared.exchange(place, WRITE_HALF, Half::Away) else {
            unreachable!()
        };
        place.turn();
        let Half::Read(read) = shared.exchange(place, READ_HALF, Half::Away) else {
            unreachable!()
        };
        place.turn();
        (read, write)
    }
}
