//! Loads of the state, through any value that holds a seat.

use crate::directions::{Direction, Guards};
use crate::holders::{Closing, Drains, Held, Last, LockWord, Owing, Ref, Seat, Waiting};
use lockword_core::Word;

/// A value that holds a seat, and can look through it.
pub trait Holder<R: Drop, W: Drop> {
    ghost use Rattle.lockword.specs.Marks.{Place};
    ghost use Rattle.lockword.specs.TransitionOutcomes.{IsSeatOf, SameStake, Looks};

    ghost place: { Self → Place R W };

    /// What a look leaves as it is, beside the stake: of most values the stake says all.
    ghost keeps: { Self → Self → Type 0 } = { λ _ _. Unit {0} };

    /// One load of the state word.
    fn look_in(&mut self, word: &LockWord<R, W>) -> Word
        requires { IsSeatOf word.now (place self.old) }
        ensures looks { Looks (place self.old) (place self.new) result }
        ensures stake { SameStake (place self.old) (place self.new) }
        ensures rest { keeps self.old self.new };
}

impl<R: Drop, W: Drop> LockWord<R, W> {
    ghost use Rattle.lockword.specs.Laws.{StoodBy};
    ghost use Rattle.lockword.specs.TransitionOutcomes.{IsSeatOf, SameStake, Looks};

    /// The seven fields of the state word, by one load, at some moment.
    pub fn look<S: Holder<R, W>>(&self, holder: &mut S) -> Word
        requires { IsSeatOf self.now (S.place holder.old) }
        ensures looks { Looks (S.place holder.old) (S.place holder.new) result }
        ensures headline { StoodBy (S.place holder.new) result }
        ensures stake { SameStake (S.place holder.old) (S.place holder.new) }
        ensures rest { S.keeps holder.old holder.new }
    {
        holder.look_in(self)
    }
}

// Each value has its seat in a field of its own type, so each has an impl, which names that field.
impl<R: Drop, W: Drop> Holder<R, W> for Seat<R, W> {
    ghost use Rattle.lockword.specs.Places.{seat_place};

    ghost place = { seat_place };

    fn look_in(&mut self, word: &LockWord<R, W>) -> Word {
        word.look_at(&mut self.place)
    }
}

impl<R: Drop, W: Drop> Holder<R, W> for Ref<R, W> {
    ghost use Rattle.lockword.specs.Places.{ref_place};

    ghost place = { ref_place };

    fn look_in(&mut self, word: &LockWord<R, W>) -> Word {
        word.look_at(&mut self.place)
    }
}

impl<R: Drop, W: Drop> Holder<R, W> for Closing<R, W> {
    ghost use Rattle.lockword.specs.Places.{closing_place};

    ghost place = { closing_place };

    fn look_in(&mut self, word: &LockWord<R, W>) -> Word {
        word.look_at(&mut self.place)
    }
}

impl<R: Drop, W: Drop> Holder<R, W> for Last<R, W> {
    ghost use Rattle.lockword.specs.Places.{last_place};

    ghost place = { last_place };

    fn look_in(&mut self, word: &LockWord<R, W>) -> Word {
        word.look_at(&mut self.place)
    }
}

impl<D: Guards<R, W>, R: Drop, W: Drop> Holder<R, W> for Held<D, R, W> {
    ghost use Rattle.lockword.specs.Lent.{SameHalf};
    ghost use Rattle.lockword.specs.Places.{lock_place};

    ghost place = { lock_place };

    ghost keeps = { SameHalf };

    fn look_in(&mut self, word: &LockWord<R, W>) -> Word {
        word.look_at(&mut self.place)
    }
}

impl<D: Direction, R: Drop, W: Drop> Holder<R, W> for Waiting<D, R, W> {
    ghost use Rattle.lockword.specs.Places.{wait_place};

    ghost place = { wait_place };

    fn look_in(&mut self, word: &LockWord<R, W>) -> Word {
        word.look_at(&mut self.place)
    }
}

impl<R: Drop, W: Drop> Holder<R, W> for Owing<R, W> {
    ghost use Rattle.lockword.specs.Places.{owing_place};

    ghost place = { owing_place };

    fn look_in(&mut self, word: &LockWord<R, W>) -> Word {
        word.look_at(&mut self.place)
    }
}

impl<R: Drop, W: Drop> Holder<R, W> for Drains<R, W> {
    ghost use Rattle.lockword.specs.Places.{drains_place};

    ghost place = { drains_place };

    fn look_in(&mut self, word: &LockWord<R, W>) -> Word {
        word.look_at(&mut self.place)
    }
}
