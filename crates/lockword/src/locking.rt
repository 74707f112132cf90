//! The locks: one load and at most one exchange of the state a call.

ghost use Rattle.std.specs.Prelude.{◌≡◌};
ghost use Rattle.std.specs.Borrow.{sem, Lends};
ghost use Rattle.lockword.specs.contracts.holders.Held as held;
ghost use Rattle.lockword.specs.Lent.{half_in, with_half, BringsHalfBack};
ghost use Rattle.lockword.specs.Lent.{BringsHalf, LeavesHalf};
ghost use Rattle.lockword.specs.TransitionOutcomes.{IsSeatOf, AnswersLock, AnswersUnlock};
ghost use Rattle.lockword.specs.Places.{seat_place, lock_place};

use crate::directions::{Guards, Reading, Writing};
use crate::holders::{
    Held, Last, Lock, LockRead, LockWord, LockWrite, Owing, ReadLock, Seat, Unlock, UnlockRead,
    UnlockWrite, Waiting, WriteLock,
};
use crate::shared_rule::{Half, slot};
use crate::transitions::{Advance, Locking, Unlocking};
use lockword_core::{After, Kind};
use std::marker::PhantomData;

impl<R: Drop, W: Drop> LockWord<R, W> {
    /// Takes the lock of a direction, or a place in its queue, as `rwlock` of Go's `fd_mutex.go`;
    /// where Go panics this answers `TooMany`. That a draining word is refused, after the test of
    /// the closed flag and before the limits, is this project's own.
    pub fn try_lock<D: Guards<R, W>>(&self, seat: Seat<R, W>) -> Lock<D, R, W>
        requires { IsSeatOf self.now (seat_place seat) }
        ensures answer { AnswersLock (seat_place seat) result }
        ensures half { BringsHalf (seat_place seat) result }
    {
        let Seat { mut place } = seat;
        let dir = D::dir();
        match self.try_step::<Locking<D>>(&mut place, Kind::Lock(dir)) {
            Advance::Done(After::Queued) => Lock::Queued(Waiting {
                place,
                marker: PhantomData,
            }),
            Advance::Done(After::Held) => {
                let found = self
                    .table
                    .shared
                    .exchange(&mut place, slot(dir), Half::Away);
                Lock::Held(Held {
                    place,
                    half: D::from_slot(found),
                })
            }
            Advance::Done(_) => unreachable!(),
            Advance::Closed => Lock::Closed(Seat { place }),
            Advance::TooMany(word) => Lock::TooMany(Seat { place }, word),
            Advance::Lost => Lock::Lost(Seat { place }),
            Advance::Draining => Lock::Draining(Seat { place }),
        }
    }

    /// Gives the lock of a direction back, as `rwunlock` of Go's `fd_mutex.go`.
    pub fn try_unlock<D: Guards<R, W>>(&self, lock: Held<D, R, W>) -> Unlock<D, R, W>
        requires { IsSeatOf self.now (lock_place lock) }
        ensures answer { AnswersUnlock (lock_place lock) result }
        ensures half { BringsHalfBack lock result }
        ensures home { LeavesHalf lock result }
    {
        let Held { mut place, half } = lock;
        let dir = D::dir();
        let Half::Away = self
            .table
            .shared
            .exchange(&mut place, slot(dir), D::to_slot(half))
        else {
            unreachable!()
        };
        match self.try_step::<Unlocking<D>>(&mut place, Kind::Unlock(dir)) {
            Advance::Done(After::Owes) => Unlock::Owes(Owing { place, dir }),
            Advance::Done(After::Last) => Unlock::Last(Last { place }),
            Advance::Done(_) => Unlock::Free(Seat { place }),
            Advance::Lost => {
                let found = self
                    .table
                    .shared
                    .exchange(&mut place, slot(dir), Half::Away);
                Unlock::Lost(Held {
                    place,
                    half: D::from_slot(found),
                })
            }
            Advance::Closed | Advance::Draining | Advance::TooMany(_) => unreachable!(),
        }
    }

    /// Takes the read lock, or a place in its queue.
    pub fn try_lock_read(&self, seat: Seat<R, W>) -> LockRead<R, W>
        requires { IsSeatOf self.now (seat_place seat) }
        ensures answer { AnswersLock (seat_place seat) result }
        ensures half { BringsHalf (seat_place seat) result }
    {
        self.try_lock(seat)
    }

    /// Takes the write lock, or a place in its queue.
    pub fn try_lock_write(&self, seat: Seat<R, W>) -> LockWrite<R, W>
        requires { IsSeatOf self.now (seat_place seat) }
        ensures answer { AnswersLock (seat_place seat) result }
        ensures half { BringsHalf (seat_place seat) result }
    {
        self.try_lock(seat)
    }

    /// Gives the read lock back.
    pub fn try_unlock_read(&self, lock: ReadLock<R, W>) -> UnlockRead<R, W>
        requires { IsSeatOf self.now (lock_place lock) }
        ensures answer { AnswersUnlock (lock_place lock) result }
        ensures half { BringsHalfBack lock result }
        ensures home { LeavesHalf lock result }
    {
        self.try_unlock(lock)
    }

    /// Gives the write lock back.
    pub fn try_unlock_write(&self, lock: WriteLock<R, W>) -> UnlockWrite<R, W>
        requires { IsSeatOf self.now (lock_place lock) }
        ensures answer { AnswersUnlock (lock_place lock) result }
        ensures half { BringsHalfBack lock result }
        ensures home { LeavesHalf lock result }
    {
        self.try_unlock(lock)
    }
}

impl<D: Guards<R, W>, R: Drop, W: Drop> Held<D, R, W> {
    /// The half, for as long as the lock is borrowed.
    pub fn half<'a>(&'a mut self, word: &LockWord<R, W>) -> &'a mut D::Guarded
        requires { IsSeatOf word.now (lock_place self.old) }
        ensures* writes_back { sem 𝓛 (Lends
            (held.the_row D.row R.row W.row D.Guarded.row (record { stored = D.stored })
            D.Direction)
            D.Guarded.row self.entry result (with_half self.old)) }
        ensures value { result.now ≡ half_in self.old }
    {
        &mut self.half
    }
}
