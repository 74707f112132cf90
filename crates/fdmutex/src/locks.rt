//! The locks. Who finds a lock taken queues, parks until there is a signal to take, and then has
//! nothing and contends from the start. Who gives a lock back gives the signal that it owes before
//! it returns.

ghost use Rattle.base_types.specs.declared.direction.Dir.TheVariants.{Read, Write};
ghost use Rattle.lockword_core.specs.declared.stake.Op.TheVariants as op;
ghost use Rattle.lockword_core.specs.declared.stake.Answer.TheVariants as answer;
ghost use Rattle.lockword.specs.Lent.{LeftHalf};
ghost use Rattle.lockword.specs.Marks.{SameMarks, HeardOn, Did};
ghost use Rattle.lockword.specs.Places.{seat_place, lock_place, wait_place, owing_place};
ghost use Rattle.lockword.specs.Places.{owing_way};
ghost use Rattle.lockword.specs.TransitionOutcomes.{IsSeatOf};
ghost use Rattle.lockword.specs.Dropping.{Leaves};
ghost use Rattle.fdmutex.specs.Deeds.{MadeNoEnd, TakesWithoutEnd, LeavesWithoutEnd};
ghost use Rattle.fdmutex.specs.Did.{TookOrWaited, GaveBack, TellsHeardWord};
ghost use Rattle.fdmutex.specs.HalfTaken.{TakesHalf};
ghost use Rattle.fdmutex.specs.Heard.{TakesHearing, LeavesHearing};
ghost use Rattle.fdmutex.specs.Refusal.{IsLockFull, IsTakenOrRefused};

use crate::Refusal;
use lockword::{
    Direction, Freed, Guards, Held, Lock, LockWord, Owing, ReadLock, Seat, Signal, Unlock, Waiting,
    Wake, WriteLock,
};
use std::sync::Wait;

/// Parks until a signal to a waiter of a direction is taken.
fn await_signal<D: Direction, R: Drop, W: Drop, T: Wait>(
    rt: &T,
    word: &LockWord<R, W>,
    wait: Waiting<D, R, W>,
) -> Seat<R, W>
    requires seat { IsSeatOf word.now (wait_place wait) }
    ensures marks { SameMarks (wait_place wait) (seat_place result) }
    ensures no_end { MadeNoEnd (wait_place wait) (seat_place result) }
    ensures did { Did (op.Wake D.dir) answer.Woken (wait_place wait) (seat_place result) }
    ensures heard { HeardOn (wait_place wait) (seat_place result) }
{
    let mut wait = wait;
    for _ in rt.forever() {
        match word.try_wake(wait) {
            Wake::Woken(seat) => return seat,
            Wake::NotYet(back) => {
                word.park_for_signal(rt, D::dir());
                wait = back;
            }
            Wake::Lost(back) => wait = back,
        }
    }
    unreachable!()
}

/// Gives the signal that is owed. A semaphore at its limit is tried again: nobody else can give
/// this signal, and each waiter that wakes makes room.
fn signal<R: Drop, W: Drop, T: Wait>(
    rt: &T,
    word: &LockWord<R, W>,
    owing: Owing<R, W>,
) -> Seat<R, W>
    requires seat { IsSeatOf word.now (owing_place owing) }
    ensures marks { SameMarks (owing_place owing) (seat_place result) }
    ensures no_end { MadeNoEnd (owing_place owing) (seat_place result) }
    ensures did { Did (op.Signal (owing_way owing)) answer.Signalled (owing_place owing)
        (seat_place result) }
    ensures heard { HeardOn (owing_place owing) (seat_place result) }
{
    let mut owing = owing;
    for _ in rt.forever() {
        match word.try_signal(owing) {
            Signal::Signalled(seat) => return seat,
            Signal::Full(back) | Signal::Lost(back) => owing = back,
        }
    }
    unreachable!()
}

/// Takes the lock of a direction, and with it a reference and the half that it guards.
pub fn lock<D: Guards<R, W>, R: Drop, W: Drop, T: Wait>(
    rt: &T,
    word: &LockWord<R, W>,
    seat: Seat<R, W>,
) -> Result<Held<D, R, W>, (Seat<R, W>, Refusal)>
    requires seat { IsSeatOf word.now (seat_place seat) }
    ensures answer { IsTakenOrRefused SameMarks lock_place (IsLockFull D.dir) seat result }
    ensures no_end { TakesWithoutEnd lock_place seat result }
    ensures did { TookOrWaited D.dir lock_place seat result }
    ensures half { TakesHalf seat result }
    ensures heard { TakesHearing lock_place seat result }
    ensures told { TellsHeardWord seat result }
{
    let mut seat = seat;
    for _ in rt.forever() {
        match word.try_lock::<D>(seat) {
            Lock::Held(held) => return Ok(held),
            Lock::Queued(wait) => seat = await_signal(rt, word, wait),
            Lock::Closed(back) => return Err((back, Refusal::Closed)),
            Lock::TooMany(back, found) => return Err((back, Refusal::TooMany(found))),
            Lock::Draining(back) => return Err((back, Refusal::Draining)),
            Lock::Lost(back) => seat = back,
        }
    }
    unreachable!()
}

/// Gives a lock back, after which its half is another's, and then the signal that is owed.
pub fn unlock<D: Guards<R, W>, R: Drop, W: Drop, T: Wait>(
    rt: &T,
    word: &LockWord<R, W>,
    held: Held<D, R, W>,
) -> Freed<R, W>
    requires seat { IsSeatOf word.now (lock_place held) }
    ensures left { Leaves (lock_place held) result }
    ensures no_end { LeavesWithoutEnd (lock_place held) result }
    ensures did { GaveBack D.dir (lock_place held) result }
    ensures home { LeftHalf held }
    ensures heard { LeavesHearing (lock_place held) result }
{
    let mut held = held;
    for _ in rt.forever() {
        match word.try_unlock(held) {
            Unlock::Free(seat) => return Freed::Kept(seat),
            Unlock::Owes(owing) => return Freed::Kept(signal(rt, word, owing)),
            Unlock::Last(last) => return Freed::Last(last),
            Unlock::Lost(back) => held = back,
        }
    }
    unreachable!()
}

/// Takes the read lock, and with it a reference and the read half.
pub fn read_lock<R: Drop, W: Drop, T: Wait>(
    rt: &T,
    word: &LockWord<R, W>,
    seat: Seat<R, W>,
) -> Result<ReadLock<R, W>, (Seat<R, W>, Refusal)>
    requires seat { IsSeatOf word.now (seat_place seat) }
    ensures answer { IsTakenOrRefused SameMarks lock_place (IsLockFull Read) seat result }
    ensures no_end { TakesWithoutEnd lock_place seat result }
    ensures did { TookOrWaited Read lock_place seat result }
    ensures half { TakesHalf seat result }
    ensures heard { TakesHearing lock_place seat result }
    ensures told { TellsHeardWord seat result }
{
    lock(rt, word, seat)
}

/// Takes the write lock, and with it a reference and the write half.
pub fn write_lock<R: Drop, W: Drop, T: Wait>(
    rt: &T,
    word: &LockWord<R, W>,
    seat: Seat<R, W>,
) -> Result<WriteLock<R, W>, (Seat<R, W>, Refusal)>
    requires seat { IsSeatOf word.now (seat_place seat) }
    ensures answer { IsTakenOrRefused SameMarks lock_place (IsLockFull Write) seat result }
    ensures no_end { TakesWithoutEnd lock_place seat result }
    ensures did { TookOrWaited Write lock_place seat result }
    ensures half { TakesHalf seat result }
    ensures heard { TakesHearing lock_place seat result }
    ensures told { TellsHeardWord seat result }
{
    lock(rt, word, seat)
}

/// Gives the read lock back.
pub fn read_unlock<R: Drop, W: Drop, T: Wait>(
    rt: &T,
    word: &LockWord<R, W>,
    held: ReadLock<R, W>,
) -> Freed<R, W>
    requires seat { IsSeatOf word.now (lock_place held) }
    ensures left { Leaves (lock_place held) result }
    ensures no_end { LeavesWithoutEnd (lock_place held) result }
    ensures did { GaveBack Read (lock_place held) result }
    ensures home { LeftHalf held }
    ensures heard { LeavesHearing (lock_place held) result }
{
    unlock(rt, word, held)
}

/// Gives the write lock back.
pub fn write_unlock<R: Drop, W: Drop, T: Wait>(
    rt: &T,
    word: &LockWord<R, W>,
    held: WriteLock<R, W>,
) -> Freed<R, W>
    requires seat { IsSeatOf word.now (lock_place held) }
    ensures left { Leaves (lock_place held) result }
    ensures no_end { LeavesWithoutEnd (lock_place held) result }
    ensures did { GaveBack Write (lock_place held) result }
    ensures home { LeftHalf held }
    ensures heard { LeavesHearing (lock_place held) result }
{
    unlock(rt, word, held)
}
