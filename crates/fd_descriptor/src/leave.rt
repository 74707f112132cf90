//! How a call leaves its descriptor, from what is given back to the seat that is left.
//!
//! Whoever gives the last reference of a closed word back destroys the halves there and then. Only
//! a close that destroys tells the device's fault; any other call has an answer of its own.

ghost use Rattle.std.specs.Prelude.{◌≡◌, ◌+◌, [], ◌∷◌, ◌++◌};
ghost use Rattle.lockword_core.specs.declared.stake.Op.TheVariants as op;
ghost use Rattle.lockword.specs.Lent.{half_in};
ghost use Rattle.lockword.specs.Marks.{HeardOn, deeds, heard_by, marks_of as marks_at};
ghost use Rattle.lockword.specs.History.{GoesOn};
ghost use Rattle.lockword.specs.Places.{seat_place, last_place, lock_place};
ghost use Rattle.lockword.specs.TransitionOutcomes.{IsSeatOf, HasNotTaken};
ghost use Rattle.fdmutex.specs.Deeds.{closes, destroys, drains};
ghost use Rattle.fdmutex.specs.Refusal.{IsFreedOf};
ghost use Rattle.fd_descriptor.specs.HandleCalls.{lock_fault};
ghost use Rattle.fd_descriptor.specs.Marks.{KeepsMarks, SawTheEnd, marks_left, closes_left};
ghost use Rattle.fd_descriptor.specs.Marks.{drains_left, deeds_left, duty_left, heard_left};
ghost use Rattle.fd_descriptor.specs.HalfUse.{LeftAtHome};

use crate::resource::Resource;
use fdmutex::{Freed, Refusal, unlock};
use lockword::{Guards, Held, Last, LockWord, Seat};
use rwloops::{DevKind, Fault};
use std::sync::Wait;

/// Destroys the halves, and says so to all that wait for it.
pub(crate) fn finish<X: Resource>(
    word: &LockWord<X::R, X::W>,
    last: Last<X::R, X::W>,
) -> (Seat<X::R, X::W>, Result<(), DevKind>)
    requires seat { IsSeatOf word.now (last_place last) }
    requires not_taken { HasNotTaken (last_place last) }
    ensures seat { IsSeatOf word.now (seat_place result.0) }
    ensures marks { SawTheEnd (marks_at (seat_place result.0)) }
    ensures keeps { KeepsMarks (marks_at (last_place last)) (marks_at (seat_place result.0)) }
    ensures no_close { closes (seat_place result.0) ≡ closes (last_place last) }
    ensures no_drain { drains (seat_place result.0) ≡ drains (last_place last) }
    ensures destroyed { destroys (seat_place result.0) ≡ destroys (last_place last) + 1 }
    ensures did { deeds (seat_place result.0) ≡ deeds (last_place last) ++ op.Destroy ∷ [] }
    ensures heard { HeardOn (last_place last) (seat_place result.0) }
{
    let mut last = last;
    let (read, write) = last.halves(word);
    let told = X::destroy(read, write);
    (word.mark_done(last), told)
}

/// The seat that is left of what was given back.
pub(crate) fn leave<X: Resource>(
    word: &LockWord<X::R, X::W>,
    freed: Freed<X::R, X::W>,
) -> Seat<X::R, X::W>
    requires { IsFreedOf word.now freed }
    ensures seat { IsSeatOf word.now (seat_place result) }
    ensures marks { KeepsMarks (marks_left freed) (marks_at (seat_place result)) }
    ensures no_close { closes (seat_place result) ≡ closes_left freed }
    ensures no_drain { drains (seat_place result) ≡ drains_left freed }
    ensures did { deeds (seat_place result) ≡ deeds_left freed ++ duty_left freed }
    ensures heard { GoesOn (heard_left freed) (heard_by (seat_place result)) }
{
    match freed {
        Freed::Kept(seat) => seat,
        Freed::Last(last) => finish::<X>(word, last).0,
    }
}

/// Gives a lock back, and with it its half, and says what seat is left.
pub(crate) fn give_back<D: Guards<X::R, X::W>, X: Resource, T: Wait>(
    rt: &T,
    word: &LockWord<X::R, X::W>,
    held: Held<D, X::R, X::W>,
) -> Seat<X::R, X::W>
    requires { IsSeatOf word.now (lock_place held) }
    ensures seat { IsSeatOf word.now (seat_place result) }
    ensures marks { KeepsMarks (marks_at (lock_place held)) (marks_at (seat_place result)) }
    ensures no_close { closes (seat_place result) ≡ closes (lock_place held) }
    ensures no_drain { drains (seat_place result) ≡ drains (lock_place held) }
    ensures home { LeftAtHome X.R X.W D.dir (D.stored (half_in held)) (deeds (seat_place result)) }
    ensures heard { HeardOn (lock_place held) (seat_place result) }
{
    leave::<X>(word, unlock(rt, word, held))
}

/// What a refusal of the lock word is to the caller of a handle.
pub(crate) fn lock_fault(refusal: Refusal) -> Fault
    ensures { result ≡ lock_fault refusal }
{
    match refusal {
        Refusal::Closed => Fault::Closed,
        Refusal::TooMany(_) => Fault::TooMany,
        Refusal::Draining => Fault::Draining,
    }
}
