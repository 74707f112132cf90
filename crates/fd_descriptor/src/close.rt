//! The close of a descriptor.

ghost use Rattle.std.specs.Prelude.{◌≡◌, ◌+◌, true, Ok, Err, IfErr};
ghost use Rattle.lockword.specs.Marks.{heard_by, marks_of as marks_at};
ghost use Rattle.lockword.specs.History.{GoesOn};
ghost use Rattle.lockword.specs.Places.{seat_place};
ghost use Rattle.lockword.specs.TransitionOutcomes.{IsSeatOf};
ghost use Rattle.fdmutex.specs.Deeds.{closes, destroys, drains};
ghost use Rattle.fdmutex.specs.Refusal.{IsFreedOf};
ghost use Rattle.fd_descriptor.specs.HandleCalls.{Closes, MayTell, HasEnded, WhereEvicted};
ghost use Rattle.fd_descriptor.specs.HandleCalls.{TellsWhoClosed, TellsOwnDestroy};
ghost use Rattle.fd_descriptor.specs.Marks.{HoldsSeatOf, KeepsMarks, SawTheEnd, IsKept};
ghost use Rattle.fd_descriptor.specs.Marks.{marks_in, marks_left, closes_in, closes_left};
ghost use Rattle.fd_descriptor.specs.Marks.{destroys_in, destroys_left, drains_in, drains_left};
ghost use Rattle.fd_descriptor.specs.Marks.{heard_in, heard_left};
ghost use Rattle.fd_descriptor.specs.Parking.{WasEvicted};

use crate::descriptor::Fd;
use crate::leave::{finish, lock_fault};
use crate::resource::Resource;
use fdmutex::{Freed, close_mark, drop_closing, wait_done};
use lockword::{LockWord, Seat};
use rwloops::{DevKind, Fault};
use std::alloc::Allocator;
use std::sync::Wait;

/// What is left to do for a closer that gave its reference back: to destroy, where it came last, or
/// else to wait until another has. Only who destroys is told the device's fault.
fn end_close<X: Resource, T: Wait>(
    rt: &T,
    word: &LockWord<X::R, X::W>,
    freed: Freed<X::R, X::W>,
) -> (Seat<X::R, X::W>, Result<(), DevKind>)
    requires freed { IsFreedOf word.now freed }
    requires closed { (marks_left freed).closed ≡ true }
    ensures seat { IsSeatOf word.now (seat_place result.0) }
    ensures marks { SawTheEnd (marks_at (seat_place result.0)) }
    ensures keeps { KeepsMarks (marks_left freed) (marks_at (seat_place result.0)) }
    ensures told { IsKept freed → result.1 ≡ Ok tt }
    ensures no_close { closes (seat_place result.0) ≡ closes_left freed }
    ensures no_drain { drains (seat_place result.0) ≡ drains_left freed }
    ensures destroyed { IfErr result.1 (λ kind.
        destroys (seat_place result.0) ≡ destroys_left freed + 1) }
    ensures heard { GoesOn (heard_left freed) (heard_by (seat_place result.0)) }
{
    match freed {
        Freed::Kept(left) => (wait_done(rt, word, left), Ok(())),
        Freed::Last(last) => finish::<X>(word, last),
    }
}

/// Who is told that a descriptor is closing, before its closer waits for the last user. That user
/// may be a call under way, which nothing wakes: its event loop has to hear of the close, and to
/// end it.
pub trait AtEviction {
    /// What is so once it was told. Whoever has nothing to say of it leaves it out.
    ghost told: { Self → Type 0 } = { λ _. Unit {0} };

    /// The descriptor is closing, for good, and each try on it is refused as `Closed` from now on.
    /// It is called on the closer's thread, with no lock held.
    fn evicted(&self)
        ensures told { told self.now };
}

/// Nobody is told.
#[derive(Clone, Copy, Debug, Drop)]
pub struct Nobody;

impl AtEviction for Nobody {
    fn evicted(&self) {}
}

/// Closes: the flag first, so that nobody comes in; then all that wait are woken, to leave, and who
/// runs calls under way is told, to end them; then the closer's own reference goes, and it waits
/// until whoever leaves last has destroyed.
pub(crate) fn close_by<X: Resource, A: Allocator, T: Wait, E: AtEviction>(
    rt: &T,
    fd: &Fd<X, A>,
    seat: &mut Option<Seat<X::R, X::W>>,
    who: &E,
) -> Result<(), Fault>
    requires { HoldsSeatOf fd.now.word seat.old }
    ensures seat { HoldsSeatOf fd.now.word seat.new }
    ensures marks { KeepsMarks (marks_in seat.old) (marks_in seat.new) }
    ensures no_drain { drains_in seat.new ≡ drains_in seat.old }
    ensures heard { GoesOn (heard_in seat.old) (heard_in seat.new) }
    ensures closed { (marks_in seat.old).closed ≡ true → result ≡ Err Fault.Closed }
    ensures allowed { IfErr result (MayTell Closes (marks_in seat.old) (marks_in seat.new)) }
    ensures ended { HasEnded result (marks_in seat.new) }
    ensures closer { TellsWhoClosed result (closes_in seat.old) (closes_in seat.new) }
    ensures destroyer { TellsOwnDestroy result (destroys_in seat.old) (destroys_in seat.new) }
    ensures evicted { WhereEvicted result WasEvicted }
    ensures told { WhereEvicted result (E.told who.now) }
{
    let word = &fd.word;
    let Some(free) = seat.take() else {
        unreachable!()
    };
    let closing = match close_mark(rt, word, free) {
        Ok(closing) => closing,
        Err((left, refusal)) => {
            *seat = Some(left);
            return Err(lock_fault(refusal));
        }
    };
    fd.cell.evict(rt, &closing);
    who.evicted();
    let (left, told) = end_close::<X, T>(rt, word, drop_closing(word, closing));
    *seat = Some(left);
    match told {
        Ok(()) => Ok(()),
        Err(kind) => Err(Fault::Device(kind)),
    }
}
