//! The use of a half under its direction's lock.
//!
//! A half is borrowed from the value of its lock, so that a use before the lock or after its return
//! doesn't compile.

ghost use Rattle.std.specs.Prelude.{◌≡◌, ◌≤◌, ◌<◌, true, length, Ok, Err, IfOk, IfErr, Some};
ghost use Rattle.std.specs.Prelude.{IfSome, IfNone};
ghost use Rattle.fd_descriptor.specs.HalfUse.{Did, UsesHome, CallsOnce};
ghost use Rattle.rwloops.specs.Waits.{fault_of};
ghost use Rattle.rwloops.specs.TryNow.{ReadNow, AcceptNow, WriteNow, IsTried, IsPartOf};
ghost use Rattle.fd_descriptor.specs.HandleCalls.{Reads, Accepts, Writes, Shuts, IsLockFault};
ghost use Rattle.fd_descriptor.specs.HandleCalls.{IsOwnFault};
ghost use Rattle.fd_descriptor.specs.HandleCalls.{IsRefusedEntry, IfFailed, IsShut};
ghost use Rattle.fd_descriptor.specs.Marks.{HoldsSeatOf, KeepsMarks, marks_in, closes_in};
ghost use Rattle.fd_descriptor.specs.Marks.{drains_in, operations_in, heard_in};
ghost use Rattle.lockword.specs.History.{GoesOn};
ghost use Rattle.fd_descriptor.specs.Polled.{IsTriedOrRefused, fails_by, write_fails_by};

use crate::descriptor::Fd;
use crate::leave::{give_back, lock_fault};
use crate::poll_cell::{CellWaits, PollCell};
use crate::resource::{HalfClose, Resource};
use base_types::Dir;
use deadline_core::Refusal;
use fdmutex::lock;
use lockword::{Guards, Seat};
use rwloops::{DevKind, Fault, Progress, TryAccept, TryRead, TryWrite, Waits, WriteFault};
use std::alloc::Allocator;
use std::sync::Wait;

/// Takes the lock of a direction, lends its half to `act`, and gives the lock back. It answers what
/// `act` did, or why there was no lock.
pub(crate) fn with_half<D, X, A, T, Y, F>(
    rt: &T,
    fd: &Fd<X, A>,
    seat: &mut Option<Seat<X::R, X::W>>,
    act: F,
) -> Result<Y, Fault>
where
    D: Guards<X::R, X::W>,
    X: Resource,
    A: Allocator,
    T: Wait,
    F: FnOnce(&mut D::Guarded) -> Y,
    requires seat { HoldsSeatOf fd.now.word seat.old }
    requires act { F.IsAlwaysCallable act }
    ensures seat { HoldsSeatOf fd.now.word seat.new }
    ensures marks { KeepsMarks (marks_in seat.old) (marks_in seat.new) }
    ensures no_close { closes_in seat.new ≡ closes_in seat.old }
    ensures no_drain { drains_in seat.new ≡ drains_in seat.old }
    ensures heard { GoesOn (heard_in seat.old) (heard_in seat.new) }
    ensures closed { (marks_in seat.old).closed ≡ true → result ≡ Err Fault.Closed }
    ensures draining { (marks_in seat.old).draining ≡ true → IsRefusedEntry result }
    ensures no_lock { IfErr result (IsLockFault (marks_in seat.old) (marks_in seat.new)) }
    ensures did { IfOk result (λ answer. Did F.FnOnce act answer) }
    ensures used { IfOk result (λ answer. UsesHome X.R X.W D.dir D.stored
        (operations_in seat.old) (operations_in seat.new) (CallsOnce F.FnOnce act answer)) }
{
    let word = &fd.word;
    let Some(free) = seat.take() else {
        unreachable!()
    };
    let mut held = match lock::<D, X::R, X::W, T>(rt, word, free) {
        Ok(held) => held,
        Err((left, refusal)) => {
            *seat = Some(left);
            return Err(lock_fault(refusal));
        }
    };
    let answer = act(held.half(word));
    *seat = Some(give_back::<D, X, T>(rt, word, held));
    Ok(answer)
}

/// Reads from a half, waiting in a cell.
pub(crate) fn read_in<H: TryRead, T: Wait>(
    rt: &T,
    cell: &PollCell,
    half: &mut H,
    buf: &mut [u8],
) -> Result<usize, Fault>
    ensures within { IfOk result (λ count. count ≤ length buf.old) }
    ensures some { 0 < length buf.old → IfOk result (λ count. 0 < count) }
    ensures empty { length buf.old ≡ 0 → result ≡ Ok 0 }
    ensures faults { IfErr result (IsOwnFault Reads) }
{
    rwloops::read(rt, half, buf, &mut CellWaits::new(cell, rt))
}

/// Accepts from a half, waiting in a cell.
pub(crate) fn accept_in<H: TryAccept, T: Wait>(
    rt: &T,
    cell: &PollCell,
    half: &mut H,
) -> Result<H::T, Fault>
    ensures faults { IfErr result (IsOwnFault Accepts) }
{
    rwloops::accept(rt, half, &mut CellWaits::new(cell, rt))
}

/// Writes to a half, waiting in a cell.
pub(crate) fn write_in<H: TryWrite, T: Wait>(
    rt: &T,
    cell: &PollCell,
    half: &mut H,
    bytes: &[u8],
) -> Result<usize, WriteFault>
    ensures whole { IfOk result (λ count. count ≡ length bytes.now) }
    ensures part { IfErr result (λ failed. failed.count ≤ length bytes.now) }
    ensures faults { IfErr result (λ failed. IsOwnFault Writes failed.fault) }
    ensures nothing { IfErr result (λ failed. failed.fault ≡ Fault.TooMany → failed.count ≡ 0) }
    ensures nothing_draining { IfErr result (λ failed.
        failed.fault ≡ Fault.Draining → failed.count ≡ 0) }
{
    rwloops::write(rt, half, bytes, &mut CellWaits::new(cell, rt))
}

/// Shuts a half once its connection is made. A deadline or a close ends the wait, and then the half
/// is shut as it is.
pub(crate) fn shut_connected<H: HalfClose, W: Waits>(
    rt: &impl Wait,
    half: &mut H,
    waits: &mut W,
) -> Result<(), DevKind>
    ensures told { H.shut_told half.new result }
{
    for _ in rt.forever() {
        if !half.is_connecting() || waits.wait(Dir::Write).is_err() {
            return half.shut();
        }
    }
    unreachable!()
}

/// What the cell says to a read into this buffer that doesn't wait. One of nothing asks nothing, and
/// so forgets no notice.
pub(crate) fn prepare_read<T: Wait>(rt: &T, cell: &PollCell, buf: &[u8]) -> Result<(), Refusal>
    ensures { length buf.now ≡ 0 → result ≡ Ok tt }
{
    if buf.is_empty() {
        return Ok(());
    }
    cell.prepare(rt, Dir::Read)
}

/// Tries to read from a half, once the cell was asked, with this answer: so closing comes before
/// expiry, and both before what the half gives. A `prepare` forgets the notice that an earlier one
/// left; since a try follows it at once, what that notice was for is found there, and no wake-up is
/// lost under events that come at a change alone.
pub(crate) fn read_now_in<H: TryRead>(
    prepared: Result<(), Refusal>,
    half: &mut H,
    buf: &mut [u8],
) -> Option<Result<usize, Fault>>
    ensures within { IfSome result (λ answer. IfOk answer (λ count. count ≤ length buf.old)) }
    ensures some { 0 < length buf.old → IfSome result (λ answer. IfOk answer (λ count. 0 < count)) }
    ensures empty { length buf.old ≡ 0 → IfOk prepared (λ u. result ≡ Some (Ok 0)) }
    ensures faults { IfSome result (λ answer. IfErr answer (IsOwnFault Reads)) }
    ensures refused { IfErr prepared (λ refusal. (result ≡ Some (Err (fault_of refusal)))
        × (half.new ≡ half.old)) }
    ensures tried { IfOk prepared (λ u. IsTried (λ tries. ReadNow buf.new tries result)
        (H.tells half.old) (H.tells half.new)) }
    ensures polled { IsTriedOrRefused fails_by H.tells (λ tries. ReadNow buf.new tries result)
        result half.old half.new }
{
    match prepared {
        Ok(()) => rwloops::read_now(half, buf),
        Err(refusal) => Some(Err(Fault::from(refusal))),
    }
}

/// Tries to accept from a half, in the order of `read_now_in`.
pub(crate) fn accept_now_in<H: TryAccept>(
    prepared: Result<(), Refusal>,
    half: &mut H,
) -> Option<Result<H::T, Fault>>
    ensures faults { IfSome result (λ answer. IfErr answer (IsOwnFault Accepts)) }
    ensures refused { IfErr prepared (λ refusal. (result ≡ Some (Err (fault_of refusal)))
        × (half.new ≡ half.old)) }
    ensures tried { IfOk prepared (λ u. IsTried (λ tries. AcceptNow tries result)
        (H.tells half.old) (H.tells half.new)) }
    ensures polled { IsTriedOrRefused fails_by H.tells (λ tries. AcceptNow tries result) result
        half.old half.new }
{
    match prepared {
        Ok(()) => rwloops::accept_now(half),
        Err(refusal) => Some(Err(Fault::from(refusal))),
    }
}

/// Tries to write to a half, in the order of `read_now_in`.
pub(crate) fn write_now_in<H: TryWrite>(
    prepared: Result<(), Refusal>,
    half: &mut H,
    bytes: &[u8],
) -> Progress
    ensures part { IsPartOf (length bytes.now) result }
    ensures faults { IfFailed result (λ failed. IsOwnFault Writes failed.fault) }
    ensures refused { IfErr prepared (λ refusal.
        (result ≡ Progress.Failed (record { fault = fault_of refusal; count = 0 }))
        × (half.new ≡ half.old)) }
    ensures tried { IfOk prepared (λ u. IsTried (λ tries. WriteNow bytes.now tries result)
        (H.tells half.old) (H.tells half.new)) }
    ensures polled { IsTriedOrRefused write_fails_by H.tells
        (λ tries. WriteNow bytes.now tries result) result half.old half.new }
{
    match prepared {
        Ok(()) => rwloops::write_now(half, bytes),
        Err(refusal) => Progress::Failed(WriteFault {
            fault: Fault::from(refusal),
            count: 0,
        }),
    }
}

/// Shuts a half, unless its connection isn't made yet; a deadline or a close that came shuts it as
/// it is, as in `shut_connected`.
pub(crate) fn shut_now_in<H: HalfClose, T: Wait>(
    rt: &T,
    cell: &PollCell,
    half: &mut H,
) -> Option<Result<(), Fault>>
    ensures faults { IfSome result (λ answer. IfErr answer (IsOwnFault Shuts)) }
    ensures told { IfSome result (λ answer. IsShut (H.shut_told half.new) answer) }
    ensures connecting { IfNone result (H.connecting half.new) }
{
    if half.is_connecting() && cell.prepare(rt, Dir::Write).is_ok() {
        return None;
    }
    match half.shut() {
        Ok(()) => Some(Ok(())),
        Err(kind) => Some(Err(Fault::Device(kind))),
    }
}
