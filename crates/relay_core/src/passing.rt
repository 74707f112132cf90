//! One call of a copy, and what follows it.

ghost use Rattle.std.specs.Prelude.{◌≡◌, ◌<◌, ◌≤◌, ℕ, [], length, take, drop};
ghost use Rattle.std.specs.Prelude.{IfOk, IfErr, IfSome, IfNone};
ghost use Rattle.relay_core.specs.Passing.{Bytes, Close, IsPassing, IsPassed, IsStop};

use crate::copying::Ended;
use crate::credits::Credits;
use crate::poll_gate::PollGate;
use base_types::Dir;
use relay_ledger::{Full, Share};
use rwloops::Fault;
use std::sync::ledger::Ledger;

/// How far a copy came.
#[derive(Clone, Copy, Debug, PartialEq, Eq, Drop)]
pub enum Step {
    /// It can go on at once, and has made as many calls as it may make in a row.
    Again,
    /// It can't go on before the gate is ready in this direction.
    Waits(Dir),
    /// It ended so.
    Ended(Ended),
}

/// Reads once, into so many bytes of the buffer at most. It gives how many bytes were read, and
/// `None` at the reader's end.
pub(crate) fn read_once<G: PollGate>(
    gate: &mut G,
    buf: &mut [u8],
    most: usize,
) -> Result<Option<usize>, Step>
    requires room { 0 < most }
    requires within { most ≤ length buf.old }
    ensures within { IfOk result (λ read. IfSome read (λ count. count ≤ most)) }
    ensures some { IfOk result (λ read. IfSome read (λ count. 0 < count)) }
    ensures bytes { IfOk result (λ read. IfSome read (λ count. (amount : ℕ)
        → IsPassing G.takes (G.tells gate.old) (G.tells gate.new) amount amount (Bytes [])
        (Bytes (take count buf.new)) 1 1)) }
    ensures end { IfOk result (λ read. IfNone read ((amount : ℕ)
        → IsPassing G.takes (G.tells gate.old) (G.tells gate.new) amount amount (Bytes []) Close 1
        1)) }
    ensures stopped { IfErr result (IsStop Dir.Read (G.blocked gate.new)
        ((amount : ℕ) → IsPassing G.takes (G.tells gate.old) (G.tells gate.new) amount amount
        (Bytes []) (Bytes []) 0 0)
        (λ ended. (amount : ℕ) → IsPassed G.takes (G.tells gate.old) (G.tells gate.new)
        amount amount (Bytes []) ended 1)) }
{
    match gate.poll_read(&mut buf[..most]) {
        None => Err(Step::Waits(Dir::Read)),
        Some(Ok(count)) => Ok(Some(count)),
        Some(Err(Fault::EndOfFile)) => Ok(None),
        Some(Err(fault)) => Err(Step::Ended(Ended::ReadFault(fault))),
    }
}

/// Offers bytes once, and credits what was taken of them. It gives how many those are.
pub(crate) fn offer<G: PollGate, L: Ledger, C: Credits<L>>(
    gate: &mut G,
    credits: &mut C,
    share: &mut Share<L>,
    bytes: &[u8],
) -> Result<usize, Step>
    requires some { 0 < length bytes.now }
    ensures within { IfOk result (λ count. count ≤ length bytes.now) }
    ensures took { IfOk result (λ count. G.takes (length bytes.now) count) }
    ensures rest { IfOk result (λ count. IsPassing G.takes (G.tells gate.old) (G.tells gate.new)
        share.old share.new (Bytes bytes.now) (Bytes (drop count bytes.now)) 1 0) }
    ensures stopped { IfErr result (IsStop Dir.Write (G.blocked gate.new)
        (IsPassing G.takes (G.tells gate.old) (G.tells gate.new) share.old share.new
        (Bytes bytes.now) (Bytes bytes.now) 0 0)
        (λ ended. IsPassed G.takes (G.tells gate.old) (G.tells gate.new) share.old share.new
        (Bytes bytes.now) ended 0)) }
{
    match gate.poll_write(bytes) {
        None => Err(Step::Waits(Dir::Write)),
        Some(Ok(count)) => match credits.credit(share, count as u64) {
            Ok(()) => Ok(count),
            Err(Full) => Err(Step::Ended(Ended::BookFull(count as u64))),
        },
        Some(Err(failed)) => match credits.credit(share, failed.count as u64) {
            Ok(()) => Err(Step::Ended(Ended::WriteFault(failed))),
            Err(Full) => Err(Step::Ended(Ended::BookFull(failed.count as u64))),
        },
    }
}

/// Tells the writer of the reader's end.
pub(crate) fn close_once<G: PollGate>(gate: &mut G) -> Step
    ensures { IsStop Dir.Write (G.blocked gate.new)
        ((amount : ℕ) → IsPassing G.takes (G.tells gate.old) (G.tells gate.new) amount amount
        Close Close 0 0)
        (λ ended. (amount : ℕ) → IsPassed G.takes (G.tells gate.old) (G.tells gate.new)
        amount amount Close ended 0) result }
{
    match gate.poll_close_write() {
        None => Step::Waits(Dir::Write),
        Some(Ok(())) => Step::Ended(Ended::Eof),
        Some(Err(fault)) => Step::Ended(Ended::CloseFault(fault)),
    }
}
