//! The worker that copies: it reads, writes what it read, and credits what the write reported.

ghost use Rattle.std.specs.Prelude.{◌≡◌, ◌<◌, ◌+◌, length, IfOk, IfErr, IfSome, IfNone, OnOk, OnErr};
ghost use Rattle.relay_workers.specs.CopyTrace.{IsCopied, IsCopiedSoFar};

use crate::gate::CopyGate;
use relay_core::Ended;
use relay_ledger::{Book, Full, Share};
use rwloops::Fault;
use std::sync::ledger::Ledger;
use std::sync::{Mutex, Wait};

/// Copies from the gate's reader to its writer until something ends it. The share is credited what
/// each write reported, also what a write took that failed.
pub fn copy_worker<G: CopyGate, L: Ledger, R: Wait>(
    rt: &R,
    gate: &mut G,
    book: &Mutex<Book<L>>,
    share: &mut Share<L>,
    buf: &mut [u8],
) -> Ended
    requires room { 0 < length buf.old }
    ensures copied { IsCopied (G.tells gate.old) (G.tells gate.new) share.old share.new result }
{
    for _ in rt.forever() {
        match copy_once(rt, gate, book, share, buf) {
            Ok(_) => {}
            Err(ended) => return ended,
        }
    }
    unreachable!()
}

/// Copies as `copy_worker` does until a read fills the buffer, and gives `None` once those bytes
/// are written.
pub(crate) fn copy_until_full<G: CopyGate, L: Ledger, R: Wait>(
    rt: &R,
    gate: &mut G,
    book: &Mutex<Book<L>>,
    share: &mut Share<L>,
    buf: &mut [u8],
) -> Option<Ended>
    requires room { 0 < length buf.old }
    ensures copied { IfSome result (λ ended.
        IsCopied (G.tells gate.old) (G.tells gate.new) share.old share.new ended) }
    ensures so_far { IfNone result (
        IsCopiedSoFar (G.tells gate.old) (G.tells gate.new) share.old share.new) }
{
    for _ in rt.forever() {
        match copy_once(rt, gate, book, share, buf) {
            Ok(count) if count < buf.len() => {}
            Ok(_) => return None,
            Err(ended) => return Some(ended),
        }
    }
    unreachable!()
}

// A read, a write of what it gave, and its credit. It gives how many bytes were read, or how the
// worker ended.
fn copy_once<G: CopyGate, L: Ledger, R: Wait>(
    rt: &R,
    gate: &mut G,
    book: &Mutex<Book<L>>,
    share: &mut Share<L>,
    buf: &mut [u8],
) -> Result<usize, Ended>
    requires room { 0 < length buf.old }
    ensures so_far { IfOk result (λ _.
        IsCopiedSoFar (G.tells gate.old) (G.tells gate.new) share.old share.new) }
    ensures copied { IfErr result (λ ended.
        IsCopied (G.tells gate.old) (G.tells gate.new) share.old share.new ended) }
{
    let count = match gate.read(buf) {
        Ok(count) => count,
        Err(Fault::EndOfFile) => match gate.close_write() {
            Ok(()) => return Err(Ended::Eof),
            Err(fault) => return Err(Ended::CloseFault(fault)),
        },
        Err(fault) => return Err(Ended::ReadFault(fault)),
    };
    match gate.write(&buf[..count]) {
        Ok(written) => match credited(rt, book, share, written as u64) {
            Ok(()) => Ok(count),
            Err(Full) => Err(Ended::BookFull(written as u64)),
        },
        Err(failed) => match credited(rt, book, share, failed.count as u64) {
            Ok(()) => Err(Ended::WriteFault(failed)),
            Err(Full) => Err(Ended::BookFull(failed.count as u64)),
        },
    }
}

// A credit under the book's lock. The lock is held for nothing else.
fn credited<L: Ledger, R: Wait>(
    rt: &R,
    book: &Mutex<Book<L>>,
    share: &mut Share<L>,
    n: u64,
) -> Result<(), Full>
    ensures amount { OnOk result (share.new ≡ share.old + n) }
    ensures kept { OnErr result (share.new ≡ share.old) }
{
    book.lock(rt).credit(share, n)
}
