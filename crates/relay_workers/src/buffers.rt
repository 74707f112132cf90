//! How large a worker's two buffers are, which lie on the stack of its thread.

ghost use Rattle.std.specs.Prelude.{◌≡◌, length, IfSome, IfNone};
ghost use Rattle.relay_workers.specs.CopyTrace.{IsCopied, IsCopiedSoFar};

use crate::copying::{copy_until_full, copy_worker};
use crate::gate::CopyGate;
use relay_core::Ended;
use relay_ledger::{Book, Share};
use std::sync::ledger::Ledger;
use std::sync::{Mutex, Wait};

/// The bytes of the buffer that a worker begins with. A connection whose reads stay below it has no
/// other, so that one that is idle takes little memory.
pub const FIRST_BUFFER_BYTES: usize = 1_024;

/// The bytes of a worker's buffer once a read has filled the first one.
pub const BUFFER_BYTES: usize = 16_384;

/// Copies as `copy_worker` does, through a buffer of `FIRST_BUFFER_BYTES` until a read fills it,
/// and through one of `BUFFER_BYTES` from then on. The larger one isn't touched before.
pub fn copy_by_need<G: CopyGate, L: Ledger, R: Wait>(
    rt: &R,
    gate: &mut G,
    book: &Mutex<Book<L>>,
    share: &mut Share<L>,
) -> Ended
    ensures copied { IsCopied (G.tells gate.old) (G.tells gate.new) share.old share.new result }
{
    match copy_small(rt, gate, book, share) {
        Some(ended) => ended,
        None => copy_large(rt, gate, book, share),
    }
}

// The clause has the figure itself, so that a constant of another value is refused.
fn first_buffer() -> [u8; FIRST_BUFFER_BYTES]
    ensures { length result ≡ 1024 }
{
    [0u8; FIRST_BUFFER_BYTES]
}

// Each buffer is in a frame of its own, so that the pages of the larger one don't lie within the
// other's.
#[inline(never)]
fn copy_small<G: CopyGate, L: Ledger, R: Wait>(
    rt: &R,
    gate: &mut G,
    book: &Mutex<Book<L>>,
    share: &mut Share<L>,
) -> Option<Ended>
    ensures copied { IfSome result (λ ended.
        IsCopied (G.tells gate.old) (G.tells gate.new) share.old share.new ended) }
    ensures so_far { IfNone result (
        IsCopiedSoFar (G.tells gate.old) (G.tells gate.new) share.old share.new) }
{
    let mut buf = first_buffer();
    copy_until_full(rt, gate, book, share, &mut buf)
}

#[inline(never)]
fn copy_large<G: CopyGate, L: Ledger, R: Wait>(
    rt: &R,
    gate: &mut G,
    book: &Mutex<Book<L>>,
    share: &mut Share<L>,
) -> Ended
    ensures copied { IsCopied (G.tells gate.old) (G.tells gate.new) share.old share.new result }
{
    let mut buf = [0u8; BUFFER_BYTES];
    copy_worker(rt, gate, book, share, &mut buf)
}
