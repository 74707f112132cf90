//! Calls that don't wait: tries until there is an answer, or until the half would block. They make
//! their tries and read the outcomes as the calls that wait do, by the same steps over the same
//! loops.
//!
//! What begins so may go on later, and is one read, write or accept then: a try that would block
//! ends a row of inconclusive answers, so that of a write the count alone is to be kept between,
//! and of the others nothing.
ghost use Rattle.std.specs.Prelude.{◌≡◌, ◌<◌, ◌≤◌, length, Some, Ok, IfSome, IfOk};
ghost use Rattle.rwloops.specs.TryNow.{ReadNow, WriteNow, AcceptNow, IsTried, IsTriedInTurn};
ghost use Rattle.rwloops.specs.TryNow.{IsPartOf};

use crate::accept_loop::{AcceptLoop, AcceptTurns, TryAccept};
use crate::fault::{Fault, WriteFault};
use crate::pair::Pair;
use crate::read_loop::{ReadLoop, ReadTurns, TryRead};
use crate::retries::Next;
use crate::waits::Waits;
use crate::write_loop::{TryWrite, WriteLoop, WriteTurns};
use crate::{accept_loop, read_loop, write_loop};
use base_types::Dir;
use deadline_core::Refusal;

/// What a write came to that doesn't wait.
#[derive(Clone, Copy, Debug, PartialEq, Eq, Drop)]
pub enum Progress {
    /// All bytes are written.
    Whole,
    /// So many bytes from the front are written, fewer than all, and the half would block.
    Part(usize),
    /// It failed, after the count that comes with the fault.
    Failed(WriteFault),
}

/// The waits of who has no time: each call may begin, and is refused its first wait.
#[derive(Drop)]
struct NoTime;

impl Waits for NoTime {
    ghost tells = { λ _ _. ⊥ };

    fn prepare(&mut self, _dir: Dir) -> Result<(), Refusal> {
        Ok(())
    }

    fn wait(&mut self, _dir: Dir) -> Result<(), Refusal> {
        Err(Refusal::DeadlineExceeded)
    }
}

// Tries to read until the answer is there or a wait would come.
fn read_tries<P: ReadTurns>(pair: &mut P, buf: &mut [u8]) -> Option<Result<usize, Fault>>
    ensures tried { IsTriedInTurn (λ events. P.went pair.old events pair.new)
        (λ tries. ReadNow buf.new tries result) }
    ensures empty { length buf.old ≡ 0 → result ≡ Some (Ok 0) }
    ensures some { 0 < length buf.old → IfSome result (λ answer. IfOk answer (λ count. 0 < count)) }
    ensures within { IfSome result (λ answer. IfOk answer (λ count. count ≤ length buf.old)) }
{
    if buf.is_empty() {
        return Some(Ok(0));
    }
    let mut reading = ReadLoop::new(buf.len());
    loop {
        match read_loop::try_once(pair, buf, &mut reading) {
            Next::Try => {}
            Next::Wait => return None,
            Next::Done(count) => return Some(Ok(count)),
            Next::Failed(fault) => return Some(Err(fault)),
        }
    }
}

/// Tries to read at least one byte, or answers 0 for a buffer of length 0; `None` says that the
/// half would block. It answers what `read` would, which then waits.
pub fn read_now<H: TryRead>(half: &mut H, buf: &mut [u8]) -> Option<Result<usize, Fault>>
    ensures trace { IsTried (λ tries. ReadNow buf.new tries result)
        (H.tells half.old) (H.tells half.new) }
    ensures empty { length buf.old ≡ 0 → result ≡ Some (Ok 0) }
    ensures some { 0 < length buf.old → IfSome result (λ answer. IfOk answer (λ count. 0 < count)) }
    ensures within { IfSome result (λ answer. IfOk answer (λ count. count ≤ length buf.old)) }
{
    read_tries(&mut Pair::new(half, &mut NoTime), buf)
}

// Tries to accept until the answer is there or a wait would come.
fn accept_tries<P: AcceptTurns>(pair: &mut P) -> Option<Result<P::T, Fault>>
    ensures { IsTriedInTurn (λ events. P.went pair.old events pair.new)
        (λ tries. AcceptNow tries result) }
{
    let mut accepting = AcceptLoop::new();
    loop {
        match accept_loop::try_once(pair, &mut accepting) {
            Next::Try => {}
            Next::Wait => return None,
            Next::Done(taken) => return Some(Ok(taken)),
            Next::Failed(fault) => return Some(Err(fault)),
        }
    }
}

/// Tries to accept one connection; `None` says that nobody waits to be accepted. It answers what
/// `accept` would, which then waits.
pub fn accept_now<H: TryAccept>(half: &mut H) -> Option<Result<H::T, Fault>>
    ensures trace { IsTried (λ tries. AcceptNow tries result)
        (H.tells half.old) (H.tells half.new) }
{
    accept_tries(&mut Pair::new(half, &mut NoTime))
}

// Tries to write until all is written, a try fails, or a wait would come.
fn write_tries<P: WriteTurns>(pair: &mut P, bytes: &[u8]) -> Progress
    ensures tried { IsTriedInTurn (λ events. P.went pair.old events pair.new)
        (λ tries. WriteNow bytes.now tries result) }
    ensures part { IsPartOf (length bytes.now) result }
{
    if bytes.is_empty() {
        return Progress::Whole;
    }
    let mut writing = WriteLoop::new(bytes.len());
    loop {
        match write_loop::try_once(pair, bytes, &mut writing) {
            Next::Try => {}
            Next::Wait => return Progress::Part(writing.count()),
            Next::Done(_) => return Progress::Whole,
            Next::Failed(fault) => return Progress::Failed(WriteFault {
                fault,
                count: writing.count(),
            }),
        }
    }
}

/// Tries to write all bytes, from the front; a `Part` says that the half would block before the
/// rest. Whoever goes on offers what comes after the part, so that no byte which was taken is
/// offered again.
pub fn write_now<H: TryWrite>(half: &mut H, bytes: &[u8]) -> Progress
    ensures trace { IsTried (λ tries. WriteNow bytes.now tries result)
        (H.tells half.old) (H.tells half.new) }
    ensures part { IsPartOf (length bytes.now) result }
{
    write_tries(&mut Pair::new(half, &mut NoTime), bytes)
}
