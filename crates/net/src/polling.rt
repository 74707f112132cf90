//! Reads and writes of a connection that wait for nothing from the peer, for tasks of a loop. Each has
//! its direction for the try alone, so that a close waits for no task, and other threads may read and
//! write by clones meanwhile; a try waits until theirs of its direction are over.

ghost use Rattle.std.specs.Prelude.{◌≡◌, ◌≤◌, ◌<◌, ℕ, true, false, None, Result, Err};
ghost use Rattle.std.specs.Prelude.{IfOk, IfErr, IfSome, IsSomeAnd, IsNone, is_some, not, length};
ghost use Rattle.fd_descriptor.specs.FdHandle.{KeepsHandle};
ghost use Rattle.fd_descriptor.specs.HandleCalls.{IfFailed, Reads, Writes};
ghost use Rattle.fd_descriptor.specs.Polled.{is_over};
ghost use Rattle.rwloops.specs.TryNow.{IsPartOf};
ghost use Rattle.rwloops.specs.declared.fault.Fault.{Fault};
ghost use Rattle.rwloops.specs.declared.tries.Progress.{Progress};
ghost use Rattle.net.specs.Conn.{IsNotConnected, FailsBy, IsReadAnswer, IsWriteAnswer};
ghost use Rattle.net.specs.Conn.{guard_of, handle_of, is_closed, untold_of};
ghost use Rattle.net.specs.Failures.{IsPolledFault};
ghost use Rattle.net.specs.Polled.{IsPolledWrite, reads_block, writes_block};

use crate::errors::error_with;
use crate::poll_read::PollRead;
use crate::runs::Runs;
use crate::stream::{Conn, failed_write, read_answer};
use fd_descriptor::{Dir, Fault, FdHandle, Progress, TaskReader, TaskWriter, WriteFault};
use readiness::SockRes;
use std::io;

// A read by a handle of its own, which is let go with it, or why there is none.
fn read_once<R: Runs>(
    rt: R,
    own: Result<FdHandle<SockRes>, Fault>,
    buf: &mut [u8],
) -> Option<Result<usize, Fault>>
    ensures within { IfSome result (λ answer. IfOk answer (λ count. count ≤ length buf.old)) }
    ensures some { 0 < length buf.old → IfSome result (λ answer. IfOk answer (λ count. 0 < count)) }
    ensures room { IsNone result → 0 < length buf.old }
    ensures faults { IfErr own (λ fault. fault ≡ Fault.OutOfMemory)
        → IfSome result (λ answer. IfErr answer (IsPolledFault Reads)) }
{
    match own {
        Ok(handle) => {
            let mut half = TaskReader::new(rt, handle);
            half.poll_read(buf)
        }
        Err(fault) => Some(Err(fault)),
    }
}

// A write likewise.
fn write_once<R: Runs>(rt: R, own: Result<FdHandle<SockRes>, Fault>, bytes: &[u8]) -> Progress
    ensures part { IsPartOf (length bytes.now) result }
    ensures faults { IfErr own (λ fault. fault ≡ Fault.OutOfMemory)
        → IfFailed result (λ failed. IsPolledFault Writes failed.fault) }
{
    match own {
        Ok(handle) => {
            let mut half = TaskWriter::new(rt, handle);
            half.poll_write(bytes)
        }
        Err(fault) => Progress::Failed(WriteFault { fault, count: 0 }),
    }
}

// Whether a write would have blocked before its last byte.
fn would_block(progress: &Progress) -> bool
    ensures { result ≡ not (is_over progress.now) }
{
    matches!(progress, Progress::Part(_))
}

// The answer of a write on a connection that is closed.
fn refused_write() -> io::Result<usize>
    ensures answer { IsWriteAnswer (Err (record { fault = Fault.Closed; count = 0 })) result None }
    ensures closed { IsNotConnected result }
{
    Err(error_with(Fault::Closed, None))
}

// The answer of a write that came so far, with what is left for the next one to tell.
fn polled_write(
    untold: &mut Option<Fault>,
    progress: Progress,
    offered: usize,
    code: Option<i32>,
) -> Option<io::Result<usize>>
    ensures answer { untold.old ≡ None → IsPolledWrite progress offered result untold.new }
    ensures blocks { IsNone result → is_over progress ≡ false }
{
    match progress {
        Progress::Whole => Some(Ok(offered)),
        Progress::Part(0) => None,
        Progress::Part(count) => Some(Ok(count)),
        Progress::Failed(failed) => Some(failed_write(untold, failed, code)),
    }
}

impl<R: Runs> Conn<R> {
    /// Reads what is there: so many bytes, 0 at the end, or what failed. `None` says that nothing is
    /// there yet. It knows no time but the deadline. It waits for no byte, but behind a clone's read
    /// under way, which has the direction for as long as it waits itself.
    pub fn poll_read(&mut self, buf: &mut [u8]) -> Option<io::Result<usize>>
        ensures keeps { KeepsHandle (handle_of self.old) (handle_of self.new) }
        ensures bound { IfSome result (λ read. IfOk read (λ count. count ≤ length buf.old)) }
        ensures answer { IfSome result (λ read. (told : Result ℕ Fault) × IsReadAnswer told read
            × IfErr told (IsPolledFault Reads)
            × (0 < length buf.old → IfOk told (λ count. 0 < count))) }
        ensures pending { IsNone result → (0 < length buf.old) × (is_closed self.new ≡ false) }
        ensures closed { is_closed self.old ≡ true → IsSomeAnd result IsNotConnected }
        ensures blocks { reads_block self.new ≡ not (is_some result) }
        ensures untold { untold_of self.new ≡ untold_of self.old }
        ensures guard { guard_of self.new ≡ guard_of self.old }
    {
        let guard = &*self.guard;
        self.blocked.read = false;
        if self.handle.look().closed {
            return Some(read_answer(Err(Fault::Closed), None));
        }
        let own = self.handle.share();
        let Some(told) = read_once(guard.shared.rt, own, buf) else {
            self.blocked.read = true;
            return None;
        };
        Some(read_answer(told, guard.code(Dir::Read)))
    }

    /// Writes what is taken at once: so many bytes from the front, or what failed. `None` says that
    /// none is taken yet. A fault that came after some bytes is told by the next write, as by one
    /// that waits. It waits behind a clone's write under way alone, as `poll_read` behind a read.
    pub fn poll_write(&mut self, buf: &[u8]) -> Option<io::Result<usize>>
        ensures keeps { KeepsHandle (handle_of self.old) (handle_of self.new) }
        ensures bound { IfSome result (λ written. IfOk written (λ count. count ≤ length buf.now)) }
        ensures told { IfSome (untold_of self.old) (λ fault. IsSomeAnd result (FailsBy fault)
            × (untold_of self.new ≡ None)) }
        ensures answer { untold_of self.old ≡ None → (progress : Progress)
            × IsPartOf (length buf.now) progress
            × IfFailed progress (λ failed. IsPolledFault Writes failed.fault)
            × IsPolledWrite progress (length buf.now) result (untold_of self.new) }
        ensures closed { untold_of self.old ≡ None → is_closed self.old ≡ true
            → IsSomeAnd result IsNotConnected }
        ensures pending { IsNone result → (0 < length buf.now) × (is_closed self.new ≡ false)
            × (untold_of self.old ≡ None) }
        ensures blocks { IsNone result → writes_block self.new ≡ true }
        ensures guard { guard_of self.new ≡ guard_of self.old }
    {
        let guard = &*self.guard;
        let code = guard.code(Dir::Write);
        self.blocked.write = false;
        if let Some(fault) = self.untold.take() {
            return Some(Err(error_with(fault, code)));
        }
        if self.handle.look().closed {
            return Some(refused_write());
        }
        let own = self.handle.share();
        let progress = write_once(guard.shared.rt, own, buf);
        self.blocked.write = would_block(&progress);
        polled_write(&mut self.untold, progress, buf.len(), code)
    }
}

impl<R: Runs> PollRead for Conn<R> {
    fn poll_read(&mut self, buf: &mut [u8]) -> Option<io::Result<usize>> {
        Conn::poll_read(self, buf)
    }
}
