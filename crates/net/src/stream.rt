//! A connection: a reader and a writer of the standard library, with times, and a close that all
//! who share it hear.

ghost use Rattle.std.specs.Prelude.{◌≡◌, ◌≤◌, ◌<◌, ℕ, true, None, Some, IfOk, IfErr, IfSome};
ghost use Rattle.std.specs.Prelude.{OnOk, Ok, Err, Result, is_some, length};
ghost use Rattle.std.specs.Io.{ReadsAtMost, WritesAtMost};
ghost use Rattle.std.specs.Io.KnownBytes.{ReadConsumes, WriteAppends};
ghost use Rattle.fd_descriptor.specs.FdHandle.{KeepsHandle, descriptor_of, marks_of};
ghost use Rattle.fd_descriptor.specs.HandleCalls.{Closes, SetsDeadline, Shuts, TimedReads, TimedWrites};
ghost use Rattle.rwloops.specs.declared.fault.Fault.{Fault};
ghost use Rattle.rwloops.specs.declared.fault.WriteFault.{WriteFault};
ghost use Rattle.net.specs.Conn.{IsNotConnected, FailsBy, IsReadAnswer, IsWriteAnswer};
ghost use Rattle.net.specs.Conn.{HasEnded, guard_of, handle_of, has_task, is_closed, untold_of};
ghost use Rattle.net.specs.Failures.{FailsAs, FailsForMemory, IsFaultOf};
ghost use Rattle.net.specs.SocketCloser.{closes};

use crate::closer::ServiceCloser;
use crate::errors::{error_with, told};
use crate::guard::Guard;
use crate::runs::Runs;
use crate::socket_closer::SocketCloser;
use crate::task::Blocked;
use crate::timing::{DirTimes, arm, arm_both};
use fd_descriptor::{Dir, Fault, FdHandle, WriteFault};
use readiness::{Addr, SockRes};
use std::io;
use std::io::{Read, Write};
use std::sync::Arc;
use std::time::Duration;

/// A connection. Any number of threads may share one, each by a clone of its own; when the last
/// clone is let go, the connection is closed.
#[derive(Drop)]
pub struct Conn<R: Runs> {
    pub(crate) handle: FdHandle<SockRes>,
    // The fault of a write that was cut off after some bytes, which the next one tells.
    pub(crate) untold: Option<Fault>,
    // Of this clone's calls that don't wait.
    pub(crate) blocked: Blocked,
    pub(crate) guard: Arc<Guard<R>>,
}

impl<R: Runs> Conn<R> {
    /// Another owner of this connection, for another thread.
    pub fn try_clone(&mut self) -> io::Result<Conn<R>>
        ensures kept { marks_of (handle_of self.new) ≡ marks_of (handle_of self.old) }
        ensures same { IfOk result (λ other.
            descriptor_of (handle_of other) ≡ descriptor_of (handle_of self.old)) }
        ensures seen { IfOk result (λ other. is_closed other ≡ is_closed self.old) }
        ensures untold { IfOk result (λ other. untold_of other ≡ None) }
        ensures guard { IfOk result (λ other. guard_of other ≡ guard_of self.old) }
        ensures fails { FailsForMemory result }
    {
        let handle = told(self.handle.share(), None)?;
        let guard = Arc::try_clone(&self.guard)?;
        Ok(Conn {
            handle,
            untold: None,
            blocked: Blocked::none(),
            guard,
        })
    }

    /// Has all calls give up after so long from now, those that wait now too, for all who share the
    /// connection; with `None` none does. Reads come first: where an alarm is refused memory, reads
    /// may have the new deadline, and writes the one of before.
    pub fn set_deadline(&mut self, time: Option<Duration>) -> io::Result<()>
        ensures guard { guard_of self.new ≡ guard_of self.old }
        ensures keeps { KeepsHandle (handle_of self.old) (handle_of self.new) }
        ensures closed { is_closed self.old ≡ true → IsNotConnected result }
        ensures fails { FailsAs SetsDeadline result }
        ensures untold { untold_of self.new ≡ untold_of self.old }
    {
        let shared = &*self.guard.shared;
        let mut limits = self.guard.limits.lock(&shared.rt);
        let now = shared.now();
        let before = *limits;
        let next = before.with_until(time, now);
        *limits = next;
        told(arm_both(&self.guard, &mut self.handle, next, now), None)
    }

    // Has each call of a direction give up after so long.
    fn set_time(&mut self, dir: Dir, time: Option<Duration>) -> io::Result<()>
        ensures keeps { KeepsHandle (handle_of self.old) (handle_of self.new) }
        ensures closed { is_closed self.old ≡ true → IsNotConnected result }
        ensures fails { FailsAs SetsDeadline result }
        ensures untold { untold_of self.new ≡ untold_of self.old }
    {
        let shared = &*self.guard.shared;
        let mut limits = self.guard.limits.lock(&shared.rt);
        let now = shared.now();
        let before = *limits;
        let next = before.with_time(dir, time, now);
        *limits = next;
        told(
            arm(&self.guard, &mut self.handle, dir, next.until(dir), now),
            None,
        )
    }

    /// Has each read give up after so long, for all who share the connection. One that waits now
    /// has so long from now.
    pub fn set_read_timeout(&mut self, time: Option<Duration>) -> io::Result<()>
        ensures keeps { KeepsHandle (handle_of self.old) (handle_of self.new) }
        ensures closed { is_closed self.old ≡ true → IsNotConnected result }
        ensures fails { FailsAs SetsDeadline result }
        ensures untold { untold_of self.new ≡ untold_of self.old }
    {
        self.set_time(Dir::Read, time)
    }

    /// Has each write give up after so long, as `set_read_timeout` each read.
    pub fn set_write_timeout(&mut self, time: Option<Duration>) -> io::Result<()>
        ensures keeps { KeepsHandle (handle_of self.old) (handle_of self.new) }
        ensures closed { is_closed self.old ≡ true → IsNotConnected result }
        ensures fails { FailsAs SetsDeadline result }
        ensures untold { untold_of self.new ≡ untold_of self.old }
    {
        self.set_time(Dir::Write, time)
    }

    /// Says that nothing more is written: the peer reads to the end.
    pub fn close_write(&mut self) -> io::Result<()>
        ensures keeps { KeepsHandle (handle_of self.old) (handle_of self.new) }
        ensures closed { is_closed self.old ≡ true → IsNotConnected result }
        ensures fails { FailsAs Shuts result }
        ensures untold { untold_of self.new ≡ untold_of self.old }
        ensures guard { guard_of self.new ≡ guard_of self.old }
    {
        let guard = &*self.guard;
        let shut = self.handle.close_write(&guard.shared.rt);
        told(shut, guard.code(Dir::Write))
    }

    /// Closes the connection for all who share it: their calls that wait end, and each further one
    /// is `NotConnected`.
    pub fn close(&mut self) -> io::Result<()>
        ensures keeps { KeepsHandle (handle_of self.old) (handle_of self.new) }
        ensures closed { is_closed self.old ≡ true → IsNotConnected result }
        ensures fails { FailsAs Closes result }
        ensures ended { OnOk result (HasEnded self.new) }
        ensures untold { untold_of self.new ≡ untold_of self.old }
        ensures guard { guard_of self.new ≡ guard_of self.old }
    {
        let shared = &*self.guard.shared;
        let (_, entry) = shared.take(self.guard.id);
        let closed = told(self.handle.close(&shared.rt), None);
        if let Some(entry) = entry {
            entry.tell_task(&shared.rt);
        }
        closed
    }

    /// A handle that closes it, for other threads, which may do so while it reads and writes.
    pub fn socket_closer(&self) -> io::Result<SocketCloser<R>>
        ensures own { IfOk result (λ closer. closes closer ≡ (guard_of self.now).id) }
        ensures fails { FailsForMemory result }
    {
        SocketCloser::of(&self.guard.shared, self.guard.id)
    }

    /// Has the connection's task go on, as `Cause::Ready`, and says whether it is of a service, which
    /// has one for it. Any thread may, by any clone, also a step of another task; what the task is to
    /// see then has to be there before. One that is over is passed over.
    pub fn wake(&self) -> bool
        ensures { result ≡ has_task self.now }
    {
        let guard = &*self.guard;
        match &guard.link {
            Some(link) => {
                link.seat.tell(&guard.shared.rt);
                true
            }
            None => false,
        }
    }

    /// What ends the service that has a task for the connection, if one has. Any thread may take it of
    /// any clone, also a step of the task itself.
    pub fn closer(&self) -> Option<&ServiceCloser<R>>
        ensures { is_some result ≡ has_task self.now }
    {
        match &self.guard.link {
            Some(link) => Some(&link.closer),
            None => None,
        }
    }

    /// Who is at the other end: where it connected to, or whom the listener's accept told.
    pub fn peer_addr(&self) -> Option<Addr>
        ensures { result ≡ (guard_of self.now).peer }
    {
        self.guard.peer
    }

    /// This end's address. A Unix connection that was not accepted has none.
    pub fn local_addr(&self) -> Option<Addr>
        ensures { result ≡ (guard_of self.now).local }
    {
        self.guard.local
    }
}

/// What a read answers, by what its handle was answered.
pub(crate) fn read_answer(told: Result<usize, Fault>, code: Option<i32>) -> io::Result<usize>
    ensures answer { IsReadAnswer told result }
{
    match told {
        Ok(count) => Ok(count),
        Err(Fault::EndOfFile) => Ok(0),
        Err(fault) => Err(error_with(fault, code)),
    }
}

/// What a write answers that failed, with what is left for the next one to tell.
pub(crate) fn failed_write(
    untold: &mut Option<Fault>,
    failed: WriteFault,
    code: Option<i32>,
) -> io::Result<usize>
    ensures answer { untold.old ≡ None → IsWriteAnswer (Err failed) result untold.new }
{
    if failed.count == 0 {
        return Err(error_with(failed.fault, code));
    }
    *untold = Some(failed.fault);
    Ok(failed.count)
}

impl<R: Runs> Read for Conn<R> {
    /// Waits for at least one byte, for the end, or for what ends the wait: a close, its time, or a
    /// fault of the device.
    fn read(&mut self, buf: &mut [u8]) -> io::Result<usize>
        ensures bound { ReadsAtMost result buf.new }
        ensures bytes { ReadConsumes None None result buf.new }
        ensures keeps { KeepsHandle (handle_of self.old) (handle_of self.new) }
        ensures answer { (told : Result ℕ Fault) × IsReadAnswer told result
            × IfErr told (IsFaultOf TimedReads)
            × (0 < length buf.old → IfOk told (λ count. 0 < count)) }
        ensures closed { is_closed self.old ≡ true → IsNotConnected result }
        ensures untold { untold_of self.new ≡ untold_of self.old }
    {
        let guard = &*self.guard;
        let dir = Dir::Read;
        let read = self
            .handle
            .read_timed(&guard.shared.rt, buf, &DirTimes { guard, dir });
        read_answer(read, guard.code(dir))
    }
}

impl<R: Runs> Write for Conn<R> {
    /// Waits until all bytes are taken, or until what ends the wait. Bytes that were taken before
    /// that count, and the next write tells it, which then writes nothing.
    // (`handle_io`'s writer does the same over a handle of its own, without times and numbers)
    fn write(&mut self, buf: &[u8]) -> io::Result<usize>
        ensures bound { WritesAtMost result buf.now }
        ensures bytes { WriteAppends None None result buf.now }
        ensures keeps { KeepsHandle (handle_of self.old) (handle_of self.new) }
        ensures told { IfSome (untold_of self.old) (λ fault. FailsBy fault result
            × (untold_of self.new ≡ None) × (handle_of self.new ≡ handle_of self.old)) }
        ensures answer { untold_of self.old ≡ None → (told : Result ℕ WriteFault)
            × IfOk told (λ count. count ≡ length buf.now)
            × IfErr told (λ failed. IsFaultOf TimedWrites failed.fault)
            × IsWriteAnswer told result (untold_of self.new) }
        ensures closed { untold_of self.old ≡ None → is_closed self.old ≡ true
            → IsNotConnected result }
    {
        let guard = &*self.guard;
        let dir = Dir::Write;
        if let Some(fault) = self.untold.take() {
            return Err(error_with(fault, guard.code(dir)));
        }
        let times = DirTimes { guard, dir };
        match self.handle.write_timed(&guard.shared.rt, buf, &times) {
            Ok(count) => Ok(count),
            Err(failed) => failed_write(&mut self.untold, failed, guard.code(dir)),
        }
    }

    /// Nothing is held back, so there is nothing to do.
    fn flush(&mut self) -> io::Result<()>
        ensures done { result ≡ Ok tt }
        ensures same { self.new ≡ self.old }
    {
        Ok(())
    }
}
