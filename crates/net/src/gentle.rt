//! A close that hears the peer out. A socket that is closed with bytes of the peer's unread has the
//! system reset the connection, and what was written last may be lost on its way to the peer.

ghost use Rattle.std.specs.Prelude.{◌≡◌, ◌⊎◌, ◌^◌, ◌-◌, ℕ, List, true, false, length, min};
ghost use Rattle.std.specs.Prelude.{OnOk, IfOk};
ghost use Rattle.std.specs.Io.{ReadsAtMost};
ghost use Rattle.std.specs.Io.KnownBytes.{Consumes, IsAtEnd, ReadConsumes};
ghost use Rattle.fd_descriptor.specs.FdHandle.{KeepsHandle};
ghost use Rattle.net.specs.Conn.{HasEnded, IsNotConnected, guard_of, handle_of, is_closed};
ghost use Rattle.net.specs.Gentle.{next_dropping};
ghost use Rattle.net.specs.declared.task.Next.{Next};
ghost use Rattle.net.specs.declared.task.Waits.{Waits};
ghost use Rattle.net.specs.Polled.{reads_block};

use crate::runs::Runs;
use crate::stream::Conn;
use crate::task::{Next, Waits};
use std::io;
use std::io::{ErrorKind, Read};
use std::time::Duration;

/// The most bytes that are read at once, to be dropped.
const DROPPED_BYTES: usize = 4_096;

// A source that is read to be dropped.
trait Dropping: Read {
    // What the first value has to do with the second still holds after each read.
    ghost keeps: { Self → Self → Type 0 };

    fn read_on(&mut self, chunk: &mut [u8]) -> io::Result<usize>
        ensures bound { ReadsAtMost result chunk.new }
        ensures bytes { ReadConsumes (Self.remaining self.old) (Self.remaining self.new)
            result chunk.new }
        ensures keeps { (first : Self) → keeps first self.old → keeps first self.new };
}

impl<R: Runs> Dropping for Conn<R> {
    ghost keeps = { λ first conn. KeepsHandle (handle_of first) (handle_of conn) };

    fn read_on(&mut self, chunk: &mut [u8]) -> io::Result<usize> {
        self.read(chunk)
    }
}

// Reads to the end, and says how many bytes came.
fn drop_to_end<S: Dropping>(source: &mut S) -> io::Result<u64>
    ensures came { IfOk result (λ count. (came : List ℕ)
        × Consumes (S.remaining source.old) (S.remaining source.new) came
        × (count ≡ min (length came) (2 ^ 64 - 1))) }
    ensures end { OnOk result (IsAtEnd (S.remaining source.new)) }
    ensures keeps { (first : S) → S.keeps first source.old → S.keeps first source.new }
{
    let mut chunk = [0; DROPPED_BYTES];
    let mut dropped: u64 = 0;
    'reads: for _ in 0..u64::MAX {
        let count = source.read_on(&mut chunk)?;
        if count == 0 {
            return Ok(dropped);
        }
        dropped = dropped.saturating_add(count as u64);
    }
    Err(ErrorKind::Other.into())
}

impl<R: Runs> Conn<R> {
    // Says that nothing more is written, and drops what comes until the peer's end.
    fn hear_out(&mut self, within: Duration) -> io::Result<u64>
        ensures keeps { KeepsHandle (handle_of self.old) (handle_of self.new) }
        ensures closed { is_closed self.old ≡ true → IsNotConnected result }
    {
        self.set_deadline(Some(within))?;
        self.close_write()?;
        drop_to_end(self)
    }

    /// Says that nothing more is written, drops what the peer still sends until its end, for so long
    /// at most, and closes the connection for all who share it. So what was written before reaches a
    /// peer that reads it. It gives how many bytes it dropped. Where the time is over, or a call
    /// fails, the connection is closed all the same, and what was written last may be lost.
    pub fn close_gently(&mut self, within: Duration) -> io::Result<u64>
        ensures keeps { KeepsHandle (handle_of self.old) (handle_of self.new) }
        ensures closed { is_closed self.old ≡ true → IsNotConnected result }
        ensures ended { OnOk result (HasEnded self.new) }
    {
        let heard = self.hear_out(within);
        let closed = self.close();
        let dropped = heard?;
        closed?;
        Ok(dropped)
    }
}

// How a task goes on that drops what comes, by what a read gave.
fn next_after(read: Option<io::Result<usize>>) -> Next
    ensures { result ≡ next_dropping read }
{
    match read {
        None => Next::Read(Waits::Forever),
        Some(Ok(0)) => Next::Over,
        Some(Ok(_)) => Next::Again,
        Some(Err(_)) => Next::Over,
    }
}

/// A close of its connection that hears the peer out, as a task has it that has nothing more to say:
/// from its first step on, its steps are all that the task does.
#[derive(Clone, Copy, Debug, PartialEq, Eq, Drop)]
pub struct GentleClose {
    within: Duration,
    begun: bool,
}

impl GentleClose {
    /// A close that takes so long at most.
    pub fn new(within: Duration) -> GentleClose
        ensures { result ≡ record { within = within; begun = false } }
    {
        GentleClose {
            within,
            begun: false,
        }
    }

    /// Goes on, whatever the cause, and says when the task does: it is over at the peer's end, once
    /// the time is over, by the connection's deadline, or where a call fails. The first step says
    /// that nothing more is written. Each reads once, and drops what it read.
    pub fn step<R: Runs>(&mut self, conn: &mut Conn<R>) -> Next
        ensures begun { self.new ≡ record { within = self.old.within; begun = true } }
        ensures guard { guard_of conn.new ≡ guard_of conn.old }
        ensures closed { is_closed conn.old ≡ true → result ≡ Next.Over }
        ensures waits { (result ≡ Next.Over) ⊎ (result ≡ Next.Again)
            ⊎ (result ≡ Next.Read Waits.Forever) × (reads_block conn.new ≡ true) }
    {
        let first = !self.begun;
        self.begun = true;
        if first && begin_close(conn, self.within).is_err() {
            return Next::Over;
        }
        next_after(conn.poll_read(&mut [0; DROPPED_BYTES]))
    }
}

// The time of a close, and its end of writes.
fn begin_close<R: Runs>(conn: &mut Conn<R>, within: Duration) -> io::Result<()>
    ensures keeps { KeepsHandle (handle_of conn.old) (handle_of conn.new) }
    ensures guard { guard_of conn.new ≡ guard_of conn.old }
{
    conn.set_deadline(Some(within))?;
    conn.close_write()
}
