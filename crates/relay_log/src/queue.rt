//! Lines that wait for the thread that writes them: at most 65,536 bytes. A line that finds no room
//! or no memory is lost, and the next line that finds both says how many were.
//!
//! A line goes in whole or not at all, behind what waits. Nothing in the queue is changed by a line
//! that is lost but the count of them. How many were lost is said in the format of the queue, which
//! never changes.

ghost use Rattle.std.specs.Prelude.{◌≡◌, ◌≤◌, ◌↔◌, ◌++◌, [], length, take};
ghost use Rattle.std.specs.Prelude.{OnOk, OnErr, Err};
ghost use Rattle.relay_log.specs.Queue.{HasRoom, TakesIn, Loses, Takes, IsEmpty};
ghost use Rattle.relay_log.specs.Queue.{all_text, entry_text, lost_text};

use crate::format::Format;
use base_types::OutOfMemory;
use itoa::Buffer;
use std::alloc::Allocator;
use std::marker::Model;
use std::mem;

/// The most bytes that wait at once.
pub const MOST_QUEUED_BYTES: usize = 65_536;

/// Why a line was lost.
#[derive(Clone, Copy, Debug, PartialEq, Eq, Drop)]
pub enum Lost {
    /// With it, and with what is to be said of lines lost before it, too many bytes would wait.
    NoRoom,
    /// Memory was refused.
    NoMemory,
}

/// The bytes that wait, and how many lines were lost since the last one that was taken in.
#[derive(Drop)]
pub struct LogQueue<A: Allocator> {
    format: Format,
    waiting: Vec<u8, A>,
    lost: u64,
}

impl<A: Allocator> Model for LogQueue<A> {
    ghost use Rattle.std.specs.Prelude.{◌≤◌, ◌<◌, ◌^◌, length};
    ghost use Rattle.relay_log.specs.Queue.{Queue};

    ghost Value = { Queue };

    ghost view = { λ q. record { format = q.format; bytes = q.waiting.items; lost = q.lost } };

    ghost invariant = { λ q. (length q.waiting.items ≤ 65536) × (q.lost < 2 ^ 64) };
}

impl<A: Allocator> LogQueue<A> {
    /// A queue of lines in this format, in which nothing waits and of which nothing was lost. It takes
    /// no memory.
    pub fn new(alloc: A, format: Format) -> LogQueue<A>
        ensures format { result.format ≡ format }
        ensures bytes { result.bytes ≡ [] }
        ensures lost { result.lost ≡ 0 }
    {
        LogQueue {
            format,
            waiting: Vec::new(alloc),
            lost: 0,
        }
    }

    /// How many bytes wait.
    pub fn len(&self) -> usize
        ensures value { result ≡ length self.now.bytes }
        ensures most { result ≤ 65536 }
    {
        self.waiting.len()
    }

    /// How many lines were lost since the last one that was taken in.
    pub fn lost(&self) -> u64
        ensures { result ≡ self.now.lost }
    {
        self.lost
    }

    /// Puts the line behind what waits, and ahead of it, where lines were lost, how many. Where it
    /// finds no room or no memory it is counted as lost, and nothing else changes.
    pub fn push(&mut self, line: &[u8]) -> Result<(), Lost>
        ensures room { (result ≡ Err Lost.NoRoom) ↔ (HasRoom self.old line.now → ⊥) }
        ensures queued { OnOk result (TakesIn self.old self.new line.now) }
        ensures lost { OnErr result (Loses self.old self.new) }
    {
        let room = MOST_QUEUED_BYTES - self.waiting.len();
        let said = lost_len(self.format, self.lost);
        if line.len() > room || said > room - line.len() {
            self.lose();
            return Err(Lost::NoRoom);
        }
        match write_entry(&mut self.waiting, self.format, self.lost, line) {
            Ok(()) => self.lost = 0,
            Err(_) => {
                self.lose();
                return Err(Lost::NoMemory);
            }
        }
        Ok(())
    }

    /// Counts a line as lost that no push came to, since there was no memory for its text.
    pub fn lose(&mut self)
        ensures { Loses self.old self.new }
    {
        self.lost = self.lost.saturating_add(1);
    }

    /// All that waits, in order, in place of what the vector held. The queue goes on in the
    /// vector's memory, so that none is taken and none is given up.
    pub fn take(&mut self, into: &mut Vec<u8, A>)
        ensures taken { into.new.items ≡ self.old.bytes }
        ensures left { Takes self.old self.new }
    {
        into.clear();
        mem::swap(&mut self.waiting, into);
    }

    /// All that waits, as `take`, and behind it how many lines were lost since. Where memory is
    /// refused that isn't said, and stays to be said.
    pub fn finish(&mut self, into: &mut Vec<u8, A>) -> Result<(), OutOfMemory>
        ensures finished { OnOk result (into.new.items ≡ all_text self.old) }
        ensures nothing_left { OnOk result (IsEmpty self.new) }
        ensures taken { OnErr result (into.new.items ≡ self.old.bytes) }
        ensures left { OnErr result (Takes self.old self.new) }
        ensures format { self.new.format ≡ self.old.format }
    {
        self.take(into);
        write_entry(into, self.format, self.lost, &[])?;
        self.lost = 0;
        Ok(())
    }
}

// How many bytes say that so many lines were lost.
fn lost_len(format: Format, lost: u64) -> usize
    ensures value { result ≡ length (lost_text format lost) }
    ensures most { result ≤ 30 }
{
    if lost == 0 {
        return 0;
    }
    let mut buffer = Buffer::new();
    format.before_lost().len() + buffer.format(lost).len() + format.behind_lost().len()
}

// Puts the line behind what the vector holds, and ahead of it how many lines were lost.
fn write_entry<A: Allocator>(
    into: &mut Vec<u8, A>,
    format: Format,
    lost: u64,
    line: &[u8],
) -> Result<(), OutOfMemory>
    ensures written { OnOk result
        (into.new.items ≡ into.old.items ++ entry_text format lost line.now) }
    ensures kept { OnErr result (into.new.items ≡ into.old.items) }
{
    let before = into.len();
    let wrote = write_parts(into, format, lost, line);
    if wrote.is_err() {
        into.truncate(before);
    }
    wrote
}

// The same, but for what it leaves where memory is refused: a part may stand there.
fn write_parts<A: Allocator>(
    into: &mut Vec<u8, A>,
    format: Format,
    lost: u64,
    line: &[u8],
) -> Result<(), OutOfMemory>
    ensures written { OnOk result
        (into.new.items ≡ into.old.items ++ entry_text format lost line.now) }
    ensures before { take (length into.old.items) into.new.items ≡ into.old.items }
{
    if lost > 0 {
        let mut buffer = Buffer::new();
        into.extend_from_slice(format.before_lost())?;
        into.extend_from_slice(buffer.format(lost).as_bytes())?;
        into.extend_from_slice(format.behind_lost())?;
    }
    into.extend_from_slice(line)
}
