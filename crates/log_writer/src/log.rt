//! A log: those who push lines into it, and the thread that writes them, share one.
//!
//! No wake-up is lost. The thread waits only after it has looked into the lock and found nothing
//! that it can act on, and gives the lock up no sooner than its wait has begun. A push that finds
//! the queue empty wakes it, once it has left the lock; those after it find the queue filled, and
//! the thread takes them with the first. Where a device fails, it is tried again after `PAUSE_MS`,
//! or sooner.

ghost use Rattle.std.specs.Prelude.{◌≡◌, ◌↔◌, []};
ghost use Rattle.log_writer.specs.Batch.{WritesFront};
ghost use Rattle.log_writer.specs.declared.turn.Turn.{Turn};

use crate::batch::Batch;
use crate::counts::Counts;
use crate::turn::{Next, Turn, must_wake};
use crate::waiting::Waiting;
use relay_log::format::Format;
use relay_log::line::LogLine;
use std::alloc::{Allocator, Global};
use std::io::Write;
use std::sync::atomic::{AtomicBool, Ordering};
use std::sync::{Condvar, Mutex, Wait};
use std::time::{Clock, Duration};
use stream_base::writer_sink::WriterSink;

/// How many milliseconds the thread waits at most, before it tries a device again that failed.
pub const PAUSE_MS: u64 = 1_000;

/// The queue of a log under its lock, and how its thread is woken. What is under a lock isn't known
/// outside of it, so that no clause of the calls says which lines wait or are written: `batch`,
/// `laws` and the queue's own crate say that of each step.
#[derive(Drop)]
pub struct Log<A: Allocator = Global> {
    /// How its lines are written.
    pub format: Format,
    alloc: A,
    waiting: Mutex<Waiting<A>>,
    changed: Condvar,
    is_over: AtomicBool,
}

impl<A: Allocator + Copy> Log<A> {
    /// A log of lines in this format, into which nothing was pushed. It takes no memory, and starts no
    /// thread.
    pub fn new(alloc: A, format: Format) -> Log<A>
        ensures format { result.format ≡ format }
    {
        Log {
            format,
            alloc,
            waiting: Mutex::new(Waiting::new(alloc, format)),
            changed: Condvar::new(),
            is_over: AtomicBool::new(false),
        }
    }

    /// Puts a line into the queue, from any thread, and wakes the log's thread where nothing waited
    /// before. It waits for no device: its text is made first, and the lock is held for a copy of
    /// it. A line for which there is no room or no memory is counted as lost, and the next line
    /// that is written says so. After the end was asked for, a line may be left unwritten.
    pub fn push<R: Wait>(&self, rt: &R, line: &LogLine<'_>) {
        let mut text = Vec::new(self.alloc);
        let has_text = self.format.write(line, self.alloc, &mut text).is_ok();
        let is_first = {
            let mut waiting = self.waiting.lock(rt);
            let before = waiting.len();
            if has_text {
                let _ = waiting.push(text.as_slice());
            } else {
                waiting.lose();
            }
            must_wake(before, waiting.len())
        };
        if is_first {
            self.changed.notify_one();
        }
    }

    /// How many lines were pushed and how many were lost, both at one moment.
    pub fn counts<R: Wait>(&self, rt: &R) -> Counts {
        self.waiting.lock(rt).counts()
    }

    /// Asks the thread to write what waits, and to end.
    pub fn end<R: Wait>(&self, rt: &R) {
        self.waiting.lock(rt).end();
        self.changed.notify_one();
    }

    /// Whether the thread has written its last byte.
    pub fn is_over(&self) -> bool {
        self.is_over.load(Ordering::SeqCst)
    }

    /// The work of the log's thread: writes all lines, in the order in which they were pushed, each
    /// whole, until the end is asked for and nothing waits. A device that fails is tried again from
    /// the byte at which it stopped, after `PAUSE_MS` at the latest; at the end once, and what it
    /// doesn't take then is left. A log has one such thread.
    pub fn run<R: Wait + Clock, W: Write>(&self, rt: &R, writer: &mut W) {
        let mut batch = Batch::new(self.alloc);
        for _ in rt.forever() {
            let is_ended = self.waiting.lock(rt).refill(&mut batch);
            match write(&mut batch, writer).next(is_ended) {
                Next::Again => {}
                Next::Waits => self.wait(rt, !batch.is_empty()),
                Next::Ends => break,
            }
        }
        self.is_over.store(true, Ordering::SeqCst);
    }

    // Waits until there is something to do.
    fn wait<R: Wait + Clock>(&self, rt: &R, has_batch: bool) {
        let waiting = self.waiting.lock(rt);
        if waiting.may_wait(has_batch) {
            let pause = Duration::from_millis(PAUSE_MS);
            let _ = self.changed.wait_timeout(rt, waiting, pause);
        }
    }
}

// Writes a batch as far as its device takes it.
fn write<A: Allocator, W: Write>(batch: &mut Batch<A>, writer: &mut W) -> Turn
    ensures empty { (result ≡ Turn.Empty) ↔ (batch.old ≡ []) }
    ensures front { WritesFront batch.old batch.new (W.contents writer.old) (W.contents writer.new) }
    ensures whole { result ≡ Turn.Written → batch.new ≡ [] }
{
    if batch.is_empty() {
        return Turn::Empty;
    }
    Turn::of(batch.write_on(&mut WriterSink::new(writer)))
}
