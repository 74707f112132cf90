//! What was taken out of a log's queue, and of which a front may be written already.

ghost use Rattle.std.specs.Prelude.{◌≡◌, ◌↔◌, ◌≤◌, ◌<◌, [], IsTrue, OnOk, OnErr, Err};
ghost use Rattle.std.specs.Prelude.{length, take};
ghost use Rattle.std.specs.Io.KnownBytes.{Appends};
ghost use Rattle.stream_base.specs.declared.attempt.AttemptError.{AttemptError};
ghost use Rattle.relay_log.specs.Queue.{Takes, IsEmpty, all_text};
ghost use Rattle.log_writer.specs.Batch.{WritesFront, TookNoMore};

use base_types::OutOfMemory;
use relay_log::queue::LogQueue;
use std::alloc::Allocator;
use std::marker::Model;
use stream_base::attempt::AttemptError;
use stream_base::sink::Sink;

/// Bytes for the device. Contracts see those that are still to be written.
#[derive(Drop)]
pub struct Batch<A: Allocator> {
    taken: Vec<u8, A>,
    written: usize,
}

impl<A: Allocator> Model for Batch<A> {
    ghost use Rattle.std.specs.Prelude.{◌≤◌, ℕ, List, drop, length};

    ghost Value = { List ℕ };

    ghost view = { λ b. drop b.written b.taken.items };

    ghost invariant = { λ b. b.written ≤ length b.taken.items };
}

impl<A: Allocator> Batch<A> {
    /// A batch of nothing. It takes no memory.
    pub fn new(alloc: A) -> Batch<A>
        ensures { result ≡ [] }
    {
        Batch {
            taken: Vec::new(alloc),
            written: 0,
        }
    }

    /// Whether all of it is written.
    pub fn is_empty(&self) -> bool
        ensures { IsTrue result ↔ (self.now ≡ []) }
    {
        let taken = self.taken.as_slice();
        self.written == taken.len()
    }

    /// All that waits in the queue, in place of what was written.
    pub fn take(&mut self, queue: &mut LogQueue<A>)
        requires written { self.old ≡ [] }
        ensures taken { self.new ≡ queue.old.bytes }
        ensures left { Takes queue.old queue.new }
    {
        queue.take(&mut self.taken);
        self.written = 0;
    }

    /// All that waits, as `take`, and behind it how many lines were lost since. Where memory is
    /// refused that stays to be said.
    pub fn finish(&mut self, queue: &mut LogQueue<A>) -> Result<(), OutOfMemory>
        requires written { self.old ≡ [] }
        ensures finished { OnOk result (self.new ≡ all_text queue.old) }
        ensures nothing_left { OnOk result (IsEmpty queue.new) }
        ensures taken { OnErr result (self.new ≡ queue.old.bytes) }
        ensures left { OnErr result (Takes queue.old queue.new) }
    {
        let finished = queue.finish(&mut self.taken);
        self.written = 0;
        finished
    }

    /// Writes as much as the sink takes, and flushes it once all is written. What it doesn't take
    /// is left, from the very byte at which it stopped.
    pub fn write_on<K: Sink>(&mut self, sink: &mut K) -> Result<(), AttemptError>
        ensures whole { OnOk result (self.new ≡ []) }
        ensures front { WritesFront self.old self.new (K.contents sink.old) (K.contents sink.new) }
        ensures flushed { OnOk result (IsTrue (K.flushed sink.new)) }
        ensures interrupted { result ≡ Err AttemptError.Interrupted → 0 < K.interruptions sink.new }
        ensures failed { result ≡ Err AttemptError.Failed
            → TookNoMore (K.failed sink.new) (K.took_nothing sink.new) }
        ensures same { K.stays sink.old sink.new }
    {
        let (count, wrote) = write_front(sink, &self.taken.as_slice()[self.written..]);
        self.written += count;
        wrote?;
        sink.try_flush()
    }
}

// Writes a front of the text: so many bytes, all of them unless the sink was interrupted or took no
// more.
fn write_front<K: Sink>(sink: &mut K, text: &[u8]) -> (usize, Result<(), AttemptError>)
    ensures within { result.0 ≤ length text.now }
    ensures bytes { Appends (K.contents sink.old) (K.contents sink.new) (take result.0 text.now) }
    ensures whole { OnOk result.1 (result.0 ≡ length text.now) }
    ensures interrupted { result.1 ≡ Err AttemptError.Interrupted → 0 < K.interruptions sink.new }
    ensures failed { result.1 ≡ Err AttemptError.Failed
        → TookNoMore (K.failed sink.new) (K.took_nothing sink.new) }
    ensures same { K.stays sink.old sink.new }
{
    let mut at = 0;
    while at < text.len() {
        match sink.try_write(&text[at..]) {
            Ok(0) => return (at, Err(AttemptError::Failed)),
            Ok(count) => at += count,
            Err(error) => return (at, Err(error)),
        }
    }
    (at, Ok(()))
}
