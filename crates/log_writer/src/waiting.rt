//! What the lock of a log keeps. Both ends take it for a few steps, and never while they write.

ghost use Rattle.std.specs.Prelude.{◌≡◌, ◌↔◌, ◌⊎◌, [], IsTrue, OnOk, OnErr, Err, true, false};
ghost use Rattle.std.specs.Prelude.{length};
ghost use Rattle.relay_log.specs.Queue.{HasRoom, TakesIn, Loses, Takes, one_more};
ghost use Rattle.log_writer.specs.Batch.{Refills, Finishes};

use crate::batch::Batch;
use crate::counts::Counts;
use relay_log::format::Format;
use relay_log::queue::{LogQueue, Lost};
use std::alloc::Allocator;

/// The lines that wait, how many there were, and whether the end was asked for.
#[derive(Drop)]
pub(crate) struct Waiting<A: Allocator> {
    queue: LogQueue<A>,
    counts: Counts,
    is_ended: bool,
}

impl<A: Allocator> Waiting<A> {
    /// Nothing waits yet, in a queue of this format.
    pub(crate) fn new(alloc: A, format: Format) -> Waiting<A>
        ensures format { result.queue.format ≡ format }
        ensures bytes { result.queue.bytes ≡ [] }
        ensures lost { result.queue.lost ≡ 0 }
        ensures pushed { result.counts.pushed ≡ 0 }
        ensures none_lost { result.counts.lost ≡ 0 }
        ensures goes_on { result.is_ended ≡ false }
    {
        Waiting {
            queue: LogQueue::new(alloc, format),
            counts: Counts::none(),
            is_ended: false,
        }
    }

    pub(crate) fn len(&self) -> usize
        ensures { result ≡ length self.now.queue.bytes }
    {
        self.queue.len()
    }

    pub(crate) fn counts(&self) -> Counts
        ensures { result ≡ self.now.counts }
    {
        self.counts
    }

    pub(crate) fn end(&mut self)
        ensures ended { self.new.is_ended ≡ true }
        ensures queue { self.new.queue ≡ self.old.queue }
        ensures counts { self.new.counts ≡ self.old.counts }
    {
        self.is_ended = true;
    }

    /// Puts a line into the queue, and counts it.
    pub(crate) fn push(&mut self, line: &[u8]) -> Result<(), Lost>
        ensures room { (result ≡ Err Lost.NoRoom) ↔ (HasRoom self.old.queue line.now → ⊥) }
        ensures queued { OnOk result (TakesIn self.old.queue self.new.queue line.now) }
        ensures lost { OnErr result (Loses self.old.queue self.new.queue) }
        ensures pushed { self.new.counts.pushed ≡ one_more self.old.counts.pushed }
        ensures kept { OnOk result (self.new.counts.lost ≡ self.old.counts.lost) }
        ensures counted { OnErr result (self.new.counts.lost ≡ one_more self.old.counts.lost) }
        ensures end { self.new.is_ended ≡ self.old.is_ended }
    {
        let pushed = self.queue.push(line);
        self.counts.count(pushed.is_err());
        pushed
    }

    /// Counts a line of which there is no text, since memory was refused.
    pub(crate) fn lose(&mut self)
        ensures lost { Loses self.old.queue self.new.queue }
        ensures pushed { self.new.counts.pushed ≡ one_more self.old.counts.pushed }
        ensures counted { self.new.counts.lost ≡ one_more self.old.counts.lost }
        ensures end { self.new.is_ended ≡ self.old.is_ended }
    {
        self.queue.lose();
        self.counts.count(true);
    }

    /// Fills a batch that is written, with what waits, and once the end was asked for with what is
    /// to be said of lost lines too. True says that the end was asked for.
    pub(crate) fn refill(&mut self, batch: &mut Batch<A>) -> bool
        ensures ended { result ≡ self.old.is_ended }
        ensures same_end { self.new.is_ended ≡ self.old.is_ended }
        ensures counts { self.new.counts ≡ self.old.counts }
        ensures goes_on { result ≡ false
            → Refills self.old.queue self.new.queue batch.old batch.new }
        ensures ends { result ≡ true
            → Finishes self.old.queue self.new.queue batch.old batch.new }
    {
        if batch.is_empty() {
            if self.is_ended {
                // Where memory is refused, the next turn tries once more.
                let _ = batch.finish(&mut self.queue);
            } else {
                batch.take(&mut self.queue);
            }
        }
        self.is_ended
    }

    /// Whether the thread may wait now, with a batch that its device doesn't take, or with none.
    pub(crate) fn may_wait(&self, has_batch: bool) -> bool
        ensures { IsTrue result ↔ (self.now.is_ended ≡ false)
            × ((has_batch ≡ true) ⊎ (self.now.queue.bytes ≡ [])) }
    {
        !self.is_ended && (has_batch || self.queue.len() == 0)
    }
}
