//! What a copy begins with: bytes that nobody gave it to copy, as a header. They go before all that it
//! reads, and no share is there to count them.

ghost use Rattle.std.specs.Prelude.{◌≡◌, ◌<◌, ◌≤◌, ◌↔◌, ℕ, true, length, drop, IfOk, IfErr, OnErr};
ghost use Rattle.base_types.specs.declared.direction.Dir.{Dir};
ghost use Rattle.relay_core.specs.Passing.{Bytes, IsPassed, IsPassing, IsStop, next_dir, unwritten};

use crate::copying::{Copying, Ended};
use crate::passing::Step;
use crate::poll_gate::PollGate;
use base_types::Dir;
use std::alloc::Allocator;

// Offers bytes once that count in no share, and gives how many were taken.
fn offer_uncounted<G: PollGate>(gate: &mut G, bytes: &[u8]) -> Result<usize, Step>
    requires some { 0 < length bytes.now }
    ensures within { IfOk result (λ count. count ≤ length bytes.now) }
    ensures rest { IfOk result (λ count. IsPassing G.takes (G.tells gate.old) (G.tells gate.new)
        0 count (Bytes bytes.now) (Bytes (drop count bytes.now)) 1 0) }
    ensures stopped { IfErr result (IsStop Dir.Write (G.blocked gate.new)
        (IsPassing G.takes (G.tells gate.old) (G.tells gate.new) 0 0 (Bytes bytes.now)
        (Bytes bytes.now) 0 0)
        (λ ended. (count : ℕ) × IsPassed G.takes (G.tells gate.old) (G.tells gate.new) 0 count
        (Bytes bytes.now) ended 0)) }
{
    match gate.poll_write(bytes) {
        None => Err(Step::Waits(Dir::Write)),
        Some(Ok(count)) => Ok(count),
        Some(Err(failed)) => Err(Step::Ended(Ended::WriteFault(failed))),
    }
}

impl<A: Allocator> Copying<A> {
    /// It begins with these bytes, in the room that each copy has of its own, and with nothing else.
    pub fn begin_with(&mut self, bytes: &[u8])
        requires fits { length bytes.now ≤ 256 }
        ensures { self.new ≡ Bytes bytes.now }
    {
        if self.kept.room() < bytes.len() {
            unreachable!();
        }
        self.at_end = false;
        self.kept.keep(bytes);
    }

    /// Whether bytes are left that it has to write.
    pub fn has_unwritten(&self) -> bool
        ensures { result ≡ true ↔ 0 < length (unwritten self.now) }
    {
        !self.at_end && !self.kept.is_empty()
    }

    /// Offers what is left of the bytes that it began with, once, and gives how many were taken. No
    /// share is credited.
    pub fn write_front<G: PollGate>(&mut self, gate: &mut G) -> Result<usize, Step>
        requires some { 0 < length (unwritten self.old) }
        ensures passing { IfOk result (λ count. IsPassing G.takes (G.tells gate.old)
            (G.tells gate.new) 0 count self.old self.new 1 0) }
        ensures stopped { IfErr result (IsStop (next_dir self.new) (G.blocked gate.new)
            (IsPassing G.takes (G.tells gate.old) (G.tells gate.new) 0 0 self.old self.new 0 0)
            (λ ended. (count : ℕ) × IsPassed G.takes (G.tells gate.old) (G.tells gate.new) 0 count
            self.old ended 0)) }
        ensures kept { OnErr result (self.new ≡ self.old) }
    {
        match offer_uncounted(gate, self.kept.as_slice()) {
            Ok(count) => {
                self.kept.advance(count);
                Ok(count)
            }
            Err(step) => Err(step),
        }
    }
}
