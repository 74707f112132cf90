//! The copy as a value that goes on when it is told to, so that one thread has many of them, and how
//! it ends.

ghost use Rattle.std.specs.Prelude.{◌≡◌, ◌<◌, ◌≤◌, [], length, take, IfOk, IfErr};
ghost use Rattle.relay_core.specs.Passing.{Bytes, IsPassing, IsPassed, IsStop};
ghost use Rattle.relay_core.specs.Passing.{next_dir, unwritten, IfWaits, IfEnded};

use crate::credits::Credits;
use crate::kept::PendingBytes;
use crate::lent::LoopMemory;
use crate::passing::{Step, close_once, offer};
use crate::poll_gate::PollGate;
use base_types::OutOfMemory;
use relay_ledger::Share;
use rwloops::{Fault, WriteFault};
use std::alloc::{Allocator, Global};
use std::marker::Model;
use std::sync::ledger::Ledger;

/// The turns of one `resume`, each a read and a write at most, after which others have theirs: so
/// one reads at most 8 times 64 KiB, half a MiB, in a row. This project's own rule. The clauses
/// below have the figure itself, so that another value is refused.
pub const TURNS_IN_A_ROW: u32 = 8;

/// How a copy ended. This project's own rule.
#[derive(Clone, Copy, Debug, PartialEq, Eq, Drop)]
pub enum Ended {
    /// The reader's end came, and `close_write` said so on the other side.
    Eof,
    /// A read failed, and not because the reader's end came.
    ReadFault(Fault),
    /// A write failed. The bytes that it took are credited.
    WriteFault(WriteFault),
    /// The reader's end came, and `close_write` failed.
    CloseFault(Fault),
    /// The book had no room for the last write: so many bytes were written and not credited.
    BookFull(u64),
}

/// A copy between two of its calls. It keeps what it read and couldn't write yet; what it reads
/// into is lent. Contracts see what it has to do next.
#[derive(Drop)]
pub struct Copying<A: Allocator = Global> {
    pub(crate) kept: PendingBytes<A>,
    pub(crate) at_end: bool,
}

impl<A: Allocator> Model for Copying<A> {
    ghost use Rattle.relay_core.specs.Passing.{Rest, rest_of};

    ghost Value = { Rest };

    ghost view = { λ c. rest_of c.at_end c.kept.bytes };
}

impl<A: Allocator> Copying<A> {
    /// A copy before its first call. What it takes more of memory later it can do without.
    pub fn new(alloc: A) -> Result<Copying<A>, OutOfMemory>
        ensures { IfOk result (λ copying. copying ≡ Bytes []) }
    {
        let kept = PendingBytes::new(alloc)?;
        Ok(Copying {
            kept,
            at_end: false,
        })
    }

    /// Goes on until the gate says "not yet", the copy ends, or others are to have their turn. The
    /// share is credited what each write reported, at once. It waits for nothing but what a credit
    /// waits for. After an end it isn't resumed.
    pub fn resume<G: PollGate, L: Ledger, C: Credits<L>>(
        &mut self,
        gate: &mut G,
        credits: &mut C,
        share: &mut Share<L>,
        memory: &mut LoopMemory<A>,
    ) -> Step
        ensures again { result ≡ Step.Again → IsPassing G.takes (G.tells gate.old)
            (G.tells gate.new) share.old share.new self.old self.new 8 8 }
        ensures waits { IfWaits result (λ _. IsPassing G.takes (G.tells gate.old)
            (G.tells gate.new) share.old share.new self.old self.new 0 8) }
        ensures blocked { IfWaits result (G.blocked gate.new) }
        ensures next { IfWaits result (λ dir. dir ≡ next_dir self.new) }
        ensures ended { IfEnded result (λ ended. IsPassed G.takes (G.tells gate.old)
            (G.tells gate.new) share.old share.new self.old ended 8) }
    {
        for _turn in 0..TURNS_IN_A_ROW {
            match self.turn(gate, credits, share, memory) {
                Ok(()) => {}
                Err(step) => return step,
            }
        }
        Step::Again
    }

    // What is to be done next.
    fn turn<G: PollGate, L: Ledger, C: Credits<L>>(
        &mut self,
        gate: &mut G,
        credits: &mut C,
        share: &mut Share<L>,
        memory: &mut LoopMemory<A>,
    ) -> Result<(), Step>
        ensures passing { IfOk result (λ _. IsPassing G.takes (G.tells gate.old) (G.tells gate.new)
            share.old share.new self.old self.new 1 1) }
        ensures stopped { IfErr result (IsStop (next_dir self.new) (G.blocked gate.new)
            (IsPassing G.takes (G.tells gate.old) (G.tells gate.new) share.old share.new
            self.old self.new 0 1)
            (λ ended. IsPassed G.takes (G.tells gate.old) (G.tells gate.new) share.old share.new
            self.old ended 1)) }
    {
        if self.at_end {
            return Err(close_once(gate));
        }
        if self.kept.is_empty() {
            return self.begin(gate, credits, share, memory);
        }
        self.go_on(gate, credits, share)
    }

    // A write of what is kept. What isn't taken stays kept.
    fn go_on<G: PollGate, L: Ledger, C: Credits<L>>(
        &mut self,
        gate: &mut G,
        credits: &mut C,
        share: &mut Share<L>,
    ) -> Result<(), Step>
        requires some { 0 < length (unwritten self.old) }
        ensures passing { IfOk result (λ _. IsPassing G.takes (G.tells gate.old) (G.tells gate.new)
            share.old share.new self.old self.new 1 0) }
        ensures stopped { IfErr result (IsStop (next_dir self.new) (G.blocked gate.new)
            (IsPassing G.takes (G.tells gate.old) (G.tells gate.new) share.old share.new
            self.old self.new 0 0)
            (λ ended. IsPassed G.takes (G.tells gate.old) (G.tells gate.new) share.old share.new
            self.old ended 0)) }
    {
        match offer(gate, credits, share, self.kept.as_slice()) {
            Ok(count) => {
                self.kept.advance(count);
                Ok(())
            }
            Err(step) => Err(step),
        }
    }

    // A read, and a write of what it gave.
    fn begin<G: PollGate, L: Ledger, C: Credits<L>>(
        &mut self,
        gate: &mut G,
        credits: &mut C,
        share: &mut Share<L>,
        memory: &mut LoopMemory<A>,
    ) -> Result<(), Step>
        requires nothing { self.old ≡ Bytes [] }
        ensures passing { IfOk result (λ _. IsPassing G.takes (G.tells gate.old) (G.tells gate.new)
            share.old share.new self.old self.new 1 1) }
        ensures stopped { IfErr result (IsStop (next_dir self.new) (G.blocked gate.new)
            (IsPassing G.takes (G.tells gate.old) (G.tells gate.new) share.old share.new
            self.old self.new 0 1)
            (λ ended. IsPassed G.takes (G.tells gate.old) (G.tells gate.new) share.old share.new
            self.old ended 1)) }
    {
        match memory.read(gate) {
            Ok(Some(count)) => self.pass(gate, credits, share, memory, count),
            Ok(None) => {
                self.at_end = true;
                Ok(())
            }
            Err(step) => Err(step),
        }
    }

    // The first write of bytes that were read. What isn't taken is kept.
    fn pass<G: PollGate, L: Ledger, C: Credits<L>>(
        &mut self,
        gate: &mut G,
        credits: &mut C,
        share: &mut Share<L>,
        memory: &mut LoopMemory<A>,
        count: usize,
    ) -> Result<(), Step>
        requires some { 0 < count }
        requires within { count ≤ length memory.old.buffer }
        requires fits { count ≤ memory.old.room }
        requires nothing { self.old ≡ Bytes [] }
        ensures passing { IfOk result (λ _. IsPassing G.takes (G.tells gate.old) (G.tells gate.new)
            share.old share.new (Bytes (take count memory.old.buffer)) self.new 1 0) }
        ensures stopped { IfErr result (IsStop (next_dir self.new) (G.blocked gate.new)
            (IsPassing G.takes (G.tells gate.old) (G.tells gate.new) share.old share.new
            (Bytes (take count memory.old.buffer)) self.new 0 0)
            (λ ended. IsPassed G.takes (G.tells gate.old) (G.tells gate.new) share.old share.new
            (Bytes (take count memory.old.buffer)) ended 0)) }
    {
        match offer(gate, credits, share, memory.first(count)) {
            Ok(taken) => {
                memory.keep(taken, count, &mut self.kept);
                Ok(())
            }
            Err(step) => {
                memory.keep(0, count, &mut self.kept);
                Err(step)
            }
        }
    }
}
