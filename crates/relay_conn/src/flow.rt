//! One way of a connection that relays.

ghost use Rattle.std.specs.Prelude.{◌≡◌};
ghost use Rattle.relay_conn.specs.Deadlines.{gives_up_at};
ghost use Rattle.relay_conn.specs.Flow.{Copies, Heads, Went, heard};

use crate::task_gate::TaskGate;
use relay_core::{Copying, Credits, FlowState, LoopMemory, Step};
use relay_facts::clock::RelayClock;
use relay_ledger::{CarriedShare, Share};
use std::marker::Model;
use std::sync::Wait;
use std::sync::ledger::Ledger;
use std::time::Clock;

/// What a way copies through.
pub(crate) type Gate<R> = TaskGate<R, RelayClock<R>>;

/// The share of a way. Where it is dropped and not taken out, it is given up.
pub(crate) struct OwnShare<L: Ledger> {
    share: Share<L>,
}

impl<L: Ledger> Model for OwnShare<L> {
    ghost use Rattle.std.specs.Prelude.{ℕ};

    ghost Value = { ℕ };

    ghost view = { λ own. own.share };
}

impl<L: Ledger> Drop for OwnShare<L> {
    fn drop(self) {
        let OwnShare { share } = self;
        share.give_up();
    }
}

impl<L: Ledger> OwnShare<L> {
    /// A way's share, from the book that opened it.
    pub(crate) fn new(carried: CarriedShare<L>) -> OwnShare<L>
        ensures { result ≡ carried }
    {
        OwnShare {
            share: carried.into_share(),
        }
    }

    /// The same for its book, which takes it back.
    pub(crate) fn back(self) -> CarriedShare<L>
        ensures { result ≡ self }
    {
        let OwnShare { share } = self;
        CarriedShare::new(share)
    }
}

/// One way: its gate, how far it came, its share of the book, and how many bytes of its source it has
/// written.
#[derive(Drop)]
pub(crate) struct Flow<L: Ledger, R: Wait + Clock + Copy> {
    pub(crate) gate: Gate<R>,
    pub(crate) copying: Copying,
    /// Whether a header is still to be written, of which the copy has the rest. No byte of its source
    /// is read before, and no byte of the header counts.
    pub(crate) heading: bool,
    pub(crate) share: OwnShare<L>,
    pub(crate) passed: u64,
}

impl<L: Ledger, R: Wait + Clock + Copy> Flow<L, R> {
    /// Has its gate know that it is resumed, or that its source was told of; `stop_ahead` is what
    /// the poller told of that.
    pub(crate) fn hear(&mut self, stop_ahead: bool)
        ensures { self.new ≡ heard self.old stop_ahead }
    {
        self.gate.resume(stop_ahead);
    }

    /// The moment at which it gives up where it stands so: that of the call that it waits for.
    pub(crate) fn gives_up_at(&self, state: FlowState) -> Option<u64>
        ensures { result ≡ gives_up_at self.now.gate.time.deadlines state }
    {
        match state {
            FlowState::Waits(dir) => self.gate.time.moment(dir),
            _ => None,
        }
    }

    /// Goes on: with its header, as long as one is to be written, and then with what its source gives.
    pub(crate) fn go_on<C: Credits<L>>(&mut self, book: &mut C, memory: &mut LoopMemory) -> Step
        ensures { Went self.old self.new result }
    {
        if self.heading {
            return self.head();
        }
        self.copy_on(book, memory)
    }

    // Offers what is left of its header, once.
    #[tactic(auto, using(crate::proofs::HeadLemmas::is_over))]
    fn head(&mut self) -> Step
        ensures heads { Heads self.old self.new result }
        ensures share { self.new.share ≡ self.old.share }
        ensures passed { self.new.passed ≡ self.old.passed }
    {
        if !self.copying.has_unwritten() {
            self.heading = false;
            return Step::Again;
        }
        match self.copying.write_front(&mut self.gate) {
            Ok(_) => {
                self.heading = self.copying.has_unwritten();
                Step::Again
            }
            Err(step) => step,
        }
    }

    // Copies.
    fn copy_on<C: Credits<L>>(&mut self, book: &mut C, memory: &mut LoopMemory) -> Step
        ensures copies { Copies self.old self.new result }
        ensures kept { self.new.heading ≡ self.old.heading }
    {
        let step = self
            .copying
            .resume(&mut self.gate, book, &mut self.share.share, memory);
        self.passed = self.share.share.amount();
        step
    }
}
