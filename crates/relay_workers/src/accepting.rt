//! The worker that accepts: it delivers what it accepted, and waits between faults.

ghost use Rattle.std.specs.Prelude.{List, ◌∷◌};
ghost use Rattle.relay_core.specs.AcceptTrace.{AcceptCall, Accepted, Delivered, Paused};
ghost use Rattle.relay_core.specs.AcceptTrace.{IsAccepting};

use relay_core::{AcceptEnded, AcceptStep, Accepting};
use rwloops::Fault;
use std::sync::Wait;

/// Where a worker accepts, and to whom it delivers.
pub trait AcceptGate {
    /// What is accepted.
    type T;

    /// This list is told: each call so far with its answer, newest first.
    ghost tells: { Self → List (AcceptCall Self.T) → Type 0 };

    /// Accepts one, or says why it can't.
    fn accept(&mut self) -> Result<Self::T, Fault>
        ensures told { (calls : List (AcceptCall Self.T)) → tells self.old calls
            → tells self.new (Accepted result ∷ calls) };

    /// Hands on what was accepted.
    fn deliver(&mut self, taken: Self::T)
        ensures told { (calls : List (AcceptCall Self.T)) → tells self.old calls
            → tells self.new (Delivered taken ∷ calls) };

    /// Waits so many milliseconds before the next accept.
    fn pause(&mut self, ms: u64)
        ensures told { (calls : List (AcceptCall Self.T)) → tells self.old calls
            → tells self.new (Paused ms ∷ calls) };
}

/// Accepts and delivers until the listener is closed or drained. After another fault it pauses and
/// accepts again, at most `MAX_FAULTS_IN_A_ROW` times in a row.
pub fn accept_worker<G: AcceptGate>(rt: &impl Wait, gate: &mut G) -> AcceptEnded
    ensures { IsAccepting (G.tells gate.old) (G.tells gate.new) result }
{
    let mut accepting = Accepting::new();
    for _ in rt.forever() {
        match gate.accept() {
            Ok(taken) => {
                accepting = Accepting::new();
                gate.deliver(taken);
            }
            Err(fault) => match accepting.after_fault(fault) {
                AcceptStep::Pauses(ms) => gate.pause(ms),
                AcceptStep::Ended(ended) => return ended,
                AcceptStep::Again | AcceptStep::Waits => unreachable!(),
            },
        }
    }
    unreachable!()
}
