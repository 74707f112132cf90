//! An accept worker over a listener that tells its calls: its list is the one by which it ended.

ghost use Rattle.std.specs.Prelude.{◌≡◌, ◌∷◌, [], reverse, IsTrue};
ghost use Rattle.relay_core.specs.AcceptTrace.{AcceptTrace};
ghost use Rattle.workers_tests.specs.Recorded.{accept_calls_of};

use relay_core::AcceptEnded;
use relay_workers::{AcceptGate, accept_worker};
use rwloops::{DevKind, Fault};
use std::alloc::Global;
use std::sync::Wait;

/// The pause, if it is one; whether it is a delivery; what an accept answered, or what is delivered.
type Done = (Option<u64>, bool, Result<u8, Fault>);

/// Gives what is to come, then that it is closed, and tells its calls.
#[derive(Drop)]
struct TellingListener {
    comes: &'static [Result<u8, Fault>],
    /// Oldest first.
    done: Vec<Done>,
    /// Nothing is missing: memory was never refused.
    is_whole: bool,
}

impl TellingListener {
    fn keep(&mut self, done: Done)
        ensures before { IsTrue self.new.is_whole → IsTrue self.old.is_whole }
        ensures kept { IsTrue self.new.is_whole
            → reverse self.new.done.items ≡ done ∷ reverse self.old.done.items }
    {
        if self.done.push(done).is_err() {
            self.is_whole = false;
        }
    }
}

impl AcceptGate for TellingListener {
    type T = u8;

    ghost tells = { λ gate calls. IsTrue gate.is_whole → accept_calls_of gate.done.items ≡ calls };

    fn accept(&mut self) -> Result<u8, Fault> {
        let answer = match self.comes.split_first() {
            Some((answer, later)) => {
                self.comes = later;
                *answer
            }
            None => Err(Fault::Closed),
        };
        self.keep((None, false, answer));
        answer
    }

    fn deliver(&mut self, taken: u8) {
        self.keep((None, true, Ok(taken)));
    }

    fn pause(&mut self, ms: u64) {
        self.keep((Some(ms), false, Err(Fault::Closed)));
    }
}

// What the contract of an accept worker says over such a listener.
fn accepted_and_told(rt: &impl Wait, gate: &mut TellingListener) -> AcceptEnded
    requires { gate.old.done.items ≡ [] }
    ensures { IsTrue gate.new.is_whole → AcceptTrace (accept_calls_of gate.new.done.items) result }
{
    accept_worker(rt, gate)
}

const RESET: Result<u8, Fault> = Err(Fault::Device(DevKind::Reset));

/// The calls by which a worker ends that is given 4, a fault, 5 and the end, oldest first.
const DONE: &[Done] = &[
    (None, false, Ok(4)),
    (None, true, Ok(4)),
    (None, false, RESET),
    (Some(5), false, Err(Fault::Closed)),
    (None, false, Ok(5)),
    (None, true, Ok(5)),
    (None, false, Err(Fault::Closed)),
];

fn goes(rt: &impl Wait, alloc: Global) -> bool {
    let mut gate = TellingListener {
        comes: &[Ok(4), RESET, Ok(5)],
        done: Vec::new(alloc),
        is_whole: true,
    };
    let ended = accepted_and_told(rt, &mut gate);
    ended == AcceptEnded::Closed && gate.done.as_slice() == DONE
}

#[test]
fn a_worker_ends_by_the_calls_that_its_listener_tells(rt: HostRuntime) {
    assert!(rt; goes(&rt, rt.alloc()));
}
