//! An accept that is resumed over a listener which tells its calls: what was accepted is delivered,
//! in order, and the task waits only where nobody is left.

ghost use Rattle.std.specs.Prelude.{◌≡◌, [], IsTrue};
ghost use Rattle.core_tests.specs.Recorded.{accept_calls_of, accepted_in, delivered_in};

use super::super::kept::Kept;
use relay_core::laws::{accepts_join, each_is_delivered_in_order};
use relay_core::{AcceptEnded, AcceptStep, Accepting, PollAcceptGate};
use rwloops::{DevKind, Fault};
use std::alloc::Global;

/// Whether it is a delivery, and what was delivered, or what an accept answered.
type Done = (bool, Result<u8, Fault>);

/// Gives who waits, and tells its calls.
#[derive(Drop)]
struct TellingListener {
    waiting: &'static [Result<u8, Fault>],
    kept: Kept<Done>,
}

impl PollAcceptGate for TellingListener {
    type T = u8;

    ghost tells = { λ gate calls. IsTrue gate.kept.is_whole
        → accept_calls_of gate.kept.all.items ≡ calls };

    // It says "not yet" only once nobody waits.
    ghost blocked = { λ gate. gate.waiting.now ≡ [] };

    fn poll_accept(&mut self) -> Option<Result<u8, Fault>> {
        let (answer, later) = self.waiting.split_first()?;
        self.waiting = later;
        self.kept.keep((false, *answer));
        Some(*answer)
    }

    fn deliver(&mut self, taken: u8) {
        self.kept.keep((true, Ok(taken)));
    }
}

// What the contract of an accept that is resumed says over such a listener: where all that came so
// far was delivered, in order, it is so after the turn.
fn resumed_and_delivered(accepting: &mut Accepting, gate: &mut TellingListener) -> AcceptStep
    requires { delivered_in (accept_calls_of gate.old.kept.all.items)
        ≡ accepted_in (accept_calls_of gate.old.kept.all.items) }
    ensures delivered { IsTrue gate.new.kept.is_whole
        → delivered_in (accept_calls_of gate.new.kept.all.items)
        ≡ accepted_in (accept_calls_of gate.new.kept.all.items) }
    ensures waits { result ≡ AcceptStep.Waits → gate.new.waiting.now ≡ [] }
{
    accepting.resume(gate)
}

/// Who waits, the step of a turn over them, and the calls of that turn, oldest first.
struct Row(
    &'static str,
    &'static [Result<u8, Fault>],
    AcceptStep,
    &'static [Done],
);

const RESET: Result<u8, Fault> = Err(Fault::Device(DevKind::Reset));

const ROWS: &[Row] = &[
    Row(
        "nobody is left",
        &[Ok(4), Ok(5)],
        AcceptStep::Waits,
        &[(false, Ok(4)), (true, Ok(4)), (false, Ok(5)), (true, Ok(5))],
    ),
    Row(
        "a fault after one",
        &[Ok(4), RESET, Ok(5)],
        AcceptStep::Pauses(5),
        &[(false, Ok(4)), (true, Ok(4)), (false, RESET)],
    ),
    Row(
        "closed at once",
        &[Err(Fault::Closed), Ok(4)],
        AcceptStep::Ended(AcceptEnded::Closed),
        &[(false, Err(Fault::Closed))],
    ),
];

/// Whether a turn goes as its row says.
fn goes(alloc: Global, row: &Row) -> bool {
    let Row(_, waiting, step, calls) = row;
    let mut gate = TellingListener {
        waiting,
        kept: Kept::new(alloc),
    };
    let mut accepting = Accepting::new();
    let went = resumed_and_delivered(&mut accepting, &mut gate);
    went == *step && gate.kept.all.as_slice() == *calls
}

#[test]
fn what_a_telling_listener_gave_is_delivered(rt: HostRuntime) {
    accepts_join::<TellingListener>();
    each_is_delivered_in_order::<u8>();
    for row in ROWS {
        assert!(rt; goes(rt.alloc(), row), "{}", row.0);
    }
}
