//! Rows of an accept that is resumed over a listener which says "not yet".
mod telling;

ghost use Rattle.std.specs.Prelude.{⊤};

use relay_core::laws::{accepts_join, each_is_delivered_in_order};
use relay_core::{ACCEPTS_IN_A_ROW, AcceptEnded, AcceptStep, Accepting, PollAcceptGate};
use rwloops::{DevKind, Fault};

/// Gives numbers, "not yet" and faults by a script, and that it is closed after its end.
#[derive(Drop)]
struct PacedListener {
    script: &'static [Option<Result<u32, Fault>>],
    delivered: u32,
    sum: u32,
}

impl PollAcceptGate for PacedListener {
    type T = u32;

    ghost tells = { λ _ _. ⊥ };

    ghost blocked = { λ _. ⊤ };

    fn poll_accept(&mut self) -> Option<Result<u32, Fault>> {
        let Some((answer, later)) = self.script.split_first() else {
            return Some(Err(Fault::Closed));
        };
        self.script = later;
        *answer
    }

    fn deliver(&mut self, taken: u32) {
        self.delivered = self.delivered.saturating_add(1);
        self.sum = self.sum.saturating_add(taken);
    }
}

const RESET: Option<Result<u32, Fault>> = Some(Err(Fault::Device(DevKind::Reset)));

type Script = &'static [Option<Result<u32, Fault>>];

/// A row: its name, the script, and each turn: its answer, how many were delivered by then, and
/// their sum.
const TURNS: &[(&str, Script, &[(AcceptStep, u32, u32)])] = &[
    // "Not yet" is no end of a row of faults.
    (
        "accepts go on where they waited",
        &[
            Some(Ok(1)),
            Some(Ok(2)),
            None,
            RESET,
            RESET,
            None,
            RESET,
            Some(Ok(4)),
            RESET,
            Some(Err(Fault::Draining)),
        ],
        &[
            (AcceptStep::Waits, 2, 3),
            (AcceptStep::Pauses(5), 2, 3),
            (AcceptStep::Pauses(10), 2, 3),
            (AcceptStep::Waits, 2, 3),
            (AcceptStep::Pauses(20), 2, 3),
            (AcceptStep::Pauses(5), 3, 7),
            (AcceptStep::Ended(AcceptEnded::Draining), 3, 7),
        ],
    ),
    (
        "many accepts give others their turn",
        &[Some(Ok(1)); 70],
        &[
            (AcceptStep::Again, 64, 64),
            (AcceptStep::Ended(AcceptEnded::Closed), 70, 70),
        ],
    ),
];

/// The turn whose answer or count is another, where one is.
fn other_turn(script: Script, turns: &[(AcceptStep, u32, u32)]) -> Option<usize> {
    let mut gate = PacedListener {
        script,
        delivered: 0,
        sum: 0,
    };
    let mut accepting = Accepting::new();
    for (at, turn) in turns.iter().enumerate() {
        let step = accepting.resume(&mut gate);
        if (step, gate.delivered, gate.sum) != *turn {
            return Some(at);
        }
    }
    None
}

#[test]
fn a_resumed_accept_answers_as_its_rows_say(rt: HostRuntime) {
    accepts_join::<PacedListener>();
    each_is_delivered_in_order::<u32>();
    assert!(rt; ACCEPTS_IN_A_ROW == 64);
    for (row, script, turns) in TURNS {
        let other = other_turn(script, turns);
        assert!(rt; other.is_none(), "{row}: turn {other:?}");
    }
}
