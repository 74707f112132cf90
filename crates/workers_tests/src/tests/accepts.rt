//! Rows of accepts, by scripted listeners: how an accept worker ends and which pauses it asks for.

mod telling;

use relay_core::AcceptEnded;
use relay_workers::{AcceptGate, accept_worker};
use rwloops::{DevKind, Fault};
use std::sync::Wait;

/// Answers so many faults, the number 7, so many faults again, and that it is closed or drained.
#[derive(Drop)]
struct ScriptedListener {
    faults_before: u32,
    taken: Option<u32>,
    faults_after: u32,
    end: Fault,
    delivered: u32,
    pauses: u32,
    paused_ms: u64,
    first_pauses: [u64; 10],
}

const OTHER: Fault = Fault::Device(DevKind::Other);

impl AcceptGate for ScriptedListener {
    type T = u32;

    ghost tells = { λ _ _. ⊥ };

    fn accept(&mut self) -> Result<u32, Fault> {
        if self.faults_before > 0 {
            self.faults_before -= 1;
            return Err(OTHER);
        }
        if let Some(taken) = self.taken.take() {
            return Ok(taken);
        }
        if self.faults_after > 0 {
            self.faults_after -= 1;
            return Err(OTHER);
        }
        Err(self.end)
    }

    fn deliver(&mut self, taken: u32) {
        self.delivered = self.delivered.saturating_add(taken);
    }

    fn pause(&mut self, ms: u64) {
        if let Some(slot) = self.first_pauses.get_mut(self.pauses as usize) {
            *slot = ms;
        }
        self.pauses = self.pauses.saturating_add(1);
        self.paused_ms = self.paused_ms.saturating_add(ms);
    }
}

/// How a worker ended, the sum of what it delivered, and its pauses: their number, their sum in ms,
/// and the first.
type Course = (AcceptEnded, u32, u32, u64, [u64; 10]);

/// A row: its name, the faults before and after the number, the end of the script, and how a worker
/// goes.
const ROWS: &[(&str, (u32, u32), Fault, Course)] = &[
    // Twice: 5 ms doubled eight times, and 1 s for each of the other 1,016.
    (
        "a success ends a row of faults",
        (1_024, 1_024),
        Fault::Closed,
        (
            AcceptEnded::Closed,
            7,
            2_048,
            2 * (1_275 + 1_016_000),
            [5, 10, 20, 40, 80, 160, 320, 640, 1_000, 1_000],
        ),
    ),
    (
        "a fault too many ends it",
        (1_025, 0),
        Fault::Closed,
        (
            AcceptEnded::TooManyFaults(OTHER),
            0,
            1_024,
            1_275 + 1_016_000,
            [5, 10, 20, 40, 80, 160, 320, 640, 1_000, 1_000],
        ),
    ),
    (
        "a drain ends it at once",
        (3, 0),
        Fault::Draining,
        (
            AcceptEnded::Draining,
            7,
            3,
            35,
            [5, 10, 20, 0, 0, 0, 0, 0, 0, 0],
        ),
    ),
];

fn course_of(rt: &impl Wait, faults: (u32, u32), end: Fault) -> Course {
    let mut gate = ScriptedListener {
        faults_before: faults.0,
        taken: Some(7),
        faults_after: faults.1,
        end,
        delivered: 0,
        pauses: 0,
        paused_ms: 0,
        first_pauses: [0; 10],
    };
    let ended = accept_worker(rt, &mut gate);
    (
        ended,
        gate.delivered,
        gate.pauses,
        gate.paused_ms,
        gate.first_pauses,
    )
}

#[test]
fn an_accept_worker_ends_as_its_rows_say(rt: HostRuntime) {
    for (row, faults, end, want) in ROWS {
        let went = course_of(&rt, *faults, *end);
        assert!(rt; went == *want, "{row}: {went:?}");
    }
}
