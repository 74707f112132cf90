//! Halves and waits that answer by a script, and write what is done to a log which both share. They
//! tell nothing, as a socket.
ghost use Rattle.rwloops.specs.Outcome.{IsCountWithin};

use base_types::Dir;
use deadline_core::Refusal;
use rwloops::{AcceptOutcome, Outcome, TryAccept, TryRead, TryWrite, Waits};
use std::cell::Cell;

const PREPARED: u64 = 1;

const TRIED: u64 = 2;

const WAITED: u64 = 3;

// One more digit for what was done; the greatest number once they don't fit.
fn note(log: &Cell<u64>, done: u64) {
    log.set(log.get().saturating_mul(10).saturating_add(done));
}

/// Gives the outcomes of a script, each so many times in a row, and `WouldBlock` after its end.
#[derive(Drop)]
pub(super) struct ScriptedHalf<'a> {
    pub(super) script: &'static [(Outcome, u32)],
    pub(super) repeats: u32,
    pub(super) tries: u32,
    pub(super) log: &'a Cell<u64>,
}

impl ScriptedHalf<'_> {
    fn next_outcome(&mut self) -> Outcome {
        note(self.log, TRIED);
        self.tries = self.tries.saturating_add(1);
        let Some(((outcome, times), later)) = self.script.split_first() else {
            return Outcome::WouldBlock;
        };
        self.repeats = self.repeats.saturating_add(1);
        if self.repeats >= *times {
            self.script = later;
            self.repeats = 0;
        }
        *outcome
    }
}

// A count is cut to what was offered.
fn within(outcome: Outcome, offered: usize) -> Outcome
    ensures { IsCountWithin offered result }
{
    match outcome {
        Outcome::Count(count) => Outcome::Count(count.min(offered)),
        Outcome::Interrupted => Outcome::Interrupted,
        Outcome::Aborted => Outcome::Aborted,
        Outcome::WouldBlock => Outcome::WouldBlock,
        Outcome::Broken(kind) => Outcome::Broken(kind),
    }
}

impl TryRead for ScriptedHalf<'_> {
    ghost tells = { λ _ _. ⊥ };

    fn try_read(&mut self, buf: &mut [u8]) -> Outcome {
        if !buf.is_empty() {
            buf[0] = b'x';
        }
        within(self.next_outcome(), buf.len())
    }
}

impl TryWrite for ScriptedHalf<'_> {
    ghost tells = { λ _ _. ⊥ };

    fn try_write(&mut self, bytes: &[u8]) -> Outcome {
        within(self.next_outcome(), bytes.len())
    }
}

impl TryAccept for ScriptedHalf<'_> {
    type T = usize;

    ghost tells = { λ _ _. ⊥ };

    fn try_accept(&mut self) -> AcceptOutcome<usize> {
        match self.next_outcome() {
            Outcome::Count(taken) => AcceptOutcome::Took(taken),
            Outcome::Interrupted => AcceptOutcome::Interrupted,
            Outcome::Aborted => AcceptOutcome::Aborted,
            Outcome::WouldBlock => AcceptOutcome::WouldBlock,
            Outcome::Broken(kind) => AcceptOutcome::Broken(kind),
        }
    }
}

/// Grants so many calls, and refuses the next since the deadline has passed.
#[derive(Drop)]
pub(super) struct ScriptedWaits<'a> {
    pub(super) grants: u32,
    pub(super) log: &'a Cell<u64>,
}

impl ScriptedWaits<'_> {
    fn grant(&mut self, done: u64) -> Result<(), Refusal> {
        note(self.log, done);
        if self.grants == 0 {
            return Err(Refusal::DeadlineExceeded);
        }
        self.grants -= 1;
        Ok(())
    }
}

impl Waits for ScriptedWaits<'_> {
    ghost tells = { λ _ _. ⊥ };

    fn prepare(&mut self, _dir: Dir) -> Result<(), Refusal> {
        self.grant(PREPARED)
    }

    fn wait(&mut self, _dir: Dir) -> Result<(), Refusal> {
        self.grant(WAITED)
    }
}
