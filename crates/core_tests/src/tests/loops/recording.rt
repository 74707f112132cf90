//! Halves and waits that answer by a script, and tell what they were asked.

ghost use Rattle.std.specs.Prelude.{◌≡◌, reverse, IsTrue};
ghost use Rattle.rwloops.specs.WriteTrace.{taken_bytes};
ghost use Rattle.core_tests.specs.Recorded.{read_tries_of, wait_calls_of};

use super::super::kept::Kept;
use base_types::Dir;
use deadline_core::Refusal;
use rwloops::{AcceptOutcome, DevKind, Outcome, TryAccept, TryRead, TryWrite, Waits};

/// What a try is to come to.
#[derive(Clone, Copy)]
pub(super) enum Comes {
    /// It gives this byte, takes so many, or takes this connection.
    To(u8),
    /// It gives or takes nothing.
    ToNothing,
    ToSignal,
    ToBlock,
}

/// The script goes on; after its end each try blocks.
fn next(script: &mut &'static [Comes]) -> Comes {
    let Some((first, later)) = script.split_first() else {
        return Comes::ToBlock;
    };
    *script = later;
    *first
}

/// A try to read: its room, the byte that it gave, if it gave one, and its outcome.
pub(super) type ReadDone = (usize, Option<u8>, Outcome);

/// Gives one byte at a time, and tells its tries.
#[derive(Drop)]
pub(super) struct Giving {
    pub(super) script: &'static [Comes],
    pub(super) kept: Kept<ReadDone>,
}

impl TryRead for Giving {
    ghost tells = { λ half tries. IsTrue half.kept.is_whole
        → read_tries_of half.kept.all.items ≡ tries };

    fn try_read(&mut self, buf: &mut [u8]) -> Outcome {
        let room = buf.len();
        let (gave, outcome) = match (next(&mut self.script), buf.first_mut()) {
            (Comes::To(byte), Some(first)) => {
                *first = byte;
                (Some(byte), Outcome::Count(1))
            }
            (Comes::ToSignal, _) => (None, Outcome::Interrupted),
            (Comes::ToBlock, _) => (None, Outcome::WouldBlock),
            _ => (None, Outcome::Count(0)),
        };
        self.kept.keep((room, gave, outcome));
        outcome
    }
}

/// Takes so many bytes of each try, and tells which bytes it took.
#[derive(Drop)]
pub(super) struct Taking {
    pub(super) script: &'static [Comes],
    pub(super) taken: Vec<u8>,
}

impl TryWrite for Taking {
    ghost tells = { λ half tries. half.taken.items ≡ taken_bytes tries };

    fn try_write(&mut self, bytes: &[u8]) -> Outcome {
        match next(&mut self.script) {
            Comes::To(most) => {
                let count = bytes.len().min(usize::from(most));
                match self.taken.extend_from_slice(&bytes[..count]) {
                    Ok(()) => Outcome::Count(count),
                    Err(_) => Outcome::Broken(DevKind::Other),
                }
            }
            Comes::ToNothing => Outcome::Count(0),
            Comes::ToSignal => Outcome::Interrupted,
            Comes::ToBlock => Outcome::WouldBlock,
        }
    }
}

/// Accepts numbers, and tells its tries.
#[derive(Drop)]
pub(super) struct Listening {
    pub(super) script: &'static [Comes],
    pub(super) kept: Kept<AcceptOutcome<u8>>,
}

/// What a try to accept comes to, twice: once for the list.
fn accepted(comes: Comes) -> (AcceptOutcome<u8>, AcceptOutcome<u8>)
    ensures { result.0 ≡ result.1 }
{
    match comes {
        Comes::To(taken) => (AcceptOutcome::Took(taken), AcceptOutcome::Took(taken)),
        Comes::ToNothing => (AcceptOutcome::Aborted, AcceptOutcome::Aborted),
        Comes::ToSignal => (AcceptOutcome::Interrupted, AcceptOutcome::Interrupted),
        Comes::ToBlock => (AcceptOutcome::WouldBlock, AcceptOutcome::WouldBlock),
    }
}

impl TryAccept for Listening {
    type T = u8;

    ghost tells = { λ half tries. IsTrue half.kept.is_whole → reverse half.kept.all.items ≡ tries };

    fn try_accept(&mut self) -> AcceptOutcome<u8> {
        let (outcome, same) = accepted(next(&mut self.script));
        self.kept.keep(same);
        outcome
    }
}

/// A call on waits: whether it is a wait, its direction, and its answer.
pub(super) type Asked = (bool, Dir, Result<(), Refusal>);

/// Grants so many calls, refuses each later one, and tells them.
#[derive(Drop)]
pub(super) struct Granting {
    pub(super) grants: u8,
    pub(super) kept: Kept<Asked>,
}

impl Granting {
    fn grant(&mut self) -> Result<(), Refusal>
        ensures { self.new.kept ≡ self.old.kept }
    {
        if self.grants == 0 {
            return Err(Refusal::DeadlineExceeded);
        }
        self.grants -= 1;
        Ok(())
    }
}

impl Waits for Granting {
    ghost tells = { λ waits calls. IsTrue waits.kept.is_whole
        → wait_calls_of waits.kept.all.items ≡ calls };

    fn prepare(&mut self, dir: Dir) -> Result<(), Refusal> {
        let answer = self.grant();
        self.kept.keep((false, dir, answer));
        answer
    }

    fn wait(&mut self, dir: Dir) -> Result<(), Refusal> {
        let answer = self.grant();
        self.kept.keep((true, dir, answer));
        answer
    }
}
