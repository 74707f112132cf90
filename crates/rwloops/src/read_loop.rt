//! Reads: the pure loop, and the call over a half that may have to wait.
ghost use Rattle.std.specs.Prelude.{◌≡◌, ◌<◌, ◌≤◌, ℕ, List, [], ◌∷◌, length, IsTrue, IfOk};
ghost use Rattle.rwloops.specs.declared.outcome.Outcome.{Outcome};
ghost use Rattle.rwloops.specs.Outcome.{IsCountWithin};
ghost use Rattle.rwloops.specs.Waits.{Prepared, Waited};
ghost use Rattle.rwloops.specs.TryNow.{read_tries_left};
ghost use Rattle.rwloops.specs.OutcomeTrace.{next_after, is_open, IsTraced};
ghost use Rattle.rwloops.specs.Turns.{Event, Tried, Asked, IsTurn, IsInTurn};
ghost use Rattle.rwloops.specs.ReadTrace.{read_rules, ReadStandsFor, ReadTry, read_try};
ghost use Rattle.rwloops.specs.ReadTrace.{read_outcome, read_try_rules, IsReadTry, ReadTrace};
ghost use Rattle.rwloops.specs.ReadTrace.{HasRead, StandsForTries};

use crate::fault::Fault;
use crate::limits::chunk_of;
use crate::outcome::{DevKind, Outcome};
use crate::pair::Pair;
use crate::retries::{Next, Retries};
use crate::waits::Waits;
use base_types::Dir;
use deadline_core::Refusal;
use std::sync::Wait;

/// A read, by the outcomes of its tries.
#[derive(Debug, Drop)]
pub struct ReadLoop {
    retries: Retries,
}

impl ReadLoop {
    /// A read into so many bytes, before its first try. What follows doesn't depend on their
    /// number.
    pub fn new(len: usize) -> ReadLoop
        ensures { ReadStandsFor result [] }
    {
        let _ = len;
        ReadLoop {
            retries: Retries::new(),
        }
    }

    /// What follows one more outcome.
    pub fn feed(&mut self, outcome: Outcome) -> Next<usize>
        ensures answer { (fed : List Outcome) → ReadStandsFor self.old fed
            → result ≡ next_after read_rules fed outcome }
        ensures stands { (fed : List Outcome) → ReadStandsFor self.old fed
            → IsTrue (is_open result) → ReadStandsFor self.new (outcome ∷ fed) }
        ensures ends { result ≡ Next.Try → read_tries_left self.new < read_tries_left self.old }
    {
        match outcome {
            Outcome::Interrupted => self.retries.again(),
            Outcome::WouldBlock => {
                self.retries.reset();
                Next::Wait
            }
            Outcome::Count(0) => Next::Failed(Fault::EndOfFile),
            Outcome::Count(count) => Next::Done(count),
            Outcome::Aborted => Next::Failed(Fault::Device(DevKind::Aborted)),
            Outcome::Broken(kind) => Next::Failed(Fault::Device(kind)),
        }
    }
}

/// A half that bytes are read from.
pub trait TryRead {
    /// The half tells this list: each try so far, newest first.
    ghost tells: { Self → List ReadTry → Type 0 };

    /// One try to read into the front of `buf`, that doesn't wait.
    fn try_read(&mut self, buf: &mut [u8]) -> Outcome
        ensures within { IsCountWithin (length buf.new) result }
        ensures told { (tries : List ReadTry) → tells self.old tries
            → tells self.new (read_try buf.new result ∷ tries) };
}

/// A half that bytes are read from, with its waits.
pub trait ReadTurns {
    ghost use Rattle.rwloops.specs.Turns.{Event};

    /// These events, newest first, led from the first value to the second.
    ghost went: { Self → List (Event ReadTry) → Self → Type 0 };

    /// Says that tries in this direction begin, unless it may not go on.
    fn prepare(&mut self, dir: Dir) -> Result<(), Refusal>
        ensures told { (first : Self) (events : List (Event ReadTry)) → went first events self.old
            → went first (Asked (Prepared dir result) ∷ events) self.new };

    /// Waits until the direction may be ready, unless it may not go on.
    fn wait(&mut self, dir: Dir) -> Result<(), Refusal>
        ensures told { (first : Self) (events : List (Event ReadTry)) → went first events self.old
            → went first (Asked (Waited dir result) ∷ events) self.new };

    /// One try to read into the front of `buf`, that doesn't wait.
    fn try_read(&mut self, buf: &mut [u8]) -> Outcome
        ensures within { IsCountWithin (length buf.new) result }
        ensures told { (first : Self) (events : List (Event ReadTry)) → went first events self.old
            → went first (Tried (read_try buf.new result) ∷ events) self.new };

    ghost went_nowhere: { (first : Self) → went first [] first };
}

// One try with the front of the buffer, and what the loop makes of it.
pub(crate) fn try_once<P: ReadTurns>(
    pair: &mut P,
    buf: &mut [u8],
    reading: &mut ReadLoop,
) -> Next<usize>
    ensures ends { result ≡ Next.Try → read_tries_left reading.new < read_tries_left reading.old }
    ensures turn { (first : P) (earlier : List ReadTry) → StandsForTries reading.old earlier
        → IsTurn read_try_rules (IsReadTry (length buf.old)) (HasRead buf.new)
        (λ events. P.went first events pair.old) (λ events. P.went first events pair.new)
        (StandsForTries reading.new) earlier result }
{
    let chunk = chunk_of(buf.len());
    let outcome = pair.try_read(&mut buf[..chunk]);
    reading.feed(outcome)
}

/// Reads at least one byte, or answers 0 for a buffer of length 0: `read` over a half and waits
/// that tell their events in one list.
pub fn read_in_turn<P: ReadTurns>(
    rt: &impl Wait,
    pair: &mut P,
    buf: &mut [u8],
) -> Result<usize, Fault>
    ensures turns { IsInTurn read_try_rules (λ events. P.went pair.old events pair.new)
        (λ tries calls. ReadTrace buf.new tries calls result) }
    ensures empty { length buf.old ≡ 0 → result ≡ Ok 0 }
    ensures some { 0 < length buf.old → IfOk result (λ count. 0 < count) }
    ensures within { IfOk result (λ count. count ≤ length buf.old) }
{
    if buf.is_empty() {
        return Ok(0);
    }
    match pair.prepare(Dir::Read) {
        Ok(()) => {}
        Err(refused) => return Err(Fault::from(refused)),
    }
    let mut reading = ReadLoop::new(buf.len());
    for _ in rt.forever() {
        match try_once(pair, buf, &mut reading) {
            Next::Try => {}
            Next::Wait => match pair.wait(Dir::Read) {
                Ok(()) => {}
                Err(refusal) => return Err(Fault::from(refusal)),
            },
            Next::Done(count) => return Ok(count),
            Next::Failed(fault) => return Err(fault),
        }
    }
    unreachable!()
}

/// Reads at least one byte, or answers 0 for a buffer of length 0: one `read_in_turn`.
pub fn read<H: TryRead, W: Waits>(
    rt: &impl Wait,
    half: &mut H,
    buf: &mut [u8],
    waits: &mut W,
) -> Result<usize, Fault>
    ensures trace { IsTraced (λ tries calls. ReadTrace buf.new tries calls result)
        (H.tells half.old) (H.tells half.new) (W.tells waits.old) (W.tells waits.new) }
    ensures empty { length buf.old ≡ 0 → result ≡ Ok 0 }
    ensures some { 0 < length buf.old → IfOk result (λ count. 0 < count) }
    ensures within { IfOk result (λ count. count ≤ length buf.old) }
{
    read_in_turn(rt, &mut Pair::new(half, waits), buf)
}
