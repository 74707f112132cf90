//! Writes: the pure loop, and the call over a half that may have to wait.
ghost use Rattle.std.specs.Prelude.{◌≡◌, ◌<◌, ◌≤◌, ◌-◌, ℕ, List, [], ◌∷◌, length, min, IsTrue};
ghost use Rattle.std.specs.Prelude.{IfOk, IfErr};
ghost use Rattle.rwloops.specs.declared.outcome.Outcome.{Outcome};
ghost use Rattle.rwloops.specs.declared.limits.TheConstants.{MAX_TRY_BYTES};
ghost use Rattle.rwloops.specs.Outcome.{IsCountWithin, sum_of_counts};
ghost use Rattle.rwloops.specs.OutcomeTrace.{next_after, is_open, IsTraced};
ghost use Rattle.rwloops.specs.Turns.{Event, Tried, Asked, IsTurn, IsInTurn};
ghost use Rattle.rwloops.specs.Waits.{Prepared, Waited};
ghost use Rattle.rwloops.specs.TryNow.{write_tries_left};
ghost use Rattle.rwloops.specs.WriteTrace.{write_rules, WriteStandsFor, written, IsOfferedCount};
ghost use Rattle.rwloops.specs.WriteTrace.{WriteTry, write_try_rules, IsWriteTry, WriteTrace};
ghost use Rattle.rwloops.specs.WriteTrace.{HasWritten, StandsForTries, chunk_after};

use crate::fault::{Fault, WriteFault};
use crate::limits::chunk_of;
use crate::outcome::{DevKind, Outcome};
use crate::pair::Pair;
use crate::retries::{Next, Retries};
use crate::waits::Waits;
use base_types::Dir;
use deadline_core::Refusal;
use std::sync::Wait;

/// A write, by the outcomes of its tries.
#[derive(Debug, Drop)]
pub struct WriteLoop {
    len: usize,
    count: usize,
    retries: Retries,
}

impl WriteLoop {
    /// A write of so many bytes, before its first try.
    pub fn new(len: usize) -> WriteLoop
        requires { 0 < len }
        ensures { WriteStandsFor result len [] }
    {
        WriteLoop {
            len,
            count: 0,
            retries: Retries::new(),
        }
    }

    /// The sum of the counts so far.
    pub fn count(&self) -> usize
        ensures { result ≡ written self.now }
    {
        self.count
    }

    /// What follows one more outcome.
    pub fn feed(&mut self, outcome: Outcome) -> Next<usize>
        ensures answer { (len : ℕ) (fed : List Outcome) → WriteStandsFor self.old len fed
            → IsOfferedCount len fed outcome → result ≡ next_after (write_rules len) fed outcome }
        ensures stands { (len : ℕ) (fed : List Outcome) → WriteStandsFor self.old len fed
            → IsOfferedCount len fed outcome → IsTrue (is_open result)
            → WriteStandsFor self.new len (outcome ∷ fed) }
        ensures count { (len : ℕ) (fed : List Outcome) → WriteStandsFor self.old len fed
            → IsOfferedCount len fed outcome → written self.new ≡ sum_of_counts (outcome ∷ fed) }
        ensures done { (count : ℕ) → result ≡ Next.Done count → written self.new ≡ count }
        ensures ends { result ≡ Next.Try
            → write_tries_left self.new < write_tries_left self.old }
    {
        match outcome {
            Outcome::Interrupted => self.retries.again(),
            Outcome::WouldBlock => {
                self.retries.reset();
                Next::Wait
            }
            Outcome::Count(0) => Next::Failed(Fault::UnexpectedEof),
            Outcome::Count(count) => {
                if count < self.len.saturating_sub(self.count) {
                    self.count += count;
                    self.retries.reset();
                    return Next::Try;
                }
                self.count = self.len;
                Next::Done(self.len)
            }
            Outcome::Aborted => Next::Failed(Fault::Device(DevKind::Aborted)),
            Outcome::Broken(kind) => Next::Failed(Fault::Device(kind)),
        }
    }
}

/// A half that bytes are written to.
pub trait TryWrite {
    /// The half tells this list: each try so far, newest first.
    ghost tells: { Self → List WriteTry → Type 0 };

    /// One try to write the front of `bytes`, that doesn't wait.
    fn try_write(&mut self, bytes: &[u8]) -> Outcome
        ensures within { IsCountWithin (length bytes.now) result }
        ensures told { (tries : List WriteTry) → tells self.old tries
            → tells self.new (record { offered = bytes.now; outcome = result } ∷ tries) };
}

/// A half that bytes are written to, with its waits. `prepare` and `wait` are those of `ReadTurns`,
/// but told in a list of tries to write: a trait has one kind of list.
pub trait WriteTurns {
    ghost use Rattle.rwloops.specs.Turns.{Event};

    /// These events, newest first, led from the first value to the second.
    ghost went: { Self → List (Event WriteTry) → Self → Type 0 };

    /// Says that tries in this direction begin, unless it may not go on.
    fn prepare(&mut self, dir: Dir) -> Result<(), Refusal>
        ensures told { (first : Self) (events : List (Event WriteTry)) → went first events self.old
            → went first (Asked (Prepared dir result) ∷ events) self.new };

    /// Waits until the direction may be ready, unless it may not go on.
    fn wait(&mut self, dir: Dir) -> Result<(), Refusal>
        ensures told { (first : Self) (events : List (Event WriteTry)) → went first events self.old
            → went first (Asked (Waited dir result) ∷ events) self.new };

    /// One try to write the front of `bytes`, that doesn't wait.
    fn try_write(&mut self, bytes: &[u8]) -> Outcome
        ensures within { IsCountWithin (length bytes.now) result }
        ensures told { (first : Self) (events : List (Event WriteTry)) → went first events self.old
            → went first (Tried (record { offered = bytes.now; outcome = result }) ∷ events)
            self.new };

    ghost went_nowhere: { (first : Self) → went first [] first };
}

// One try with what is left after so many bytes.
fn offer<P: WriteTurns>(pair: &mut P, bytes: &[u8], done: usize) -> Outcome
    requires { done ≤ length bytes.now }
    ensures within { IsCountWithin (length (chunk_after bytes.now done)) result }
    ensures told { (first : P) (events : List (Event WriteTry)) → P.went first events pair.old
        → P.went first (Tried (record { offered = chunk_after bytes.now done; outcome = result })
        ∷ events) pair.new }
{
    let rest = &bytes[done..];
    let chunk = chunk_of(rest.len());
    pair.try_write(&rest[..chunk])
}

// One try, and what the loop makes of it.
pub(crate) fn try_once<P: WriteTurns>(
    pair: &mut P,
    bytes: &[u8],
    writing: &mut WriteLoop,
) -> Next<usize>
    requires { written writing.old ≤ length bytes.now }
    ensures done { (count : ℕ) → result ≡ Next.Done count → written writing.new ≡ count }
    ensures ends { result ≡ Next.Try
        → write_tries_left writing.new < write_tries_left writing.old }
    ensures turn { (first : P) (earlier : List WriteTry)
        → StandsForTries writing.old (length bytes.now) earlier
        → IsTurn (write_try_rules (length bytes.now)) (IsWriteTry bytes.now)
        (HasWritten writing.new)
        (λ events. P.went first events pair.old) (λ events. P.went first events pair.new)
        (StandsForTries writing.new (length bytes.now)) earlier result }
{
    let outcome = offer(pair, bytes, writing.count());
    writing.feed(outcome)
}

/// Writes all bytes, or says how many were taken: `write` over a half and waits that tell their
/// events in one list.
pub fn write_in_turn<P: WriteTurns>(
    rt: &impl Wait,
    pair: &mut P,
    bytes: &[u8],
) -> Result<usize, WriteFault>
    ensures turns { IsInTurn (write_try_rules (length bytes.now))
        (λ events. P.went pair.old events pair.new)
        (λ tries calls. WriteTrace bytes.now tries calls result) }
    ensures whole { IfOk result (λ count. count ≡ length bytes.now) }
    ensures part { IfErr result (λ failed. failed.count ≤ length bytes.now) }
{
    match pair.prepare(Dir::Write) {
        Ok(()) => {}
        Err(refusal) => return Err(WriteFault {
            fault: Fault::from(refusal),
            count: 0,
        }),
    }
    if bytes.is_empty() {
        return Ok(0);
    }
    let mut writing = WriteLoop::new(bytes.len());
    for _ in rt.forever() {
        match try_once(pair, bytes, &mut writing) {
            Next::Try => {}
            Next::Wait => match pair.wait(Dir::Write) {
                Ok(()) => {}
                Err(refusal) => return Err(WriteFault {
                    fault: Fault::from(refusal),
                    count: writing.count(),
                }),
            },
            Next::Done(count) => return Ok(count),
            Next::Failed(fault) => return Err(WriteFault {
                fault,
                count: writing.count(),
            }),
        }
    }
    unreachable!()
}

/// Writes all bytes, or says how many were taken: one `write_in_turn`.
pub fn write<H: TryWrite, W: Waits>(
    rt: &impl Wait,
    half: &mut H,
    bytes: &[u8],
    waits: &mut W,
) -> Result<usize, WriteFault>
    ensures trace { IsTraced (λ tries calls. WriteTrace bytes.now tries calls result)
        (H.tells half.old) (H.tells half.new) (W.tells waits.old) (W.tells waits.new) }
    ensures whole { IfOk result (λ count. count ≡ length bytes.now) }
    ensures part { IfErr result (λ failed. failed.count ≤ length bytes.now) }
{
    write_in_turn(rt, &mut Pair::new(half, waits), bytes)
}
