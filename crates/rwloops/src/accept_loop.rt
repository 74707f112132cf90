//! Accepts: the pure loop, and the call over a half that may have to wait.
ghost use Rattle.std.specs.Prelude.{◌≡◌, ◌<◌, List, [], ◌∷◌, IsTrue};
ghost use Rattle.rwloops.specs.declared.outcome.AcceptOutcome.{AcceptOutcome};
ghost use Rattle.rwloops.specs.OutcomeTrace.{next_after, is_open, IsTraced};
ghost use Rattle.rwloops.specs.Turns.{Event, Tried, Asked, IsTurn, IsInTurn};
ghost use Rattle.rwloops.specs.Waits.{Prepared, Waited};
ghost use Rattle.rwloops.specs.TryNow.{accept_tries_left};
ghost use Rattle.rwloops.specs.AcceptTrace.{accept_rules, AcceptStandsFor, IsAcceptTry};
ghost use Rattle.rwloops.specs.AcceptTrace.{AcceptTrace};

use crate::fault::Fault;
use crate::outcome::AcceptOutcome;
use crate::pair::Pair;
use crate::retries::{Next, Retries};
use crate::waits::Waits;
use base_types::Dir;
use deadline_core::Refusal;
use std::marker::PhantomData;
use std::sync::Wait;

/// An accept, by the outcomes of its tries.
#[derive(Debug, Drop)]
pub struct AcceptLoop<T> {
    retries: Retries,
    accepts: PhantomData<T>,
}

impl<T> AcceptLoop<T> {
    /// An accept, before its first try.
    pub fn new() -> AcceptLoop<T>
        ensures { AcceptStandsFor result [] }
    {
        AcceptLoop {
            retries: Retries::new(),
            accepts: PhantomData,
        }
    }

    /// What follows one more outcome.
    pub fn feed(&mut self, outcome: AcceptOutcome<T>) -> Next<T>
        ensures answer { (fed : List (AcceptOutcome T)) → AcceptStandsFor self.old fed
            → result ≡ next_after (accept_rules T) fed outcome }
        ensures stands { (fed : List (AcceptOutcome T)) → AcceptStandsFor self.old fed
            → IsTrue (is_open result) → AcceptStandsFor self.new (outcome ∷ fed) }
        ensures ends { result ≡ Next.Try
            → accept_tries_left self.new < accept_tries_left self.old }
    {
        match outcome {
            AcceptOutcome::Interrupted | AcceptOutcome::Aborted => self.retries.again(),
            AcceptOutcome::WouldBlock => {
                self.retries.reset();
                Next::Wait
            }
            AcceptOutcome::Took(taken) => Next::Done(taken),
            AcceptOutcome::Broken(kind) => Next::Failed(Fault::Device(kind)),
        }
    }
}

/// A half that connections are accepted from.
pub trait TryAccept {
    ghost use Rattle.rwloops.specs.declared.outcome.AcceptOutcome.{AcceptOutcome};

    /// What is accepted.
    type T;

    /// The half tells this list: the outcome of each try so far, newest first.
    ghost tells: { Self → List (AcceptOutcome Self.T) → Type 0 };

    /// One try to accept, that doesn't wait.
    fn try_accept(&mut self) -> AcceptOutcome<Self::T>
        ensures told { (tries : List (AcceptOutcome Self.T)) → tells self.old tries
            → tells self.new (result ∷ tries) };
}

/// A half that connections are accepted from, with its waits.
pub trait AcceptTurns {
    ghost use Rattle.rwloops.specs.declared.outcome.AcceptOutcome.{AcceptOutcome};
    ghost use Rattle.rwloops.specs.Turns.{Event};

    /// What is accepted.
    type T;

    /// These events, newest first, led from the first value to the second.
    ghost went: { Self → List (Event (AcceptOutcome Self.T)) → Self → Type 0 };

    /// Says that tries in this direction begin, unless it may not go on.
    fn prepare(&mut self, dir: Dir) -> Result<(), Refusal>
        ensures told { (first : Self) (events : List (Event (AcceptOutcome Self.T)))
            → went first events self.old
            → went first (Asked (Prepared dir result) ∷ events) self.new };

    /// Waits until the direction may be ready, unless it may not go on.
    fn wait(&mut self, dir: Dir) -> Result<(), Refusal>
        ensures told { (first : Self) (events : List (Event (AcceptOutcome Self.T)))
            → went first events self.old
            → went first (Asked (Waited dir result) ∷ events) self.new };

    /// One try to accept, that doesn't wait.
    fn try_accept(&mut self) -> AcceptOutcome<Self::T>
        ensures told { (first : Self) (events : List (Event (AcceptOutcome Self.T)))
            → went first events self.old → went first (Tried result ∷ events) self.new };

    ghost went_nowhere: { (first : Self) → went first [] first };
}

// One try, and what the loop makes of it.
pub(crate) fn try_once<P: AcceptTurns>(pair: &mut P, accepting: &mut AcceptLoop<P::T>) -> Next<P::T>
    ensures ends { result ≡ Next.Try
        → accept_tries_left accepting.new < accept_tries_left accepting.old }
    ensures turn { (first : P) (earlier : List (AcceptOutcome P.T))
        → AcceptStandsFor accepting.old earlier
        → IsTurn (accept_rules P.T) IsAcceptTry IsAcceptTry
        (λ events. P.went first events pair.old) (λ events. P.went first events pair.new)
        (AcceptStandsFor accepting.new) earlier result }
{
    let outcome = pair.try_accept();
    accepting.feed(outcome)
}

/// Accepts one connection: `accept` over a half and waits that tell their events in one list.
pub fn accept_in_turn<P: AcceptTurns>(rt: &impl Wait, pair: &mut P) -> Result<P::T, Fault>
    ensures turns { IsInTurn (accept_rules P.T) (λ events. P.went pair.old events pair.new)
        (λ tries calls. AcceptTrace tries calls result) }
{
    match pair.prepare(Dir::Read) {
        Ok(()) => {}
        Err(refused) => return Err(Fault::from(refused)),
    }
    let mut accepting = AcceptLoop::new();
    for _ in rt.forever() {
        match try_once(pair, &mut accepting) {
            Next::Try => {}
            Next::Wait => match pair.wait(Dir::Read) {
                Ok(()) => {}
                Err(refusal) => return Err(Fault::from(refusal)),
            },
            Next::Done(taken) => return Ok(taken),
            Next::Failed(fault) => return Err(fault),
        }
    }
    unreachable!()
}

/// Accepts one connection: one `accept_in_turn`.
pub fn accept<H: TryAccept, W: Waits>(
    rt: &impl Wait,
    half: &mut H,
    waits: &mut W,
) -> Result<H::T, Fault>
    ensures trace { IsTraced (λ tries calls. AcceptTrace tries calls result)
        (H.tells half.old) (H.tells half.new) (W.tells waits.old) (W.tells waits.new) }
{
    accept_in_turn(rt, &mut Pair::new(half, waits))
}
