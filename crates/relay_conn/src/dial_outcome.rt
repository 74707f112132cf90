//! What a step of a dial says of its target, whose health has it.

ghost use Rattle.std.specs.Prelude.{◌≡◌};
ghost use Rattle.relay_conn.specs.DialOutcome as spec;

use crate::dialing::{DialStep, Dialing};
use readiness::Why;
use relay_log::ended::{Cause, Ended as How};
use std::sync::Wait;
use std::sync::ledger::Ledger;
use std::time::Clock;
use target_pick::Outcome;

// Whether a dial ended so since its target wasn't reached.
fn is_unreached(failure: Option<How>) -> bool
    ensures { result ≡ spec.is_unreached failure }
{
    match failure {
        Some(How::NoTarget(_)) => true,
        _ => false,
    }
}

// Whether this tells that a moment has come.
fn tells_time(why: Why, at: Option<u64>) -> bool
    ensures { result ≡ spec.tells_time why at }
{
    match (why, at) {
        (Why::Time { now }, Some(at)) => at <= now,
        _ => false,
    }
}

impl<U: Ledger, D: Ledger, R: Wait + Clock + Copy> Dialing<U, D, R> {
    /// What such a step says of its target: nothing where a side's read alone gave it up, or where
    /// the fault wasn't the target's.
    pub(crate) fn outcome(&self, step: DialStep, why: Why) -> Option<Outcome>
        ensures { result ≡ spec.outcome_of self.now.failure self.now.connect_by step why }
    {
        match step {
            DialStep::Connected => Some(Outcome::Connected),
            DialStep::Seeks => Some(Outcome::Failed),
            DialStep::Failed if is_unreached(self.failure) => Some(Outcome::Failed),
            DialStep::Late if tells_time(why, self.connect_by) => Some(Outcome::Failed),
            _ => None,
        }
    }

    /// Why its target wasn't reached, where such a step says that it wasn't.
    pub(crate) fn cause(&self) -> Cause
        ensures { result ≡ spec.failure_cause self.now.failure }
    {
        match self.failure {
            Some(How::NoTarget(cause)) => cause,
            _ => Cause::Unreachable,
        }
    }
}
