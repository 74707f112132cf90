//! What is counted of a target, what an operator has set of it, since when it has its state, and why it
//! wasn't reached last. All lists with its address have it in common. No count decides anything but
//! `standing`, by which `least-connections` picks.

ghost use Rattle.std.specs.Prelude.{◌≡◌};
ghost use Rattle.relay_facts.specs.TargetCounts as spec;

use crate::counts::Counter;
use crate::outcomes::{Attempt, Came};
use crate::set_order::SetOrder;
use relay_admin::LastFailure;
use relay_log::ended::Cause;
use std::sync::atomic::{AtomicU64, Ordering};
use target_pick::Outcome;

// The number of a failure's cause, from 1 on; 0 says that none has failed.
fn failure_number(cause: Cause) -> u64
    ensures { result ≡ spec.failure_number cause }
{
    match cause {
        Cause::Refused => 1,
        Cause::Timeout => 2,
        Cause::Unreachable | Cause::Descriptors | Cause::Down => 3,
    }
}

// What a session is told of this number.
fn last_failure_of(number: u64) -> LastFailure
    ensures { result ≡ spec.last_failure_of number }
{
    if number == 0 {
        LastFailure::Never
    } else if number == 1 {
        LastFailure::Refused
    } else if number == 2 {
        LastFailure::Timeout
    } else {
        LastFailure::Unreachable
    }
}

/// What is counted of a target, and what is set of it.
#[derive(Drop)]
pub struct TargetCounts {
    /// What an operator has set. A client that was accepted by an earlier list goes by it too.
    pub(crate) order: SetOrder,
    /// How many connections stand at it, those that dial it among them.
    standing: AtomicU64,
    /// The clients' connects to it that were made, and those that failed.
    pub(crate) connects: Counter,
    pub(crate) failures: Counter,
    /// The checks of it that passed, and those that failed.
    pub(crate) passed: Counter,
    pub(crate) failed: Counter,
    /// Why the last connect or check failed that did, by its number.
    last_failure: AtomicU64,
    /// When it came to its state, in milliseconds since 1970; 0 before that is noted.
    since: AtomicU64,
}

impl TargetCounts {
    pub(crate) fn new() -> TargetCounts {
        TargetCounts {
            order: SetOrder::new(),
            standing: AtomicU64::new(0),
            connects: Counter::new(),
            failures: Counter::new(),
            passed: Counter::new(),
            failed: Counter::new(),
            last_failure: AtomicU64::new(0),
            since: AtomicU64::new(0),
        }
    }

    pub(crate) fn standing(&self) -> u64 {
        self.standing.load(Ordering::SeqCst)
    }

    /// One connection more stands at it. Each is left once.
    pub(crate) fn enter(&self) {
        self.standing.fetch_add(1, Ordering::SeqCst);
    }

    /// One that stood there is over, or tries another target.
    pub(crate) fn leave(&self) {
        self.standing.fetch_sub(1, Ordering::SeqCst);
    }

    /// Counts what came of a check or of a client's connect.
    pub(crate) fn note(&self, came: &Came) {
        match (came.outcome, came.of) {
            (Outcome::Passed, _) => self.passed.add(1),
            (Outcome::Connected, _) => self.connects.add(1),
            (Outcome::Failed, Attempt::Check) => self.failed.add(1),
            (Outcome::Failed, Attempt::Connect) => self.failures.add(1),
        }
        if came.outcome == Outcome::Failed {
            self.last_failure
                .store(failure_number(came.cause), Ordering::SeqCst);
        }
    }

    /// Why the last connect or check failed that did.
    pub(crate) fn last_failure(&self) -> LastFailure {
        last_failure_of(self.last_failure.load(Ordering::SeqCst))
    }

    /// When it came to its state, in milliseconds since 1970; 0 before that is noted.
    pub(crate) fn since(&self) -> u64 {
        self.since.load(Ordering::SeqCst)
    }

    /// It came to its state at this moment.
    pub(crate) fn begin(&self, at: u64) {
        self.since.store(at, Ordering::SeqCst);
    }
}
