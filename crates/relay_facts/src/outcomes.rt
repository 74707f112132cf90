//! What came of clients' connects and of checks: their targets' counts and health have it, and the log is
//! told of what that changes.

ghost use Rattle.std.specs.Prelude.{◌≡◌, ◌-◌, None, option_map};
ghost use Rattle.relay_facts.specs.declared.outcomes.Attempt.{Attempt};

use crate::clock::monotonic_ns;
use crate::connection_facts::{Acceptance, ConnectionFacts};
use crate::log_lines::{calendar_ms, tell_change};
use crate::target_list::Targets;
use log_writer::Log;
use relay_admin::Rule;
use relay_log::ended::Cause;
use std::sync::{Arc, Wait};
use std::time::Clock;
use target_pick::Outcome;

/// By what a target was tried.
#[derive(Clone, Copy, Debug, PartialEq, Eq, Drop)]
pub enum Attempt {
    /// A check.
    Check,
    /// A client's connect.
    Connect,
}

/// What came of a check of a target, or of a client's connect to it; and why, where it failed.
#[derive(Clone, Copy, Debug, PartialEq, Eq, Drop)]
pub struct Came {
    pub outcome: Outcome,
    pub of: Attempt,
    pub cause: Cause,
}

impl Came {
    /// What came of a check.
    pub fn of_check(outcome: Outcome, cause: Cause) -> Came
        ensures outcome { result.outcome ≡ outcome }
        ensures of { result.of ≡ Attempt.Check }
        ensures cause { result.cause ≡ cause }
    {
        Came {
            outcome,
            of: Attempt::Check,
            cause,
        }
    }

    /// What came of a client's connect.
    pub fn of_connect(outcome: Outcome, cause: Cause) -> Came
        ensures outcome { result.outcome ≡ outcome }
        ensures of { result.of ≡ Attempt.Connect }
        ensures cause { result.cause ≡ cause }
    {
        Came {
            outcome,
            of: Attempt::Connect,
            cause,
        }
    }
}

/// Notes what came of a check of the target at this place of this rule, or of a client's connect to
/// it.
pub fn note_outcome<R: Wait + Clock>(
    rt: &R,
    log: &Option<Arc<Log>>,
    rule: &Rule,
    targets: &Targets,
    place: usize,
    came: &Came,
) {
    let Some(change) = targets.note(place, came) else {
        return;
    };
    targets.begin_anew(place, calendar_ms(rt));
    if let (Some(log), Some(target)) = (log, targets.address(place)) {
        tell_change(rt, log, rule, &target, change);
    }
}

impl Acceptance {
    /// The nanoseconds from its accept to this moment; 0 where that is not later.
    pub fn age_ns(&self, now: u64) -> u64
        ensures { result ≡ now - self.now.at }
    {
        now.saturating_sub(self.at)
    }

    /// Notes what came of a connect to the target at this place for this client.
    pub fn note_outcome<R: Wait + Clock>(
        &self,
        rt: &R,
        log: &Option<Arc<Log>>,
        place: usize,
        came: &Came,
    ) {
        if let Some(targets) = &self.said.targets {
            note_outcome(rt, log, &self.said.rule, targets, place, came);
        }
    }
}

// How many nanoseconds passed from one moment to another, where both are known; 0 says that the first
// isn't.
fn took_ns(began: u64, now: Option<u64>) -> Option<u64>
    ensures unknown { began ≡ 0 → result ≡ None }
    ensures known { (began ≡ 0 → ⊥) → result ≡ option_map (λ now. now - began) now }
{
    if began == 0 {
        return None;
    }
    match now {
        Some(now) => Some(now.saturating_sub(began)),
        None => None,
    }
}

impl ConnectionFacts {
    // The target that is tried is connected by this moment.
    fn note_connected(&self, now: Option<u64>) {
        if let (Some(counts), Some(ns)) = (self.counts(), took_ns(self.dialled(), now)) {
            counts.note_connect(ns);
        }
    }

    /// Notes what came of the connect to the target that is tried, and how long it took, where it was made.
    pub fn note_outcome<R: Wait + Clock>(&self, rt: &R, log: &Option<Arc<Log>>, came: &Came) {
        if came.outcome == Outcome::Connected {
            self.note_connected(monotonic_ns(rt));
        }
        self.acceptance
            .note_outcome(rt, log, self.target_place(), came);
    }
}
