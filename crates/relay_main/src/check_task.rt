//! A check of a target, as a task of the main thread's loop: it connects, which says whether the
//! target is up, and closes at once. Nothing is read, and nothing sent but the header of a rule that
//! has one, and no count has it.
//!
//! Its socket is dialled between two turns, since a task that goes on has no poller to register it
//! with (`checks`). An event of a check before can come as one of this check: it has the socket asked,
//! and says nothing by itself.

ghost use Rattle.std.specs.Prelude.{◌≡◌, ◌↔◌, Some, None, OnSome, IfNone, IsSome};
ghost use Rattle.relay_main.specs.Checks.{IsDue, Rests, check_cause, dial_in, outcome_of};
ghost use Rattle.relay_main.specs.declared.check_task.CheckStep.{CheckStep};
ghost use Rattle.relay_log.specs.declared.ended.Cause.{Cause};
ghost use Rattle.relay_main.specs.declared.check_task.Dial.{Dial};
ghost use Rattle.target_pick.specs.declared.health.Outcome.{Outcome};

use fd_descriptor::HalfClose;
use readiness::{Place, Why, WriteHalf};
use relay_admin::Addr;
use relay_core::pause_end;
use relay_facts::header::own_header;
use relay_facts::served_rule::ServedRule;
use relay_facts::target_list::Targets;
use relay_log::ended::Cause;
use relay_settings::{Checks, Version};
use rwloops::{DevKind, TryWrite};
use std::net::IpAddr;
use std::sync::Arc;
use target_pick::Outcome;

/// A target that is checked: its place in the list of its rule, its address, how it is checked, with which
/// header, and from where.
#[derive(Drop)]
pub(crate) struct Checked {
    pub(crate) served: Arc<ServedRule>,
    pub(crate) targets: Arc<Targets>,
    pub(crate) place: usize,
    pub(crate) at: Addr,
    pub(crate) checks: Checks,
    pub(crate) header: Option<Version>,
    pub(crate) source: Option<IpAddr>,
}

/// What a dial came to at once.
#[derive(Drop)]
pub(crate) enum Dial {
    /// A connection was begun.
    Begun(WriteHalf),
    /// It failed, by the target's fault, for this cause.
    Failed(Cause),
    /// There was no descriptor or no memory for it, which says nothing of the target.
    Refused,
}

/// What a task of a check came to.
#[derive(Clone, Copy, Debug, PartialEq, Eq, Drop)]
pub(crate) enum CheckStep {
    /// It waits for its moment or for an event.
    Waits,
    /// The time for a check has come: it is to be dialled before the loop's next turn.
    IsDue,
    /// A check has ended.
    Ends(Outcome),
}

/// Checks a target, again and again.
#[derive(Drop)]
pub struct CheckTask {
    pub(crate) checked: Checked,
    pub(crate) place: Place,
    /// The connection that is being made, by the half that is written.
    dial: Option<WriteHalf>,
    /// When the next check begins, unless the one under way takes longer.
    next_at: u64,
    /// The moment that it awaits: that one, or when the check under way is late.
    until: u64,
    /// Why the last check failed that did.
    cause: Cause,
}

// What a connection came to that isn't being made any more.
fn outcome_of(made: Result<(), DevKind>) -> Outcome
    ensures { result ≡ outcome_of made }
{
    match made {
        Ok(()) => Outcome::Passed,
        Err(_) => Outcome::Failed,
    }
}

// Why a connection isn't made of which the system says this.
fn check_cause(kind: DevKind) -> Cause
    ensures { result ≡ check_cause kind }
{
    match kind {
        DevKind::Refused => Cause::Refused,
        _ => Cause::Unreachable,
    }
}

// Writes the header that says that the relay speaks for itself, where the rule has one: a target that
// awaits a header would log an error for a connection that ends without one. The connection is made by
// now, which is all that a check asks, so it isn't looked at what came of the write; and a socket to which
// nothing was written has room for the few bytes.
fn greet(half: &mut WriteHalf, header: Option<Version>) {
    if let Some(version) = header {
        let _ = half.try_write(own_header(version).as_slice());
    }
}

impl CheckTask {
    /// One at this place, whose first check is due now.
    pub(crate) fn new(checked: Checked, place: Place, now: u64) -> CheckTask
        ensures checked { result.checked ≡ checked }
        ensures place { result.place ≡ place }
        ensures rests { Rests result }
        ensures until { result.until ≡ now }
    {
        CheckTask {
            checked,
            place,
            dial: None,
            next_at: now,
            until: now,
            cause: Cause::Unreachable,
        }
    }

    /// Why the last check failed that did.
    pub(crate) fn cause(&self) -> Cause
        ensures { result ≡ self.now.cause }
    {
        self.cause
    }

    /// The moment that it awaits.
    pub(crate) fn until(&self) -> u64
        ensures { result ≡ self.now.until }
    {
        self.until
    }

    /// Goes on by what its loop heard. A target that is connected, or has failed, before its time is
    /// over is told so, also where this is late.
    pub(crate) fn go_on(&mut self, why: Why) -> CheckStep
        ensures checked { self.new.checked ≡ self.old.checked }
        ensures place { self.new.place ≡ self.old.place }
        ensures due { result ≡ CheckStep.IsDue → Rests self.old }
        ensures ends { (outcome : Outcome) → result ≡ CheckStep.Ends outcome
            → IsSome (dial_in self.old) × Rests self.new }
    {
        if let Some(outcome) = self.asked(why) {
            return CheckStep::Ends(outcome);
        }
        match why {
            Why::Time { now } if self.until <= now => self.at_its_moment(now),
            _ => CheckStep::Waits,
        }
    }

    // What came of its connection, where something was told of it or its moment may have come.
    fn asked(&mut self, why: Why) -> Option<Outcome>
        ensures checked { self.new.checked ≡ self.old.checked }
        ensures place { self.new.place ≡ self.old.place }
        ensures ends { OnSome result (IsSome (dial_in self.old) × Rests self.new) }
        ensures goes_on { IfNone result (Rests self.new ↔ Rests self.old) }
    {
        match why {
            Why::Ready { .. } | Why::Time { .. } => self.look(),
            _ => None,
        }
    }

    // What came of its connection, if one is being made and isn't any more.
    fn look(&mut self) -> Option<Outcome>
        ensures checked { self.new.checked ≡ self.old.checked }
        ensures place { self.new.place ≡ self.old.place }
        ensures ends { OnSome result (IsSome (dial_in self.old) × Rests self.new) }
        ensures goes_on { IfNone result (Rests self.new ↔ Rests self.old) }
    {
        let Some(half) = &mut self.dial else {
            return None;
        };
        if half.is_connecting() {
            return None;
        }
        let made = half.connected();
        match made {
            Ok(()) => greet(half, self.checked.header),
            Err(kind) => self.cause = check_cause(kind),
        }
        let outcome = outcome_of(made);
        self.rest();
        Some(outcome)
    }

    // Its moment has come: the check under way is late, or the next one is due.
    fn at_its_moment(&mut self, now: u64) -> CheckStep
        ensures checked { self.new.checked ≡ self.old.checked }
        ensures place { self.new.place ≡ self.old.place }
        ensures late { IsSome (dial_in self.old) → result ≡ CheckStep.Ends Outcome.Failed }
        ensures timeout { IsSome (dial_in self.old) → self.new.cause ≡ Cause.Timeout }
        ensures rests { Rests self.new }
        ensures due { Rests self.old → (result ≡ CheckStep.IsDue) × IsDue self.new now }
    {
        if self.dial.is_some() {
            self.cause = Cause::Timeout;
            self.rest();
            return CheckStep::Ends(Outcome::Failed);
        }
        self.next_at = pause_end(now, self.checked.checks.every_ms);
        self.until = pause_end(now, self.checked.checks.timeout_ms);
        CheckStep::IsDue
    }

    // Closes its connection, if there is one, and awaits the next check.
    fn rest(&mut self)
        ensures { self.new ≡ record self.old { dial = None; until = self.old.next_at } }
    {
        self.dial = None;
        self.until = self.next_at;
    }

    /// Its connection was begun, or couldn't be. It says what came of it at once: nothing where it
    /// was refused by the relay's own system.
    pub(crate) fn begin(&mut self, dial: Dial) -> Option<Outcome>
        ensures checked { self.new.checked ≡ self.old.checked }
        ensures place { self.new.place ≡ self.old.place }
        ensures ends { OnSome result (Rests self.new) }
        ensures failed { (cause : Cause) → dial ≡ Dial.Failed cause
            → (result ≡ Some Outcome.Failed) × (self.new.cause ≡ cause) }
        ensures refused { dial ≡ Dial.Refused → result ≡ None }
    {
        match dial {
            Dial::Begun(half) => {
                self.dial = Some(half);
                self.look()
            }
            Dial::Failed(cause) => {
                self.cause = cause;
                self.rest();
                Some(Outcome::Failed)
            }
            Dial::Refused => {
                self.rest();
                None
            }
        }
    }
}
