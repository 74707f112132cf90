//! The lines that a connection's end, a refused client and a target that goes down or comes up bring to
//! the log.

ghost use Rattle.std.specs.Prelude.{◌≡◌, ◌-◌, ◌/◌, ◌^◌, Option, Some, None, IfOk, OnErr, min};
ghost use Rattle.std.specs.Prelude.{option_map};
ghost use Rattle.std.specs.Duration.{as_nanos};
ghost use Rattle.relay_facts.specs.LogLines.{IsMsOfDay, ended_of};
ghost use Rattle.relay_admin.specs.rules.Addr.{address_of, address_text};
ghost use Rattle.relay_admin.specs.admin.Shown.{peer_of, peer_text};

use crate::connection_facts::{Acceptance, ConnectionFacts};
use crate::served_rule::ServedRule;
use crate::shared_health::Change;
use arrayvec::ArrayString;
use log_writer::Log;
use relay_admin::{Addr, MAX_ADDR_BYTES, Rule, peer_name};
use relay_log::ended::{Ended, Reason};
use relay_log::line::LogLine;
use relay_log::moment::Moment;
use std::io;
use std::sync::Wait;
use std::time::{Clock, Duration};

// The milliseconds since 1970 by a calendar that has told what passed; 0 where it couldn't.
fn ms_told(told: io::Result<Duration>) -> u64
    ensures told { IfOk told (λ passed. result ≡ min (as_nanos passed / 1000000) (2 ^ 64 - 1)) }
    ensures untold { OnErr told (result ≡ 0) }
{
    match told {
        Ok(passed) => u64::try_from(passed.as_millis()).unwrap_or(u64::MAX),
        Err(_) => 0,
    }
}

// The moment by a calendar that has told what passed since 1970; where it couldn't, the first of all.
fn moment_of(told: io::Result<Duration>) -> Moment
    ensures told { IfOk told (λ passed. IsMsOfDay (as_nanos passed / 1000000) result.ms_of_day) }
    ensures untold { OnErr told (result.ms_of_day ≡ 0) }
{
    Moment::from_millis(ms_told(told))
}

/// The moment by the calendar, in milliseconds since 1970; 0 where it can't be read.
pub fn calendar_ms<R: Clock>(rt: &R) -> u64 {
    ms_told(rt.since_1970())
}

// What a line says of how it went, beside who and when.
#[derive(Drop)]
struct Outcome {
    // The ids of the client's side and of the target's; a client that wasn't served has none.
    ids: Option<(u64, u64)>,
    up: u64,
    down: u64,
    how: Ended,
}

impl Outcome {
    // A client that wasn't served: nothing has passed.
    fn refused(how: Ended) -> Outcome
        ensures ids { result.ids ≡ None }
        ensures up { result.up ≡ 0 }
        ensures down { result.down ≡ 0 }
        ensures how { result.how ≡ how }
    {
        Outcome {
            ids: None,
            up: 0,
            down: 0,
            how,
        }
    }

    // A connection that has ended, with the bytes that it has passed by now.
    fn ended(facts: &ConnectionFacts, ids: (u64, u64), how: Ended) -> Outcome
        ensures ids { result.ids ≡ Some ids }
        ensures how { result.how ≡ how }
    {
        Outcome {
            ids: Some(ids),
            up: facts.up(),
            down: facts.down(),
            how,
        }
    }

    // Its line, with the texts of its parties.
    fn line<'a>(
        &self,
        moment: Moment,
        rule: &'a str,
        client: &'a str,
        target: &'a str,
        milliseconds: u64,
    ) -> LogLine<'a>
        ensures moment { result.moment ≡ moment }
        ensures rule { result.rule.now ≡ rule.now }
        ensures client_id { result.client_id ≡ option_map (λ ids. ids.0) self.now.ids }
        ensures target_id { result.target_id ≡ option_map (λ ids. ids.1) self.now.ids }
        ensures client { result.client.now ≡ client.now }
        ensures target { result.target.now ≡ target.now }
        ensures up { result.up ≡ self.now.up }
        ensures down { result.down ≡ self.now.down }
        ensures milliseconds { result.milliseconds ≡ milliseconds }
        ensures ended { result.ended ≡ self.now.how }
    {
        LogLine {
            moment,
            rule,
            client_id: self.ids.map(|ids| ids.0),
            target_id: self.ids.map(|ids| ids.1),
            client,
            target,
            up: self.up,
            down: self.down,
            milliseconds,
            ended: self.how,
        }
    }
}

// The texts of a client and of its target.
#[derive(Drop)]
struct Parties {
    client: ArrayString<MAX_ADDR_BYTES>,
    target: ArrayString<MAX_ADDR_BYTES>,
}

impl Parties {
    // Those of a client that was accepted and of a target, by their addresses.
    fn of(acceptance: &Acceptance, target: &Addr) -> Parties
        ensures client { result.client.bytes ≡ peer_text (peer_of acceptance.now.client) }
        ensures target { result.target.bytes ≡ address_text (address_of target.now) }
    {
        Parties {
            client: peer_name(&acceptance.client),
            target: target.text(),
        }
    }
}

// Tells of what became of a client that was accepted, with this target.
fn tell<R: Wait + Clock>(
    rt: &R,
    log: &Log,
    acceptance: &Acceptance,
    target: &Addr,
    now: u64,
    outcome: &Outcome,
) {
    let parties = Parties::of(acceptance, target);
    let line = outcome.line(
        moment_of(rt.since_1970()),
        acceptance.said.rule.name.as_str(),
        parties.client.as_str(),
        parties.target.as_str(),
        acceptance.age_ms(now),
    );
    log.push(rt, &line);
}

/// Tells of a client that was accepted and not served. No target was tried: its rule's own is named.
pub fn tell_refused<R: Wait + Clock>(
    rt: &R,
    log: &Log,
    acceptance: &Acceptance,
    now: u64,
    how: Ended,
) {
    tell_unserved(rt, log, acceptance, &acceptance.said.rule.target, now, how);
}

/// The same where this target was tried last.
pub fn tell_unserved<R: Wait + Clock>(
    rt: &R,
    log: &Log,
    acceptance: &Acceptance,
    target: &Addr,
    now: u64,
    how: Ended,
) {
    tell(rt, log, acceptance, target, now, &Outcome::refused(how));
}

/// Tells of a connection that has ended, whose sides had these ids.
pub fn tell_end<R: Wait + Clock>(
    rt: &R,
    log: &Log,
    facts: &ConnectionFacts,
    ids: (u64, u64),
    now: u64,
    how: Ended,
) {
    let outcome = Outcome::ended(facts, ids, how);
    tell(rt, log, &facts.acceptance, &facts.target(), now, &outcome);
}

// Tells what is of no client: an address at which the rule listens stands in place of a client's.
fn tell_of_rule<R: Wait + Clock>(
    rt: &R,
    log: &Log,
    rule: &Rule,
    listen: &Addr,
    target: &Addr,
    how: Ended,
) {
    let (listen, target) = (listen.text(), target.text());
    let line = Outcome::refused(how).line(
        moment_of(rt.since_1970()),
        rule.name.as_str(),
        listen.as_str(),
        target.as_str(),
        0,
    );
    log.push(rt, &line);
}

/// Tells that an accept of a rule failed, at this address.
pub fn tell_accept_fault<R: Wait + Clock>(
    rt: &R,
    log: &Log,
    served: &ServedRule,
    listen: &Addr,
    why: Reason,
) {
    let rule = served.rule(rt);
    tell_of_rule(rt, log, &rule, listen, &rule.target, Ended::Accept(why));
}

// The log's word for such a change.
fn ended_of(change: Change) -> Ended
    ensures { result ≡ ended_of change }
{
    match change {
        Change::Down => Ended::TargetDown,
        Change::Up => Ended::TargetUp,
    }
}

/// Tells that a target of a rule has gone down or come up.
pub(crate) fn tell_change<R: Wait + Clock>(
    rt: &R,
    log: &Log,
    rule: &Rule,
    target: &Addr,
    change: Change,
) {
    tell_of_rule(rt, log, rule, &rule.listen, target, ended_of(change));
}
