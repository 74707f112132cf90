//! What an admin session is shown of a connection or a listener.

ghost use Rattle.std.specs.Prelude.{◌≡◌, ◌-◌, ◌/◌, Some, None};
ghost use Rattle.relay_facts.specs.Acceptance.{said_then};
ghost use Rattle.relay_facts.specs.Shown.{IsPeerOfSide};
ghost use Rattle.relay_admin.specs.declared.admin.shown.ShownSide.{ShownSide};

use crate::connection_facts::{ConnectionFacts, ms_between};
use crate::served_rule::ServedRule;
use relay_admin::{Addr, Rule, Shown, ShownSide};
use std::sync::Wait;

// The address at the other end of a side.
fn peer_of(facts: &ConnectionFacts, side: ShownSide) -> Option<Addr>
    ensures { IsPeerOfSide facts.now.acceptance side result }
{
    match side {
        ShownSide::Client => facts.acceptance.client,
        ShownSide::Target => Some(facts.target()),
        ShownSide::Listener => Some(facts.acceptance.said.rule.listen),
    }
}

/// What is shown at this moment of the side with this id.
pub fn shown_side(facts: &ConnectionFacts, id: u64, side: ShownSide, now: u64) -> Shown
    ensures id { result.id ≡ id }
    ensures rule { result.rule ≡ (said_then facts.now.acceptance).rule.name }
    ensures side { result.side ≡ side }
    ensures peer { IsPeerOfSide facts.now.acceptance side result.peer }
    ensures age { result.age_ms ≡ (now - facts.now.acceptance.at) / 1000000 }
{
    Shown {
        id,
        rule: facts.acceptance.said.rule.name,
        side,
        peer: peer_of(facts, side),
        up: facts.up(),
        down: facts.down(),
        age_ms: facts.acceptance.age_ms(now),
        quiet_ms: ms_between(facts.last(), now),
    }
}

/// Where a listener listens, since when it stands, and when it accepted last, or else began, by the
/// relay's clock.
#[derive(Clone, Copy, Debug, PartialEq, Eq, Drop)]
pub struct ListenerFacts {
    pub listen: Addr,
    pub since: u64,
    pub last: u64,
}

impl ListenerFacts {
    /// Those of one that begins at this address at this moment.
    pub fn new(listen: Addr, now: u64) -> ListenerFacts
        ensures listen { result.listen ≡ listen }
        ensures since { result.since ≡ now }
        ensures last { result.last ≡ now }
    {
        ListenerFacts {
            listen,
            since: now,
            last: now,
        }
    }
}

// The same of a listener that is one of this rule's, of which this is known.
fn shown_of_rule(served: &ServedRule, rule: &Rule, id: u64, facts: ListenerFacts, now: u64) -> Shown
    ensures id { result.id ≡ id }
    ensures rule { result.rule ≡ rule.now.name }
    ensures side { result.side ≡ ShownSide.Listener }
    ensures peer { result.peer ≡ Some facts.listen }
    ensures age { result.age_ms ≡ (now - facts.since) / 1000000 }
    ensures quiet { result.quiet_ms ≡ (now - facts.last) / 1000000 }
{
    let (up, down) = served.counts.bytes();
    Shown {
        id,
        rule: rule.name,
        side: ShownSide::Listener,
        peer: Some(facts.listen),
        up,
        down,
        age_ms: ms_between(facts.since, now),
        quiet_ms: ms_between(facts.last, now),
    }
}

/// What is shown at this moment of the rule's listener with this id: where it listens, the bytes of
/// all connections of its rule so far, since when it stands, and how long ago it accepted last.
pub fn shown_listener<R: Wait>(
    rt: &R,
    served: &ServedRule,
    id: u64,
    facts: ListenerFacts,
    now: u64,
) -> Shown
    ensures id { result.id ≡ id }
    ensures side { result.side ≡ ShownSide.Listener }
    ensures peer { result.peer ≡ Some facts.listen }
    ensures age { result.age_ms ≡ (now - facts.since) / 1000000 }
    ensures quiet { result.quiet_ms ≡ (now - facts.last) / 1000000 }
{
    shown_of_rule(served, &served.rule(rt), id, facts, now)
}
