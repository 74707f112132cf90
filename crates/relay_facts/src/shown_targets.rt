//! What an admin session is shown of a rule's targets.

ghost use Rattle.std.specs.Prelude.{◌≡◌, ◌+◌, ◌<◌, IfSome, IsSomeAnd, slice_get};
ghost use Rattle.relay_facts.specs.Steering.{ms_since, state_of};
ghost use Rattle.relay_facts.specs.Targets.{targets_of};

use crate::set_order::{is_drained_by, is_up_by};
use crate::target_list::{CountedTarget, Targets};
use crate::targets::is_healthy;
use arrayvec::ArrayString;
use relay_admin::{Order, ShownTarget, TargetState};

/// A moment, by the calendar in milliseconds since 1970, and in milliseconds since the relay's start.
#[derive(Clone, Copy, Debug, PartialEq, Eq, Drop)]
pub struct ShownAt {
    pub calendar_ms: u64,
    pub running_ms: u64,
}

// The state of a target of which this is set.
fn state_of(order: Order, is_healthy: bool) -> TargetState
    ensures { result ≡ state_of order is_healthy }
{
    if !is_up_by(order, is_healthy) {
        return TargetState::Down;
    }
    if is_drained_by(order) {
        TargetState::Drained
    } else {
        TargetState::Up
    }
}

/// The state of a target now.
pub(crate) fn state_now(counted: &CountedTarget) -> TargetState {
    state_of(counted.counts.order.get(), is_healthy(counted))
}

// For how long a target has had its state: since this moment, or, where none is noted, since the relay's
// start.
fn ms_since(since: u64, now: ShownAt) -> u64
    ensures { result ≡ ms_since since now }
{
    if since == 0 {
        now.running_ms
    } else {
        now.calendar_ms.saturating_sub(since)
    }
}

// What is shown of a target at this place of the rule with this name, under this number.
fn shown_of(
    counted: &CountedTarget,
    rule: ArrayString<16>,
    place: usize,
    number: u64,
    now: ShownAt,
) -> ShownTarget
    ensures number { result.number ≡ number }
    ensures rule { result.rule ≡ rule }
    ensures place { place < 64 → result.place ≡ place + 1 }
    ensures at { result.at ≡ counted.now.target.at }
{
    let counts = &counted.counts;
    let order = counts.order.get();
    ShownTarget {
        number,
        rule,
        place: (place as u64).saturating_add(1),
        at: counted.target.at,
        state: state_of(order, is_healthy(counted)),
        since_ms: ms_since(counts.since(), now),
        set: order,
        connections: counts.standing(),
        connects: counts.connects.get(),
        failures: counts.failures.get(),
        is_checked: counted.health.is_some(),
        passed: counts.passed.get(),
        failed: counts.failed.get(),
        last_failure: counts.last_failure(),
    }
}

impl Targets {
    /// What is shown at this moment of the target at this place, of the rule with this name, under this
    /// number.
    pub fn shown(
        &self,
        rule: ArrayString<16>,
        place: usize,
        number: u64,
        now: ShownAt,
    ) -> Option<ShownTarget>
        ensures number { IfSome result (λ shown. shown.number ≡ number) }
        ensures rule { IfSome result (λ shown. shown.rule ≡ rule) }
        ensures place { IfSome result (λ shown. shown.place ≡ place + 1) }
        ensures at { IfSome result (λ shown. IsSomeAnd (slice_get (targets_of self.now) place)
            (λ target. shown.at ≡ target.at)) }
    {
        let counted = self.all.get(place)?;
        Some(shown_of(counted, rule, place, number, now))
    }
}
