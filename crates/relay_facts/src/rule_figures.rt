//! What the metrics tell of a rule: the sums of what all loops count, and what is known of its targets.

ghost use Rattle.std.specs.Prelude.{◌≡◌, ◌+◌, ◌-◌, ◌^◌, OnOk, min};
ghost use Rattle.relay_facts.specs.Counts.{NoneFalls};
ghost use Rattle.relay_facts.specs.TargetFigures.{TellsOfSaid};
ghost use Rattle.relay_facts.specs.declared.served_rule.Said.{Said};

use crate::counts::{Counter, RuleCounts};
use crate::served_rule::{Said, ServedRule};
use base_types::OutOfMemory;
use relay_log::ended::{CAUSES, ENDS};
use relay_metrics::{
    CONNECT_PLACES, CarriedBytes, Durations, Refusals, RuleFigures, STANDING_PLACES, TargetFigures,
};
use std::sync::Wait;

// A sum past the greatest `u64` stays that.
fn add(sum: &mut u64, count: u64)
    ensures { sum.new ≡ min (sum.old + count) (2 ^ 64 - 1) }
{
    *sum = sum.saturating_add(count);
}

/// Adds to sums those counts, place by place.
pub(crate) fn add_each(sums: &mut [u64], counters: &[Counter])
    ensures { NoneFalls sums.old sums.new }
{
    for place in 0..sums.len().min(counters.len()) {
        add(&mut sums[place], counters[place].get());
    }
}

// The ways to end, and the causes, of all loops.
fn ends_and_causes(counts: &RuleCounts) -> ([u64; ENDS], [u64; CAUSES]) {
    let mut ends = [0u64; ENDS];
    let mut causes = [0u64; CAUSES];
    for counted in counts.loops() {
        add_each(&mut ends, &counted.ends.counts);
        add_each(&mut causes, &counted.causes.counts);
    }
    (ends, causes)
}

// How long connects took, and how long connections stood, of all loops.
fn durations(counts: &RuleCounts) -> (Durations<CONNECT_PLACES>, Durations<STANDING_PLACES>) {
    let mut connects = Durations {
        counts: [0u64; CONNECT_PLACES],
        sum_us: 0,
    };
    let mut stood = Durations {
        counts: [0u64; STANDING_PLACES],
        sum_us: 0,
    };
    for counted in counts.loops() {
        counted.connects.add_to(&mut connects);
        counted.stood.add_to(&mut stood);
    }
    (connects, stood)
}

// The sums of all loops, and what the main thread counts.
fn sums(counts: &RuleCounts) -> (u64, CarriedBytes, Refusals) {
    let mut connections = 0u64;
    let mut bytes = CarriedBytes::default();
    let mut refused = Refusals::default();
    add(&mut refused.denied, counts.denied.get());
    add(&mut refused.full, counts.full.get());
    add(&mut refused.rule_full, counts.rule_full.get());
    add(&mut refused.no_memory, counts.no_memory.get());
    add(&mut refused.source_full, counts.source_full.get());
    add(&mut refused.source_rate, counts.source_rate.get());
    for counted in counts.loops() {
        add(&mut connections, counted.standing());
        add(&mut bytes.up, counted.up.get());
        add(&mut bytes.down, counted.down.get());
        add(&mut refused.no_target, counted.no_target.get());
        add(&mut refused.no_memory, counted.no_memory.get());
        add(&mut refused.descriptors, counted.no_descriptors.get());
        add(&mut refused.no_header, counted.no_header.get());
        add(&mut refused.bad_header, counted.bad_header.get());
        add(&mut refused.source_full, counted.source_full.get());
        add(&mut refused.source_rate, counted.source_rate.get());
    }
    (connections, bytes, refused)
}

// Whether a target of a rule is up; a rule of which that can't be told counts as served.
fn has_target<R: Wait>(rt: &R, served: &ServedRule) -> bool {
    let Some(said) = served.said(rt) else {
        return true;
    };
    match &said.targets {
        Some(targets) => targets.has_one_up(),
        None => true,
    }
}

/// What is told of a rule at this moment.
pub fn rule_figures<R: Wait>(rt: &R, served: &ServedRule) -> RuleFigures {
    let (connections, bytes, refused) = sums(&served.counts);
    let (ends, unreached) = ends_and_causes(&served.counts);
    let (connects, stood) = durations(&served.counts);
    RuleFigures {
        name: served.rule(rt).name,
        connections,
        accepted: served.counts.accepted.get(),
        bytes,
        refused,
        ends,
        unreached,
        accept_faults: served.counts.accept_faults.get(),
        is_listening: served.is_listening(rt),
        has_target: has_target(rt, served),
        connects,
        stood,
    }
}

// Puts what is told of the targets of a rule that says this behind these.
fn add_said(said: &Said, figures: &mut Vec<TargetFigures>) -> Result<(), OutOfMemory>
    ensures { OnOk result (TellsOfSaid said.now figures.old.items figures.new.items) }
{
    match &said.targets {
        Some(targets) => targets.add_figures(said.rule.name, figures),
        None => Ok(()),
    }
}

/// Puts what is told of the targets of a rule at this moment behind these.
pub fn add_target_figures<R: Wait>(
    rt: &R,
    served: &ServedRule,
    figures: &mut Vec<TargetFigures>,
) -> Result<(), OutOfMemory>
    ensures { OnOk result ((said : Said) × TellsOfSaid said figures.old.items figures.new.items) }
{
    let Some(said) = served.said(rt) else {
        return Err(OutOfMemory);
    };
    add_said(&*said, figures)
}
