//! What the text says of rules: a family's figures of all of them stand together.

ghost use Rattle.std.specs.Prelude.{◌≡◌, ◌++◌, OnOk, map};
ghost use Rattle.relay_metrics.specs.Text.{by_rule_text, by_source_text, cause_text, causes_text, defence_text};
ghost use Rattle.relay_metrics.specs.Text.{durations_text, flag, of_rule};
ghost use Rattle.relay_metrics.specs.Text.{refused_text, rule_bytes_text, rule_family_text};
ghost use Rattle.relay_metrics.specs.Text.{rules_text, shortage_text, unheard_text};

use crate::family::Family;
use crate::figures::{CarriedBytes, Refusals, RuleFigures};
use crate::histogram::{write_connects, write_stood};
use crate::sample::{write_rule_sample, write_sample};
use base_types::OutOfMemory;
use relay_log::ended::{CAUSE_WORDS, END_LABELS};
use std::alloc::Allocator;

/// The families of rules, but for those of durations.
#[tactic(auto, unfolding(crate::specs::Text::rules_text))]
pub(crate) fn write_rules<A: Allocator>(
    into: &mut Vec<u8, A>,
    rules: &[RuleFigures],
) -> Result<(), OutOfMemory>
    ensures { OnOk result (into.new.items ≡ into.old.items ++ rules_text rules.now) }
{
    write_family(into, Family::RuleConnections, rules)?;
    write_family(into, Family::RuleAccepted, rules)?;
    write_family(into, Family::RuleBytes, rules)?;
    write_family(into, Family::RuleRefused, rules)?;
    write_family(into, Family::RuleEnds, rules)?;
    write_defence(into, rules)
}

// The families of what keeps clients of rules from being served.
#[tactic(auto, unfolding(crate::specs::Text::defence_text))]
fn write_defence<A: Allocator>(
    into: &mut Vec<u8, A>,
    rules: &[RuleFigures],
) -> Result<(), OutOfMemory>
    ensures { OnOk result (into.new.items ≡ into.old.items ++ defence_text rules.now) }
{
    write_family(into, Family::RuleNoTarget, rules)?;
    write_family(into, Family::RuleAcceptFaults, rules)?;
    write_family(into, Family::RuleListening, rules)
}

/// The families of how long it took to connect, and how long connections stood.
#[tactic(auto, unfolding(crate::specs::Text::durations_text))]
pub(crate) fn write_durations<A: Allocator>(
    into: &mut Vec<u8, A>,
    rules: &[RuleFigures],
) -> Result<(), OutOfMemory>
    ensures { OnOk result (into.new.items ≡ into.old.items ++ durations_text rules.now) }
{
    write_family(into, Family::RuleConnects, rules)?;
    write_family(into, Family::RuleStood, rules)
}

/// 1 for what holds, and 0 for what doesn't.
pub(crate) fn flag(holds: bool) -> u64
    ensures { result ≡ flag holds }
{
    if holds { 1 } else { 0 }
}

#[tactic(auto, unfolding(crate::specs::Text::rule_family_text))]
fn write_family<A: Allocator>(
    into: &mut Vec<u8, A>,
    family: Family,
    rules: &[RuleFigures],
) -> Result<(), OutOfMemory>
    ensures { OnOk result
        (into.new.items ≡ into.old.items ++ rule_family_text family rules.now) }
{
    family.write_head(into)?;
    for rule in rules {
        write_rule(into, family, rule)?;
    }
    Ok(())
}

#[tactic(auto, unfolding(crate::specs::Text::of_rule))]
fn write_rule<A: Allocator>(
    into: &mut Vec<u8, A>,
    family: Family,
    rule: &RuleFigures,
) -> Result<(), OutOfMemory>
    ensures { OnOk result (into.new.items ≡ into.old.items ++ of_rule family rule.now) }
{
    let name = rule.name.as_str().as_bytes();
    match family {
        Family::RuleConnections => write_sample(into, family, b"rule", name, rule.connections),
        Family::RuleAccepted => write_sample(into, family, b"rule", name, rule.accepted),
        Family::RuleBytes => write_bytes(into, name, rule.bytes),
        Family::RuleRefused => write_refused(into, name, rule.refused),
        Family::RuleEnds => write_causes(into, family, name, &END_LABELS, &rule.ends),
        Family::RuleNoTarget => { write_causes(into, family, name, &CAUSE_WORDS, &rule.unreached) }
        Family::RuleAcceptFaults => write_sample(into, family, b"rule", name, rule.accept_faults),
        Family::RuleListening => {
            write_sample(into, family, b"rule", name, flag(rule.is_listening))
        }
        Family::RuleConnects => write_connects(into, name, &rule.connects),
        Family::RuleStood => write_stood(into, name, &rule.stood),
        _ => Ok(()),
    }
}

#[tactic(auto, unfolding(crate::specs::Text::rule_bytes_text))]
fn write_bytes<A: Allocator>(
    into: &mut Vec<u8, A>,
    rule: &[u8],
    bytes: CarriedBytes,
) -> Result<(), OutOfMemory>
    ensures { OnOk result (into.new.items ≡ into.old.items ++ rule_bytes_text rule.now bytes) }
{
    write_rule_sample(into, Family::RuleBytes, rule, b"way", b"up", bytes.up)?;
    write_rule_sample(into, Family::RuleBytes, rule, b"way", b"down", bytes.down)
}

#[tactic(auto, unfolding(crate::specs::Text::cause_text))]
fn write_cause<A: Allocator>(
    into: &mut Vec<u8, A>,
    family: Family,
    rule: &[u8],
    cause: &[u8],
    n: u64,
) -> Result<(), OutOfMemory>
    ensures { OnOk result
        (into.new.items ≡ into.old.items ++ cause_text family rule.now cause.now n) }
{
    write_rule_sample(into, family, rule, b"cause", cause, n)
}

#[tactic(auto, unfolding(crate::specs::Text::refused_text))]
fn write_refused<A: Allocator>(
    into: &mut Vec<u8, A>,
    rule: &[u8],
    refused: Refusals,
) -> Result<(), OutOfMemory>
    ensures { OnOk result (into.new.items ≡ into.old.items ++ refused_text rule.now refused) }
{
    write_by_rule(into, rule, refused)?;
    write_shortages(into, rule, refused)?;
    write_headers(into, rule, refused)?;
    write_sources(into, rule, refused)
}

// Those that its lists, a limit or the state of its targets refused.
#[tactic(auto, unfolding(crate::specs::Text::by_rule_text))]
fn write_by_rule<A: Allocator>(
    into: &mut Vec<u8, A>,
    rule: &[u8],
    refused: Refusals,
) -> Result<(), OutOfMemory>
    ensures { OnOk result (into.new.items ≡ into.old.items ++ by_rule_text rule.now refused) }
{
    write_cause(into, Family::RuleRefused, rule, b"denied", refused.denied)?;
    write_cause(into, Family::RuleRefused, rule, b"full", refused.full)?;
    write_cause(
        into,
        Family::RuleRefused,
        rule,
        b"no_target",
        refused.no_target,
    )?;
    write_cause(
        into,
        Family::RuleRefused,
        rule,
        b"rule_full",
        refused.rule_full,
    )
}

// Those of clients of whose source there were enough.
#[tactic(auto, unfolding(crate::specs::Text::by_source_text))]
fn write_sources<A: Allocator>(
    into: &mut Vec<u8, A>,
    rule: &[u8],
    refused: Refusals,
) -> Result<(), OutOfMemory>
    ensures { OnOk result (into.new.items ≡ into.old.items ++ by_source_text rule.now refused) }
{
    write_cause(
        into,
        Family::RuleRefused,
        rule,
        b"source_full",
        refused.source_full,
    )?;
    write_cause(
        into,
        Family::RuleRefused,
        rule,
        b"source_rate",
        refused.source_rate,
    )
}

// Those of clients that didn't say who they are.
#[tactic(auto, unfolding(crate::specs::Text::unheard_text))]
fn write_headers<A: Allocator>(
    into: &mut Vec<u8, A>,
    rule: &[u8],
    refused: Refusals,
) -> Result<(), OutOfMemory>
    ensures { OnOk result (into.new.items ≡ into.old.items ++ unheard_text rule.now refused) }
{
    write_cause(
        into,
        Family::RuleRefused,
        rule,
        b"no_header",
        refused.no_header,
    )?;
    write_cause(
        into,
        Family::RuleRefused,
        rule,
        b"bad_header",
        refused.bad_header,
    )
}

// Those for want of what the system gives.
#[tactic(auto, unfolding(crate::specs::Text::shortage_text))]
fn write_shortages<A: Allocator>(
    into: &mut Vec<u8, A>,
    rule: &[u8],
    refused: Refusals,
) -> Result<(), OutOfMemory>
    ensures { OnOk result (into.new.items ≡ into.old.items ++ shortage_text rule.now refused) }
{
    write_cause(
        into,
        Family::RuleRefused,
        rule,
        b"no_memory",
        refused.no_memory,
    )?;
    write_cause(
        into,
        Family::RuleRefused,
        rule,
        b"descriptors",
        refused.descriptors,
    )
}

// A rule's figure for each cause, by the places of the causes.
#[tactic(auto, unfolding(crate::specs::Text::causes_text))]
fn write_causes<A: Allocator>(
    into: &mut Vec<u8, A>,
    family: Family,
    rule: &[u8],
    causes: &[&[u8]],
    counts: &[u64],
) -> Result<(), OutOfMemory>
    ensures { OnOk result (into.new.items ≡ into.old.items
        ++ causes_text family rule.now (map (λ cause. cause.now) causes.now) counts.now) }
{
    for place in 0..causes.len().min(counts.len()) {
        write_cause(into, family, rule, causes[place], counts[place])?;
    }
    Ok(())
}
