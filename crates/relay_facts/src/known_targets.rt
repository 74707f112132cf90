//! What the targets of a new list have of the list before: connections stand there still, and a
//! target that was down is.

ghost use Rattle.std.specs.Prelude.{◌≡◌, is_some, IfOk, IfSome, option_copied};
ghost use Rattle.std.specs.Arc.{arc_value};
ghost use Rattle.relay_facts.specs.KnownTargets as spec;

use crate::shared_health::TargetHealth;
use crate::target_counts::TargetCounts;
use crate::target_list::{CountedTarget, Targets};
use base_types::OutOfMemory;
use relay_admin::{Addr, is_same_addr};
use relay_settings::Checks;
use std::alloc::Global;
use std::sync::Arc;

/// The first of these at this address.
pub(crate) fn target_at<'a>(all: &'a [CountedTarget], at: &Addr) -> Option<&'a CountedTarget>
    ensures { option_copied result ≡ spec.listed_at at.now all.now }
{
    all.iter().find(|one| is_same_addr(&one.target.at, at))
}

// What is counted at this address: by these targets, or by those of the list before.
#[tactic(auto, using(crate::proofs::KnownLemmas::of_made, crate::proofs::KnownLemmas::of_none, crate::proofs::KnownLemmas::of_before))]
fn counted_at<'a>(
    made: &'a [CountedTarget],
    before: Option<&'a Targets>,
    at: &Addr,
) -> Option<&'a CountedTarget>
    ensures { option_copied result ≡ spec.counted_at made.now (option_copied before.entry) at.now }
{
    if let Some(counted) = target_at(made, at) {
        return Some(counted);
    }
    target_at(before?.all.as_slice(), at)
}

/// What is counted at this address from now on: what those targets count there, if one has it.
pub(crate) fn counts_at(
    alloc: Global,
    at: &Addr,
    made: &[CountedTarget],
    before: Option<&Targets>,
) -> Result<Arc<TargetCounts>, OutOfMemory>
    ensures { IfOk result (λ counts. IfSome
        (spec.counted_at made.now (option_copied before.entry) at.now)
        (λ counted. arc_value counts ≡ arc_value counted.counts)) }
{
    match counted_at(made, before, at) {
        Some(counted) => Ok(Arc::try_clone(&counted.counts)?),
        None => Ok(Arc::new(alloc, TargetCounts::new())?),
    }
}

// The health that is known at this address: of these targets, or of those of the list before.
#[tactic(auto, using(crate::proofs::KnownLemmas::known_none, crate::proofs::KnownLemmas::known_of))]
fn known_at<'a>(
    made: &'a [CountedTarget],
    before: Option<&'a Targets>,
    at: &Addr,
) -> Option<&'a Arc<TargetHealth>>
    ensures { option_copied result ≡ spec.known_at made.now (option_copied before.entry) at.now }
{
    counted_at(made, before, at)?.health.as_ref()
}

// The same health, where these checks have its limits. Else its state stays, and outcomes are counted
// anew.
fn kept(
    alloc: Global,
    known: &Arc<TargetHealth>,
    checks: &Checks,
) -> Result<Arc<TargetHealth>, OutOfMemory> {
    if known.has_limits_of(checks) {
        return Ok(Arc::try_clone(known)?);
    }
    Ok(Arc::new(alloc, TargetHealth::of_state(known.is_up(), checks))?)
}

/// The health of a target at this address from now on, where it is checked: the one that is known
/// there, else a new one, by which it is up.
pub(crate) fn health_at(
    alloc: Global,
    at: &Addr,
    checks: Option<Checks>,
    made: &[CountedTarget],
    before: Option<&Targets>,
) -> Result<Option<Arc<TargetHealth>>, OutOfMemory>
    ensures { IfOk result (λ health. is_some health ≡ is_some checks) }
{
    let Some(checks) = checks else {
        return Ok(None);
    };
    let health = match known_at(made, before, at) {
        Some(known) => kept(alloc, known, &checks)?,
        None => Arc::new(alloc, TargetHealth::of_state(true, &checks))?,
    };
    Ok(Some(health))
}
