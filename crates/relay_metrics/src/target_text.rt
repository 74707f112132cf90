//! What the text says of targets.

ghost use Rattle.std.specs.Prelude.{◌≡◌, ◌++◌, OnOk};
ghost use Rattle.relay_metrics.specs.Text.{of_each_target, target_family_text, target_text, targets_text};
ghost use Rattle.relay_metrics.specs.Text.{up_of_target};

use crate::family::Family;
use crate::figures::TargetFigures;
use crate::rule_text::flag;
use crate::sample::write_escaped_sample;
use base_types::OutOfMemory;
use std::alloc::Allocator;

// A figure of a target.
#[tactic(auto, unfolding(crate::specs::Text::target_text))]
fn write_figure<A: Allocator>(
    into: &mut Vec<u8, A>,
    family: Family,
    target: &TargetFigures,
    n: u64,
) -> Result<(), OutOfMemory>
    ensures { OnOk result (into.new.items ≡ into.old.items ++ target_text family target.now n) }
{
    let rule = target.rule.as_str().as_bytes();
    let at = target.target.as_str().as_bytes();
    write_escaped_sample(into, family, rule, b"target", at, n)
}

// Whether a target is up, where it is checked.
#[tactic(auto, unfolding(crate::specs::Text::up_of_target))]
fn write_up<A: Allocator>(into: &mut Vec<u8, A>, target: &TargetFigures) -> Result<(), OutOfMemory>
    ensures { OnOk result
        (into.new.items ≡ into.old.items ++ up_of_target target.now target.now.is_up) }
{
    match target.is_up {
        Some(is_up) => write_figure(into, Family::TargetUp, target, flag(is_up)),
        None => Ok(()),
    }
}

#[tactic(auto, unfolding(crate::specs::Text::of_each_target))]
fn write_target<A: Allocator>(
    into: &mut Vec<u8, A>,
    family: Family,
    target: &TargetFigures,
) -> Result<(), OutOfMemory>
    ensures { OnOk result (into.new.items ≡ into.old.items ++ of_each_target family target.now) }
{
    match family {
        Family::TargetUp => write_up(into, target),
        Family::TargetConnections => write_figure(into, family, target, target.connections),
        Family::TargetConnects => write_figure(into, family, target, target.connects),
        Family::TargetFailures => write_figure(into, family, target, target.failures),
        _ => Ok(()),
    }
}

// A family of targets.
#[tactic(auto, unfolding(crate::specs::Text::target_family_text))]
fn write_family<A: Allocator>(
    into: &mut Vec<u8, A>,
    family: Family,
    targets: &[TargetFigures],
) -> Result<(), OutOfMemory>
    ensures { OnOk result
        (into.new.items ≡ into.old.items ++ target_family_text family targets.now) }
{
    family.write_head(into)?;
    for target in targets {
        write_target(into, family, target)?;
    }
    Ok(())
}

/// The families of targets.
#[tactic(auto, unfolding(crate::specs::Text::targets_text))]
pub(crate) fn write_targets<A: Allocator>(
    into: &mut Vec<u8, A>,
    targets: &[TargetFigures],
) -> Result<(), OutOfMemory>
    ensures { OnOk result (into.new.items ≡ into.old.items ++ targets_text targets.now) }
{
    write_family(into, Family::TargetUp, targets)?;
    write_family(into, Family::TargetConnections, targets)?;
    write_family(into, Family::TargetConnects, targets)?;
    write_family(into, Family::TargetFailures, targets)
}
