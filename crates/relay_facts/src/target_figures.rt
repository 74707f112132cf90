//! What the metrics tell of a rule's targets.

ghost use Rattle.std.specs.Prelude.{◌≡◌, true, OnOk, option_map};
ghost use Rattle.std.specs.List.{list_any};
ghost use Rattle.relay_admin.specs.rules.Addr.{address_of, address_text};
ghost use Rattle.relay_facts.specs.SetOrder.{is_up_by};
ghost use Rattle.relay_facts.specs.TargetFigures.{TellsOf};
ghost use Rattle.relay_facts.specs.Targets.{has_weight, targets_of};

use crate::set_order::is_up_by;
use crate::shown_targets::state_now;
use crate::target_list::{CountedTarget, Targets};
use arrayvec::ArrayString;
use base_types::OutOfMemory;
use relay_admin::{Order, TargetState};
use relay_metrics::TargetFigures;

// Whether a target is up of which this is set, by its health, if it has one.
fn up_by(order: Order, health: Option<bool>) -> Option<bool>
    ensures { result ≡ option_map (is_up_by order) health }
{
    Some(is_up_by(order, health?))
}

// What figures tell of a target, of a rule with this name.
fn figures_of(counted: &CountedTarget, rule: ArrayString<16>) -> TargetFigures
    ensures rule { result.rule ≡ rule }
    ensures target { result.target.bytes ≡ address_text (address_of counted.now.target.at) }
{
    let health = counted.health.as_ref().map(|health| health.is_up());
    TargetFigures {
        rule,
        target: counted.target.at.text(),
        is_up: up_by(counted.counts.order.get(), health),
        connections: counted.counts.standing(),
        connects: counted.counts.connects.get(),
        failures: counted.counts.failures.get(),
    }
}

// Whether a target is up and not drained, and has a weight: one without gets nobody.
fn gets_clients(counted: &CountedTarget) -> bool
    ensures { result ≡ true → has_weight counted.now.target ≡ true }
{
    counted.target.weight > 0 && state_now(counted) == TargetState::Up
}

impl Targets {
    /// Puts what figures tell of these targets, of a rule with this name, behind others. Targets at one
    /// address are one.
    pub(crate) fn add_figures(
        &self,
        rule: ArrayString<16>,
        figures: &mut Vec<TargetFigures>,
    ) -> Result<(), OutOfMemory>
        ensures { OnOk result
            (TellsOf rule.bytes (targets_of self.now) figures.old.items figures.new.items) }
    {
        for place in 0..self.all.len() {
            if self.is_repeated(place) {
                continue;
            }
            figures.push(figures_of(&self.all[place], rule))?;
        }
        Ok(())
    }

    /// Whether one of them gets clients.
    pub(crate) fn has_one_up(&self) -> bool
        ensures { result ≡ true → list_any has_weight (targets_of self.now) ≡ true }
    {
        for place in 0..self.all.len() {
            if gets_clients(&self.all[place]) {
                return true;
            }
        }
        false
    }
}
