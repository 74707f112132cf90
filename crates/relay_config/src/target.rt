//! The targets of a rule.

ghost use Rattle.std.specs.Prelude.{◌≡◌, [], map};
ghost use Rattle.toml.specs.View.{items_view, table_view, view};
ghost use Rattle.relay_config.specs.Entries.{target_entry};
ghost use Rattle.relay_config.specs.Rule.{target_behind, target_in, targets_of};
ghost use Rattle.relay_config.specs.Fault.{Answers, Reads};
ghost use Rattle.relay_config.specs.Reading.{each_in};

use crate::fault::{Fault, Key, Place, Spot};
use crate::items::{members_of, some_items};
use crate::spelled::address_of_value;
use crate::table::known_alone;
use crate::values::{flag_in, needed, number_in};
use config_values::Addr;
use std::alloc::Global;
use toml::{Table, Value};

/// The most targets of a rule.
pub const MAX_TARGETS: usize = 64;

/// A target of a rule.
#[derive(Clone, Copy, Debug, PartialEq, Eq, Drop)]
pub struct Target {
    pub at: Addr,
    /// How many turns it has, of all targets' together: 0 to 65,535, else 1. With 0 it gets nobody.
    pub weight: u16,
    /// It gets clients only where no other target may take them.
    pub is_backup: bool,
}

/// The keys of a target.
pub(crate) const KEYS: &[Key] = &[Key::At, Key::Weight, Key::Backup];

/// The targets of a rule, one at least.
#[tactic(auto, unfolding(crate::specs::Rule::targets_of))]
pub(crate) fn targets_of(alloc: Global, rule: usize, table: &Table) -> Result<Vec<Target>, Fault>
    ensures { Answers (λ found. map target_entry found.items) result
        (targets_of rule (table_view table.now)) }
{
    let items = some_items(table, Place::Rule(rule), Key::Target, MAX_TARGETS)?;
    targets_in(alloc, rule, items)
}

/// The targets that items say.
fn targets_in(alloc: Global, rule: usize, items: &[Value]) -> Result<Vec<Target>, Fault>
    ensures { Answers (λ found. map target_entry found.items) result
        (each_in (target_behind rule) [] (items_view items.now)) }
{
    let mut found = Vec::new(alloc);
    for value in items {
        let target = target_behind(rule, found.as_slice(), value)?;
        if found.push(target).is_err() {
            return Err(Fault::Memory);
        }
    }
    Ok(found)
}

/// The target behind these of a rule.
#[tactic(auto, unfolding(crate::specs::Rule::target_behind))]
fn target_behind(rule: usize, found: &[Target], value: &Value) -> Result<Target, Fault>
    ensures { Reads target_entry result
        (target_behind rule (map target_entry found.now) (view value.now)) }
{
    let number = found.len();
    let table = members_of(Spot::item(Place::Rule(rule), Key::Target, number), value)?;
    target_of(Place::Target(rule, number), table)
}

/// The target that a table says.
#[tactic(auto, unfolding(crate::specs::Rule::target_in))]
fn target_of(place: Place, table: &Table) -> Result<Target, Fault>
    ensures { Reads target_entry result (target_in place (table_view table.now)) }
{
    known_alone(KEYS, place, table)?;
    let value = needed(table, place, Key::At)?;
    let at = address_of_value(Spot::of(place, Key::At), value)?;
    let weight = number_in(table, place, Key::Weight, 0, 65_535)?;
    let backup = flag_in(table, place, Key::Backup)?;
    Ok(Target {
        at,
        weight: weight.unwrap_or(1) as u16,
        is_backup: backup.unwrap_or(false),
    })
}
