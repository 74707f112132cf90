//! Where a rule listens.

ghost use Rattle.std.specs.Prelude.{◌≡◌, [], map};
ghost use Rattle.config_values.specs.Addr.{address_of};
ghost use Rattle.toml.specs.View.{items_view, table_view, view};
ghost use Rattle.relay_config.specs.Entries.{rule_entry};
ghost use Rattle.relay_config.specs.Rule.{has_address, has_listener, listener_behind, listeners_of};
ghost use Rattle.relay_config.specs.Fault.{Answers, Reads};
ghost use Rattle.relay_config.specs.Reading.{each_in};

use crate::fault::{Fault, Key, Place, Spot, Wrong};
use crate::items::some_items;
use crate::rule::Rule;
use crate::spelled::listener_of_value;
use config_values::{Addr, is_same_addr};
use std::alloc::Global;
use toml::{Table, Value};

/// The most listeners of a rule.
pub const MAX_LISTENERS: usize = 16;

/// The listeners of the rule behind these, one at least.
#[tactic(auto, unfolding(crate::specs::Rule::listeners_of))]
pub(crate) fn listeners_of(
    alloc: Global,
    before: &[Rule],
    table: &Table,
) -> Result<Vec<Addr>, Fault>
    ensures { Answers (λ found. map address_of found.items) result
        (listeners_of (map rule_entry before.now) (table_view table.now)) }
{
    let items = some_items(table, Place::Rule(before.len()), Key::Listen, MAX_LISTENERS)?;
    listeners_in(alloc, before, items)
}

/// The listeners that items say.
fn listeners_in(alloc: Global, before: &[Rule], items: &[Value]) -> Result<Vec<Addr>, Fault>
    ensures { Answers (λ found. map address_of found.items) result
        (each_in (listener_behind (map rule_entry before.now)) [] (items_view items.now)) }
{
    let mut found = Vec::new(alloc);
    for value in items {
        let addr = listener_behind(before, found.as_slice(), value)?;
        if found.push(addr).is_err() {
            return Err(Fault::Memory);
        }
    }
    Ok(found)
}

/// The listener behind these of the rule behind those.
#[tactic(auto, unfolding(crate::specs::Rule::listener_behind))]
fn listener_behind(before: &[Rule], found: &[Addr], value: &Value) -> Result<Addr, Fault>
    ensures { Reads address_of result
        (listener_behind (map rule_entry before.now) (map address_of found.now) (view value.now)) }
{
    let spot = Spot::item(Place::Rule(before.len()), Key::Listen, found.len());
    let addr = listener_of_value(spot, value)?;
    if has_address(&addr, found) || has_listener(&addr, before) {
        return Err(Fault::At(spot, Wrong::Twice));
    }
    Ok(addr)
}

fn has_address(addr: &Addr, found: &[Addr]) -> bool
    ensures { result ≡ has_address (address_of addr.now) (map address_of found.now) }
{
    for other in found {
        if is_same_addr(other, addr) {
            return true;
        }
    }
    false
}

fn has_listener(addr: &Addr, rules: &[Rule]) -> bool
    ensures { result ≡ has_listener (address_of addr.now) (map rule_entry rules.now) }
{
    for rule in rules {
        if has_address(addr, rule.listen.as_slice()) {
            return true;
        }
    }
    false
}
