//! Tables and lists of a table, and their items.

ghost use Rattle.toml.specs.View.{array_view, items_view, table_view, view};
ghost use Rattle.relay_config.specs.Fault.{Reads};
ghost use Rattle.relay_config.specs.Reading.{items_in, list, members, some_if_there};
ghost use Rattle.relay_config.specs.Reading.{some_items, some_list};

use crate::fault::{Fault, Key, Place, Spot, Wrong};
use crate::table::value_at;
use crate::values::needed;
use toml::value::Array;
use toml::{Table, Value};

/// The table that a value is.
pub(crate) fn members_of(spot: Spot, value: &Value) -> Result<&Table, Fault>
    ensures { Reads (λ table. table_view table.now) result (members spot (view value.now)) }
{
    match value.as_table() {
        Some(table) => Ok(table),
        None => Err(Fault::At(spot, Wrong::Type)),
    }
}

/// The list that a value is, of at most so many items.
fn list_of(most: usize, spot: Spot, value: &Value) -> Result<&Array, Fault>
    ensures { Reads (λ items. array_view items.now) result (list most spot (view value.now)) }
{
    match value.as_array() {
        Some(items) if items.len() <= most => Ok(items),
        Some(_) => Err(Fault::At(spot, Wrong::TooMany)),
        None => Err(Fault::At(spot, Wrong::Type)),
    }
}

/// The items of the list that a value is, one at least and at most so many.
#[tactic(auto, using(crate::proofs::Lists::some_view, crate::proofs::Lists::none_view))]
fn some_list_of(most: usize, spot: Spot, value: &Value) -> Result<&[Value], Fault>
    ensures { Reads (λ items. items_view items.now) result (some_list most spot (view value.now)) }
{
    let items = list_of(most, spot, value)?;
    if items.is_empty() {
        return Err(Fault::At(spot, Wrong::Empty));
    }
    Ok(items.as_slice())
}

/// The items of the list that has to be at a key, one at least and at most so many.
#[tactic(auto, unfolding(crate::specs::Reading::some_items))]
pub(crate) fn some_items(
    table: &Table,
    place: Place,
    key: Key,
    most: usize,
) -> Result<&[Value], Fault>
    ensures { Reads (λ items. items_view items.now) result
        (some_items most place key (table_view table.now)) }
{
    let value = needed(table, place, key)?;
    some_list_of(most, Spot::of(place, key), value)
}

/// The items of the list at a key, one at least and at most so many; none where the table has no
/// such key.
#[tactic(auto, unfolding(crate::specs::Reading::some_if_there))]
pub(crate) fn some_if_there(
    table: &Table,
    place: Place,
    key: Key,
    most: usize,
) -> Result<&[Value], Fault>
    ensures { Reads (λ items. items_view items.now) result
        (some_if_there most place key (table_view table.now)) }
{
    let Some(value) = value_at(table, key) else {
        return Ok(&[]);
    };
    some_list_of(most, Spot::of(place, key), value)
}

/// The items of the list at a key, at most so many; none where the table has no such key.
#[tactic(auto, unfolding(crate::specs::Reading::items_in))]
pub(crate) fn items_in(
    table: &Table,
    place: Place,
    key: Key,
    most: usize,
) -> Result<&[Value], Fault>
    ensures { Reads (λ items. items_view items.now) result
        (items_in most place key (table_view table.now)) }
{
    let Some(value) = value_at(table, key) else {
        return Ok(&[]);
    };
    let items = list_of(most, Spot::of(place, key), value)?;
    Ok(items.as_slice())
}
