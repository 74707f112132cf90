//! Values of a table: those that have to be there, texts, numbers, flags.

ghost use Rattle.std.specs.Prelude.{◌≡◌, ◌≤◌, IfOk, IfSome};
ghost use Rattle.toml.specs.View.{table_view, view};
ghost use Rattle.relay_config.specs.Fault.{Reads, spot};
ghost use Rattle.relay_config.specs.Reading.{at_key, flag, if_there, needed, number, text};

use crate::fault::{Fault, Key, Place, Spot, Wrong};
use crate::table::value_at;
use toml::{Table, Value};

/// The value at a key that the table has to have.
pub(crate) fn needed(table: &Table, place: Place, key: Key) -> Result<&Value, Fault>
    ensures { Reads (λ value. view value.now) result
        (needed (spot place key) (at_key key (table_view table.now))) }
{
    match value_at(table, key) {
        Some(value) => Ok(value),
        None => Err(Fault::At(Spot::of(place, key), Wrong::Missing)),
    }
}

/// The text that a value is.
pub(crate) fn text_of(spot: Spot, value: &Value) -> Result<&str, Fault>
    ensures { Reads (λ bytes. bytes.now) result (text spot (view value.now)) }
{
    match value.as_str() {
        Some(text) => Ok(text),
        None => Err(Fault::At(spot, Wrong::Type)),
    }
}

fn number_of_value(low: u32, high: u32, spot: Spot, value: &Value) -> Result<u32, Fault>
    ensures value { result ≡ number low high spot (view value.now) }
    ensures most { IfOk result (λ n. n ≤ high) }
{
    let Some(number) = value.as_integer() else {
        return Err(Fault::At(spot, Wrong::Type));
    };
    match u32::try_from(number) {
        Ok(number) if low <= number && number <= high => Ok(number),
        _ => Err(Fault::At(spot, Wrong::Value)),
    }
}

/// The number from `low` to `high` at a key, if the table has one.
pub(crate) fn number_in(
    table: &Table,
    place: Place,
    key: Key,
    low: u32,
    high: u32,
) -> Result<Option<u32>, Fault>
    ensures value { result ≡ if_there (number low high (spot place key))
        (at_key key (table_view table.now)) }
    ensures most { IfOk result (λ found. IfSome found (λ n. n ≤ high)) }
{
    let Some(value) = value_at(table, key) else {
        return Ok(None);
    };
    let number = number_of_value(low, high, Spot::of(place, key), value)?;
    Ok(Some(number))
}

/// `true` or `false` at a key, if the table has one of them.
pub(crate) fn flag_in(table: &Table, place: Place, key: Key) -> Result<Option<bool>, Fault>
    ensures { result ≡ if_there (flag (spot place key)) (at_key key (table_view table.now)) }
{
    let Some(value) = value_at(table, key) else {
        return Ok(None);
    };
    match value.as_bool() {
        Some(flag) => Ok(Some(flag)),
        None => Err(Fault::At(Spot::of(place, key), Wrong::Type)),
    }
}
