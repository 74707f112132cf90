//! What stands at a spot of a table, for the words of a fault.

ghost use Rattle.std.specs.Prelude.{◌≡◌, IfOk, option_map};
ghost use Rattle.toml.specs.View.{table_view, view};
ghost use Rattle.relay_config.specs.LookedUp.{AreNearest, item_of, table_of_key, table_of_item};
ghost use Rattle.relay_config.specs.LookedUp as spec;

use crate::fault::{Key, Place, Spot};
use crate::table::value_at;
use crate::{admin, config, health, log, proxy, rule, target};
use std::alloc::{AllocError, Global};
use strsim::levenshtein;
use toml::{Table, Value};

/// The most bytes of a key that is compared with others.
const MAX_NEAR_BYTES: usize = 40;

/// The most edits from a key that is meant.
const MAX_EDITS: usize = 2;

/// The table at a place.
pub(crate) fn table_at(table: &Table, place: Place) -> Option<&Table>
    ensures { option_map (λ here. table_view here.now) result
        ≡ spec.table_at (table_view table.now) place }
{
    match place {
        Place::Top => Some(table),
        Place::Admin => table_of_key(table, Key::Admin),
        Place::Log => table_of_key(table, Key::Log),
        Place::Rule(rule) => table_of_item(table, Key::Rule, rule),
        Place::Proxy(rule) => table_of_key(
            table_of_item(table, Key::Rule, rule)?,
            Key::ProxyProtocol,
        ),
        Place::Health(rule) => table_of_key(table_of_item(table, Key::Rule, rule)?, Key::Health),
        Place::Target(rule, target) => {
            table_of_item(table_of_item(table, Key::Rule, rule)?, Key::Target, target)
        }
    }
}

/// The table at a key.
fn table_of_key(table: &Table, key: Key) -> Option<&Table>
    ensures { option_map (λ found. table_view found.now) result
        ≡ table_of_key key (table_view table.now) }
{
    value_at(table, key)?.as_table()
}

/// The item of this number in the list at a key.
fn item_of(table: &Table, key: Key, number: usize) -> Option<&Value>
    ensures { option_map (λ item. view item.now) result ≡ item_of key number (table_view table.now) }
{
    value_at(table, key)?.as_array()?.get(number)
}

/// The table of this number in the list at a key.
fn table_of_item(table: &Table, key: Key, number: usize) -> Option<&Table>
    ensures { option_map (λ found. table_view found.now) result
        ≡ table_of_item key number (table_view table.now) }
{
    item_of(table, key, number)?.as_table()
}

/// The value of a key or an item.
pub(crate) fn value_of(table: &Table, spot: Spot) -> Option<&Value>
    ensures { option_map (λ value. view value.now) result
        ≡ spec.value_at_spot (table_view table.now) spot }
{
    let here = table_at(table, spot.place)?;
    match spot.item {
        Some(number) => item_of(here, spot.key, number),
        None => value_at(here, spot.key),
    }
}

/// The key of this number of a place's table, in the order of keys.
pub(crate) fn key_number(table: &Table, place: Place, number: usize) -> &str
    ensures { result.now ≡ spec.key_number (table_view table.now) place number }
{
    let Some(here) = table_at(table, place) else {
        return "";
    };
    match here.keys().nth(number) {
        Some(word) => word.as_str(),
        None => "",
    }
}

/// The keys that a table at a place may have.
pub(crate) fn keys_of(place: Place) -> &'static [Key]
    ensures { result.now ≡ spec.keys_of place }
{
    match place {
        Place::Top => config::KEYS,
        Place::Admin => admin::KEYS,
        Place::Log => log::KEYS,
        Place::Rule(_) => rule::KEYS,
        Place::Proxy(_) => proxy::KEYS,
        Place::Health(_) => health::KEYS,
        Place::Target(_, _) => target::KEYS,
    }
}

/// The first of the keys that are the fewest edits from a word, where these are at most two.
pub(crate) fn nearest(alloc: Global, known: &[Key], word: &str) -> Result<Option<Key>, AllocError>
    ensures { IfOk result (AreNearest known.now word.now) }
{
    if word.len() > MAX_NEAR_BYTES {
        return Ok(None);
    }
    let mut best = None;
    let mut least = MAX_EDITS + 1;
    for key in known {
        let edits = levenshtein(alloc, key.word(), word)?;
        if edits < least {
            best = Some(*key);
            least = edits;
        }
    }
    Ok(best)
}
