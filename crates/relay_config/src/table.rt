//! A table of a TOML text: the value at a key, and keys that the table may not have.

ghost use Rattle.std.specs.Prelude.{◌≡◌, map, not, option_map, string_bytes};
ghost use Rattle.std.specs.BTreeMap.{keys};
ghost use Rattle.std.specs.List.{position};
ghost use Rattle.toml.specs.View.{table_view, view};
ghost use Rattle.relay_config.specs.Reading.{at_key, first_unknown, is_one_of, known_alone};

use crate::fault::{Fault, Key, Place};
use toml::{Table, Value};

/// The value at a key.
pub(crate) fn value_at(table: &Table, key: Key) -> Option<&Value>
    ensures { option_map (λ value. view value.now) result ≡ at_key key (table_view table.now) }
{
    table.get(key.word())
}

/// That the table has no keys but these.
pub(crate) fn known_alone(known: &[Key], place: Place, table: &Table) -> Result<(), Fault>
    ensures { result ≡ known_alone known.now place (table_view table.now) }
{
    match first_unknown(known, table) {
        Some(number) => Err(Fault::Unknown(place, number)),
        None => Ok(()),
    }
}

/// The number of the table's first key that isn't one of these.
fn first_unknown(known: &[Key], table: &Table) -> Option<usize>
    ensures { result ≡ first_unknown known.now (table_view table.now) }
{
    first_other(known, table)
}

fn first_other(known: &[Key], table: &Table) -> Option<usize>
    ensures { result ≡ position (λ word. not (is_one_of known.now (string_bytes word))) (keys table.now) }
{
    table
        .keys()
        .position(|word| !is_one_of(known, word.as_str()))
}

fn is_one_of(known: &[Key], word: &str) -> bool
    ensures { result ≡ is_one_of known.now word.now }
{
    for key in known {
        if key.word() == word {
            return true;
        }
    }
    false
}
