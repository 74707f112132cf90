//! What is said of a fault, for who wrote the text.

ghost use Rattle.std.specs.Prelude.{◌≡◌, ◌++◌, IfOk, codes, option_map};
ghost use Rattle.std.specs.Fmt.{decimal};
ghost use Rattle.std.specs.String.{string_bytes};
ghost use Rattle.toml.specs.View.{table_view, view};
ghost use Rattle.relay_config.specs.Fronts.{IsLongestFront};
ghost use Rattle.relay_config.specs.Line.{IsText, IsTomlLine, IsUnknownLine, SaysLine};
ghost use Rattle.relay_config.specs.Line.{key_words, name_of, place_words, rule_words, shown, spot_line};
ghost use Rattle.relay_config.specs.Line.{spot_words, twice_words, value_words, wrong_words};
ghost use Rattle.relay_config.specs.Wanted.{most_of};

use crate::config::{MAX_BYTES, MAX_RULES};
use crate::fault::{Fault, Key, Place, Spot, Wrong};
use crate::listen::MAX_LISTENERS;
use crate::looked_up::{key_number, keys_of, nearest, value_of};
use crate::nets::MAX_NETS;
use crate::target::MAX_TARGETS;
use crate::words::{wanted, wanted_type};
use std::alloc::{AllocError, Global};
use toml::{Table, Value};

/// The most bytes of a value or a key that are shown.
const MAX_SHOWN_BYTES: usize = 60;

/// The line that says a fault of this text, without a line feed: the rule by its name, the key, the
/// value as it is written, and what is wanted. An error where memory is refused.
pub fn fault_line(alloc: Global, text: &[u8], fault: Fault) -> Result<String, AllocError>
    ensures { IfOk result (λ line. SaysLine text.now fault (string_bytes line)) }
{
    match fault {
        Fault::Memory => String::from_str(alloc, "bad config: out of memory"),
        Fault::TooLong => format!(in alloc; "bad config: more than {MAX_BYTES} bytes"),
        Fault::Toml(line, column) => toml_line(alloc, text, line, column),
        Fault::Unknown(place, number) => match toml::table_from_slice(alloc, text) {
            Ok(table) => unknown_line(alloc, &table, place, number),
            Err(_) => Err(AllocError),
        },
        Fault::At(spot, wrong) => match toml::table_from_slice(alloc, text) {
            Ok(table) => spot_line(alloc, &table, spot, wrong),
            Err(_) => Err(AllocError),
        },
    }
}

/// What the reader of TOML says, and where.
fn toml_line(alloc: Global, text: &[u8], line: usize, column: usize) -> Result<String, AllocError>
    ensures { IfOk result (λ told. IsTomlLine line column (string_bytes told)) }
{
    match toml::table_from_slice(alloc, text) {
        Ok(_) => Err(AllocError),
        Err(error) => {
            let why = error.message();
            format!(in alloc; "bad config: line {line}, column {column}: no TOML: {why}")
        }
    }
}

/// A key that the table may not have, and the nearest one that it may.
fn unknown_line(
    alloc: Global,
    table: &Table,
    place: Place,
    number: usize,
) -> Result<String, AllocError>
    ensures { IfOk result (λ line.
        IsUnknownLine (table_view table.now) place number (string_bytes line)) }
{
    let here = place_words(alloc, table, place)?;
    let here = here.as_str();
    let word = key_number(table, place, number);
    let shown = cut(word);
    match nearest(alloc, keys_of(place), word)? {
        Some(key) => {
            let key = key.word();
            format!(in alloc; "bad config: {here}unknown key {shown:?}; \"{key}\" is meant?")
        }
        None => format!(in alloc; "bad config: {here}unknown key {shown:?}"),
    }
}

/// What is wrong with a key or an item.
fn spot_line(alloc: Global, table: &Table, spot: Spot, wrong: Wrong) -> Result<String, AllocError>
    ensures { IfOk result (λ line.
        IsText (spot_line (table_view table.now) spot wrong) (string_bytes line)) }
{
    let here = spot_words(alloc, table, spot)?;
    let here = here.as_str();
    if let Wrong::Missing = wrong {
        return format!(in alloc; "bad config: {here} is missing");
    }
    let what = what_is_wrong(alloc, table, spot, wrong)?;
    let what = what.as_str();
    format!(in alloc; "bad config: {here}: {what}")
}

fn what_is_wrong(
    alloc: Global,
    table: &Table,
    spot: Spot,
    wrong: Wrong,
) -> Result<String, AllocError>
    ensures { IfOk result (λ words.
        IsText (wrong_words (table_view table.now) spot wrong) (string_bytes words)) }
{
    let value = shown(alloc, value_of(table, spot))?;
    let value = value.as_str();
    match wrong {
        Wrong::Missing => String::from_str(alloc, "missing"),
        Wrong::Type => {
            let wanted = wanted_type(spot);
            format!(in alloc; "{value} is not {wanted}")
        }
        Wrong::Value => {
            let wanted = wanted(spot.key);
            format!(in alloc; "{value} is {wanted}")
        }
        Wrong::Empty => String::from_str(alloc, "the list is empty"),
        Wrong::TooMany => too_many(alloc, spot.key),
        Wrong::Twice => twice(alloc, spot.key, value),
        Wrong::Unserved => String::from_str(alloc, "this version doesn't serve it"),
    }
}

fn too_many(alloc: Global, key: Key) -> Result<String, AllocError>
    ensures { IfOk result (λ words.
        string_bytes words ≡ codes "more than " ++ decimal (most_of key)) }
{
    let most = match key {
        Key::Listen => MAX_LISTENERS,
        Key::Target => MAX_TARGETS,
        Key::Allow | Key::Deny | Key::FromClient => MAX_NETS,
        _ => MAX_RULES,
    };
    format!(in alloc; "more than {most}")
}

fn twice(alloc: Global, key: Key, value: &str) -> Result<String, AllocError>
    ensures { IfOk result (λ words. string_bytes words ≡ value.now ++ twice_words key) }
{
    match key {
        Key::Name => format!(in alloc; "{value} is the name of a rule before it"),
        _ => format!(in alloc; "{value} is listened at already"),
    }
}

/// The key of the table, or the rule by its name, or else by its number from 1, and the target by its
/// number.
fn place_words(alloc: Global, table: &Table, place: Place) -> Result<String, AllocError>
    ensures { IfOk result (λ words.
        IsText (place_words (table_view table.now) place) (string_bytes words)) }
{
    match place {
        Place::Top => Ok(String::new(alloc)),
        Place::Admin => String::from_str(alloc, "admin: "),
        Place::Log => String::from_str(alloc, "log: "),
        Place::Rule(rule) => rule_words(alloc, table, rule),
        Place::Proxy(rule) => key_words(alloc, table, rule, Key::ProxyProtocol),
        Place::Health(rule) => key_words(alloc, table, rule, Key::Health),
        Place::Target(rule, target) => {
            let rule = rule_words(alloc, table, rule)?;
            let rule = rule.as_str();
            let number = target.saturating_add(1);
            format!(in alloc; "{rule}target {number}: ")
        }
    }
}

/// A key of a rule that has a table.
fn key_words(alloc: Global, table: &Table, rule: usize, key: Key) -> Result<String, AllocError>
    ensures { IfOk result (λ words.
        IsText (key_words (table_view table.now) rule key) (string_bytes words)) }
{
    let rule = rule_words(alloc, table, rule)?;
    let rule = rule.as_str();
    let key = key.word();
    format!(in alloc; "{rule}{key}: ")
}

fn rule_words(alloc: Global, table: &Table, rule: usize) -> Result<String, AllocError>
    ensures { IfOk result (λ words.
        IsText (rule_words (table_view table.now) rule) (string_bytes words)) }
{
    match name_of(table, rule) {
        Some(name) => {
            let name = cut(name);
            format!(in alloc; "rule {name:?}: ")
        }
        None => {
            let number = rule.saturating_add(1);
            format!(in alloc; "rule {number}: ")
        }
    }
}

/// The name of a rule, where it is a text.
fn name_of(table: &Table, rule: usize) -> Option<&str>
    ensures { option_map (λ name. name.now) result ≡ name_of (table_view table.now) rule }
{
    value_of(table, Spot::of(Place::Rule(rule), Key::Name))?.as_str()
}

/// The place, the key, and the item by its number from 1.
fn spot_words(alloc: Global, table: &Table, spot: Spot) -> Result<String, AllocError>
    ensures { IfOk result (λ words.
        IsText (spot_words (table_view table.now) spot) (string_bytes words)) }
{
    let here = place_words(alloc, table, spot.place)?;
    let here = here.as_str();
    let key = spot.key.word();
    match spot.item {
        Some(number) => {
            let number = number.saturating_add(1);
            format!(in alloc; "{here}{key} {number}")
        }
        None => format!(in alloc; "{here}{key}"),
    }
}

/// A value as it is written, or what it is where that may be long; nothing where none is.
fn shown(alloc: Global, value: Option<&Value>) -> Result<String, AllocError>
    ensures { IfOk result (λ words.
        IsText (shown (option_map (λ value. view value.now) value.entry)) (string_bytes words)) }
{
    match value {
        Some(value) => value_words(alloc, value),
        None => Ok(String::new(alloc)),
    }
}

/// A text is shown with escapes, as a line may have no line feed and no control character.
fn value_words(alloc: Global, value: &Value) -> Result<String, AllocError>
    ensures { IfOk result (λ words. IsText (value_words (view value.now)) (string_bytes words)) }
{
    match value {
        Value::String(text) => {
            let text = cut(text.as_str());
            format!(in alloc; "{text:?}")
        }
        Value::Integer(number) => format!(in alloc; "{number}"),
        Value::Boolean(flag) => format!(in alloc; "{flag}"),
        Value::Float(_) => String::from_str(alloc, "a number with a fraction"),
        Value::Datetime(_) => String::from_str(alloc, "a date or a time of day"),
        Value::Array(_) => String::from_str(alloc, "a list"),
        Value::Table(_) => String::from_str(alloc, "a table"),
    }
}

/// The front of a text, as many whole characters as are shown at most.
fn cut(text: &str) -> &str
    ensures { IsLongestFront MAX_SHOWN_BYTES text.now result.now }
{
    &text[..text.floor_char_boundary(MAX_SHOWN_BYTES)]
}
