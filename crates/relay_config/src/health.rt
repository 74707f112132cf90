//! How the targets of a rule are checked.

ghost use Rattle.std.specs.Prelude.{◌≡◌, option_map};
ghost use Rattle.toml.specs.View.{table_view, view};
ghost use Rattle.relay_config.specs.Entries.{checks_entry};
ghost use Rattle.relay_config.specs.Fault.{Reads};
ghost use Rattle.relay_config.specs.Health.{health_at, health_in};
ghost use Rattle.relay_config.specs.Reading.{at_key, if_there};

use crate::fault::{Fault, Key, Place, Spot};
use crate::items::members_of;
use crate::spelled::period_in;
use crate::table::{known_alone, value_at};
use crate::values::number_in;
use toml::{Table, Value};

/// How long after a check the next one begins where the text doesn't say it, in milliseconds.
pub const DEFAULT_EVERY_MS: u64 = 2_000;

/// How long a check may take where the text doesn't say it, in milliseconds.
pub const DEFAULT_TIMEOUT_MS: u64 = 1_000;

/// How many failures bring a target down where the text doesn't say it.
pub const DEFAULT_FALL: u32 = 3;

/// How many passed checks bring it up where the text doesn't say it.
pub const DEFAULT_RISE: u32 = 2;

/// The most outcomes in a row that may be asked for.
pub const MAX_IN_A_ROW: u32 = 100;

/// How the targets of a rule are checked.
#[derive(Clone, Copy, Debug, PartialEq, Eq, Drop)]
pub struct Checks {
    /// So many milliseconds after a check the next one begins: 1 to those of a day.
    pub every_ms: u64,
    /// A check that takes longer has failed: 1 to the milliseconds of a day.
    pub timeout_ms: u64,
    /// So many failures in a row bring a target down: 1 to 100.
    pub fall: u32,
    /// So many passed checks in a row bring it up: 1 to 100.
    pub rise: u32,
}

/// The keys of the table of checks.
pub(crate) const KEYS: &[Key] = &[Key::Every, Key::Timeout, Key::Fall, Key::Rise];

/// How the targets of this rule are checked, if its table says it.
pub(crate) fn health_in(rule: usize, table: &Table) -> Result<Option<Checks>, Fault>
    ensures { Reads (option_map checks_entry) result
        (if_there (health_at rule) (at_key Key.Health (table_view table.now))) }
{
    let Some(value) = value_at(table, Key::Health) else {
        return Ok(None);
    };
    let checks = health_of_value(rule, value)?;
    Ok(Some(checks))
}

#[tactic(auto, unfolding(crate::specs::Health::health_at))]
fn health_of_value(rule: usize, value: &Value) -> Result<Checks, Fault>
    ensures { Reads checks_entry result (health_at rule (view value.now)) }
{
    let table = members_of(Spot::of(Place::Rule(rule), Key::Health), value)?;
    health_of(Place::Health(rule), table)
}

#[tactic(auto, unfolding(crate::specs::Health::health_in))]
fn health_of(place: Place, table: &Table) -> Result<Checks, Fault>
    ensures { Reads checks_entry result (health_in place (table_view table.now)) }
{
    known_alone(KEYS, place, table)?;
    let every = period_in(table, place, Key::Every)?;
    let timeout = period_in(table, place, Key::Timeout)?;
    let fall = number_in(table, place, Key::Fall, 1, MAX_IN_A_ROW)?;
    let rise = number_in(table, place, Key::Rise, 1, MAX_IN_A_ROW)?;
    Ok(Checks {
        every_ms: every.unwrap_or(DEFAULT_EVERY_MS),
        timeout_ms: timeout.unwrap_or(DEFAULT_TIMEOUT_MS),
        fall: fall.unwrap_or(DEFAULT_FALL),
        rise: rise.unwrap_or(DEFAULT_RISE),
    })
}
