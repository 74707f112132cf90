//! Where ended and refused connections are told.

ghost use Rattle.std.specs.Prelude.{◌≡◌, Ok, option_map};
ghost use Rattle.toml.specs.View.{table_view, view};
ghost use Rattle.relay_config.specs.Entries.{log_entry};
ghost use Rattle.relay_config.specs.Service.{log_alone, log_at, log_in};
ghost use Rattle.relay_config.specs.Fault.{Answers, spot};
ghost use Rattle.relay_config.specs.Reading.{at_key, if_there};

use crate::fault::{Fault, Key, Place, Spot};
use crate::paths::path_of;
use crate::spelled::format_in;
use crate::table::{known_alone, value_at};
use crate::values::needed;
use std::alloc::Global;
use toml::{Table, Value};

/// The most bytes of the path of a log: those of Linux, but for the zero byte at its end.
pub const MAX_LOG_BYTES: usize = 4_095;

/// How a line of a log is written.
#[derive(Clone, Copy, Debug, PartialEq, Eq, Drop)]
pub enum Format {
    /// Fields with spaces between them.
    Text,
    /// A JSON object.
    Json,
}

/// A log.
#[derive(Drop)]
pub struct Log {
    /// Its path, 1 to 4,095 bytes, none of them zero; `-` is standard error.
    pub file: String,
    pub format: Format,
}

/// The keys of a log's table.
pub(crate) const KEYS: &[Key] = &[Key::File, Key::Format];

/// The log of a configuration, if it has one.
pub(crate) fn log_in(alloc: Global, table: &Table) -> Result<Option<Log>, Fault>
    ensures { Answers (option_map log_entry) result
        (if_there log_at (at_key Key.Log (table_view table.now))) }
{
    let Some(value) = value_at(table, Key::Log) else {
        return Ok(None);
    };
    match log_of_value(alloc, value) {
        Ok(log) => Ok(Some(log)),
        Err(fault) => Err(fault),
    }
}

/// The log that a value says: a table, or a path alone.
#[tactic(auto, unfolding(crate::specs::Service::log_at))]
fn log_of_value(alloc: Global, value: &Value) -> Result<Log, Fault>
    ensures { Answers log_entry result (log_at (view value.now)) }
{
    match value.as_table() {
        Some(table) => log_of(alloc, table),
        None => log_alone(alloc, value),
    }
}

#[tactic(auto, unfolding(crate::specs::Service::log_alone))]
fn log_alone(alloc: Global, value: &Value) -> Result<Log, Fault>
    ensures { Answers log_entry result (log_alone (view value.now)) }
{
    let file = path_of(MAX_LOG_BYTES, Spot::of(Place::Top, Key::Log), value)?;
    log_at_path(alloc, file, Format::Text)
}

#[tactic(auto, unfolding(crate::specs::Service::log_in))]
fn log_of(alloc: Global, table: &Table) -> Result<Log, Fault>
    ensures { Answers log_entry result (log_in (table_view table.now)) }
{
    known_alone(KEYS, Place::Log, table)?;
    let value = needed(table, Place::Log, Key::File)?;
    let file = path_of(MAX_LOG_BYTES, Spot::of(Place::Log, Key::File), value)?;
    let format = format_in(table, Place::Log, Key::Format)?;
    log_at_path(alloc, file, format.unwrap_or(Format::Text))
}

fn log_at_path(alloc: Global, file: &str, format: Format) -> Result<Log, Fault>
    ensures { Answers log_entry result (Ok (record { file = file.now; format = format })) }
{
    match String::from_str(alloc, file) {
        Ok(file) => Ok(Log { file, format }),
        Err(_) => Err(Fault::Memory),
    }
}
