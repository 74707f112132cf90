//! What texts of a table spell: times, rates, modes, words, addresses.

ghost use Rattle.std.specs.Prelude.{◌≡◌, option_map};
ghost use Rattle.config_values.specs.Addr.{address_at, address_of};
ghost use Rattle.config_values.specs.Mode.{mode_at};
ghost use Rattle.config_values.specs.Rate.{rate_at};
ghost use Rattle.config_values.specs.Time.{time_at};
ghost use Rattle.config_values.specs.Ip.{ip_view};
ghost use Rattle.toml.specs.View.{table_view, view};
ghost use Rattle.relay_config.specs.Fault.{Reads, spot};
ghost use Rattle.relay_config.specs.Reading.{at_key, if_there, spelled};
ghost use Rattle.relay_config.specs.Values.{balance_at, format_at, keepalive_at, listener_at};
ghost use Rattle.relay_config.specs.Values.{source_at, time_or_never, version_at};

use crate::fault::{Fault, Key, Place, Spot, Wrong};
use crate::log::Format;
use crate::proxy::Version;
use crate::table::value_at;
use crate::values::text_of;
use config_values::{Addr, Rate, addr_of, ip_of, is_mapped, mode_of, rate_of, time_of};
use std::net::IpAddr;
use target_pick::Balance;
use toml::{Table, Value};

/// The longest silence before a keepalive, in milliseconds: Linux takes up to 32,767 seconds.
pub const MAX_KEEPALIVE_MS: u64 = 32_767_000;

fn time_of_value(spot: Spot, value: &Value) -> Result<Option<u64>, Fault>
    ensures { result ≡ spelled time_or_never spot (view value.now) }
{
    let text = text_of(spot, value)?;
    if text == "never" {
        return Ok(None);
    }
    match time_of(text.as_bytes()) {
        Some(ms) => Ok(Some(ms)),
        None => Err(Fault::At(spot, Wrong::Value)),
    }
}

/// The time at a key, if the table has one; `None` within it is `never`.
pub(crate) fn time_in(table: &Table, place: Place, key: Key) -> Result<Option<Option<u64>>, Fault>
    ensures { result ≡ if_there (spelled time_or_never (spot place key))
        (at_key key (table_view table.now)) }
{
    let Some(value) = value_at(table, key) else {
        return Ok(None);
    };
    let time = time_of_value(Spot::of(place, key), value)?;
    Ok(Some(time))
}

fn keepalive_of_value(spot: Spot, value: &Value) -> Result<Option<u64>, Fault>
    ensures { result ≡ spelled keepalive_at spot (view value.now) }
{
    let text = text_of(spot, value)?;
    if text == "never" {
        return Ok(None);
    }
    match time_of(text.as_bytes()) {
        Some(ms) if ms % 1_000 == 0 && ms <= MAX_KEEPALIVE_MS => Ok(Some(ms)),
        _ => Err(Fault::At(spot, Wrong::Value)),
    }
}

/// The time of keepalives at a key, if the table has one; `None` within it is `never`.
pub(crate) fn keepalive_in(
    table: &Table,
    place: Place,
    key: Key,
) -> Result<Option<Option<u64>>, Fault>
    ensures { result ≡ if_there (spelled keepalive_at (spot place key))
        (at_key key (table_view table.now)) }
{
    let Some(value) = value_at(table, key) else {
        return Ok(None);
    };
    let time = keepalive_of_value(Spot::of(place, key), value)?;
    Ok(Some(time))
}

fn balance_of_value(spot: Spot, value: &Value) -> Result<Balance, Fault>
    ensures { result ≡ spelled balance_at spot (view value.now) }
{
    let text = text_of(spot, value)?;
    if text == "round-robin" {
        Ok(Balance::RoundRobin)
    } else if text == "least-connections" {
        Ok(Balance::LeastConnections)
    } else if text == "first" {
        Ok(Balance::First)
    } else if text == "source" {
        Ok(Balance::Source)
    } else {
        Err(Fault::At(spot, Wrong::Value))
    }
}

/// The way to pick targets at a key, if the table has one.
pub(crate) fn balance_in(table: &Table, place: Place, key: Key) -> Result<Option<Balance>, Fault>
    ensures { result ≡ if_there (spelled balance_at (spot place key))
        (at_key key (table_view table.now)) }
{
    let Some(value) = value_at(table, key) else {
        return Ok(None);
    };
    let balance = balance_of_value(Spot::of(place, key), value)?;
    Ok(Some(balance))
}

/// The mode of a file at a key, if the table has one.
pub(crate) fn mode_in(table: &Table, place: Place, key: Key) -> Result<Option<u16>, Fault>
    ensures { result ≡ if_there (spelled mode_at (spot place key))
        (at_key key (table_view table.now)) }
{
    let Some(value) = value_at(table, key) else {
        return Ok(None);
    };
    let text = text_of(Spot::of(place, key), value)?;
    match mode_of(text.as_bytes()) {
        Some(mode) => Ok(Some(mode)),
        None => Err(Fault::At(Spot::of(place, key), Wrong::Value)),
    }
}

/// The rate at a key, if the table has one.
pub(crate) fn rate_in(table: &Table, place: Place, key: Key) -> Result<Option<Rate>, Fault>
    ensures { result ≡ if_there (spelled rate_at (spot place key))
        (at_key key (table_view table.now)) }
{
    let Some(value) = value_at(table, key) else {
        return Ok(None);
    };
    let text = text_of(Spot::of(place, key), value)?;
    match rate_of(text.as_bytes()) {
        Some(rate) => Ok(Some(rate)),
        None => Err(Fault::At(Spot::of(place, key), Wrong::Value)),
    }
}

/// The time at a key, if the table has one.
pub(crate) fn period_in(table: &Table, place: Place, key: Key) -> Result<Option<u64>, Fault>
    ensures { result ≡ if_there (spelled time_at (spot place key))
        (at_key key (table_view table.now)) }
{
    let Some(value) = value_at(table, key) else {
        return Ok(None);
    };
    let text = text_of(Spot::of(place, key), value)?;
    match time_of(text.as_bytes()) {
        Some(ms) => Ok(Some(ms)),
        None => Err(Fault::At(Spot::of(place, key), Wrong::Value)),
    }
}

/// The version of a header at a key, if the table has one.
pub(crate) fn version_in(table: &Table, place: Place, key: Key) -> Result<Option<Version>, Fault>
    ensures { result ≡ if_there (spelled version_at (spot place key))
        (at_key key (table_view table.now)) }
{
    let Some(value) = value_at(table, key) else {
        return Ok(None);
    };
    let text = text_of(Spot::of(place, key), value)?;
    if text == "v1" {
        Ok(Some(Version::V1))
    } else if text == "v2" {
        Ok(Some(Version::V2))
    } else {
        Err(Fault::At(Spot::of(place, key), Wrong::Value))
    }
}

/// The form of the log at a key, if the table has one.
pub(crate) fn format_in(table: &Table, place: Place, key: Key) -> Result<Option<Format>, Fault>
    ensures { result ≡ if_there (spelled format_at (spot place key))
        (at_key key (table_view table.now)) }
{
    let Some(value) = value_at(table, key) else {
        return Ok(None);
    };
    let text = text_of(Spot::of(place, key), value)?;
    if text == "text" {
        Ok(Some(Format::Text))
    } else if text == "json" {
        Ok(Some(Format::Json))
    } else {
        Err(Fault::At(Spot::of(place, key), Wrong::Value))
    }
}

/// The address that a value spells.
pub(crate) fn address_of_value(spot: Spot, value: &Value) -> Result<Addr, Fault>
    ensures { Reads address_of result (spelled address_at spot (view value.now)) }
{
    let text = text_of(spot, value)?;
    match addr_of(text.as_bytes()) {
        Some(addr) => Ok(addr),
        None => Err(Fault::At(spot, Wrong::Value)),
    }
}

/// The address of a listener that a value spells.
pub(crate) fn listener_of_value(spot: Spot, value: &Value) -> Result<Addr, Fault>
    ensures { Reads address_of result (spelled listener_at spot (view value.now)) }
{
    let text = text_of(spot, value)?;
    match addr_of(text.as_bytes()) {
        Some(Addr::Name(_, _)) => Err(Fault::At(spot, Wrong::Value)),
        Some(addr) => Ok(addr),
        None => Err(Fault::At(spot, Wrong::Value)),
    }
}

/// The address of a listener at a key, if the table has one.
pub(crate) fn listener_in(table: &Table, place: Place, key: Key) -> Result<Option<Addr>, Fault>
    ensures { Reads (option_map address_of) result
        (if_there (spelled listener_at (spot place key)) (at_key key (table_view table.now))) }
{
    let Some(value) = value_at(table, key) else {
        return Ok(None);
    };
    let addr = listener_of_value(Spot::of(place, key), value)?;
    Ok(Some(addr))
}

fn source_of_value(spot: Spot, value: &Value) -> Result<IpAddr, Fault>
    ensures { Reads ip_view result (spelled source_at spot (view value.now)) }
{
    let text = text_of(spot, value)?;
    match ip_of(text.as_bytes()) {
        Some(IpAddr::V6(address)) if is_mapped(address) => Err(Fault::At(spot, Wrong::Value)),
        Some(address) => Ok(address),
        None => Err(Fault::At(spot, Wrong::Value)),
    }
}

/// The IP address at a key, if the table has one; an IPv4-mapped one is none.
pub(crate) fn source_in(table: &Table, place: Place, key: Key) -> Result<Option<IpAddr>, Fault>
    ensures { Reads (option_map ip_view) result
        (if_there (spelled source_at (spot place key)) (at_key key (table_view table.now))) }
{
    let Some(value) = value_at(table, key) else {
        return Ok(None);
    };
    let address = source_of_value(Spot::of(place, key), value)?;
    Ok(Some(address))
}
