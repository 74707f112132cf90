//! Headers of the PROXY protocol, from clients and to targets.

ghost use Rattle.std.specs.Prelude.{◌≡◌, option_map};
ghost use Rattle.toml.specs.View.{table_view, view};
ghost use Rattle.relay_config.specs.Entries.{proxy_entry};
ghost use Rattle.relay_config.specs.Fault.{Answers};
ghost use Rattle.relay_config.specs.Proxy.{proxy_at, proxy_in};
ghost use Rattle.relay_config.specs.Reading.{at_key, if_there};

use crate::fault::{Fault, Key, Place, Spot};
use crate::items::members_of;
use crate::nets::nets_of;
use crate::spelled::version_in;
use crate::table::{known_alone, value_at};
use client_nets::Net;
use std::alloc::Global;
use toml::{Table, Value};

/// The version of a header.
#[derive(Clone, Copy, Debug, PartialEq, Eq, Drop)]
pub enum Version {
    /// A line of text.
    V1,
    /// Bytes behind a signature.
    V2,
}

/// Headers of the PROXY protocol.
#[derive(Drop)]
pub struct Proxy {
    /// The networks whose clients begin with a header, of either version, at most 256; without any
    /// no client does.
    pub from_client: Vec<Net>,
    /// With which header a connection to a target begins; with `None` with none.
    pub to_target: Option<Version>,
}

/// The keys of the table of headers.
pub(crate) const KEYS: &[Key] = &[Key::FromClient, Key::ToTarget];

/// The headers of this rule, if its table says them.
pub(crate) fn proxy_in(alloc: Global, rule: usize, table: &Table) -> Result<Option<Proxy>, Fault>
    ensures { Answers (option_map proxy_entry) result
        (if_there (proxy_at rule) (at_key Key.ProxyProtocol (table_view table.now))) }
{
    let Some(value) = value_at(table, Key::ProxyProtocol) else {
        return Ok(None);
    };
    match proxy_of_value(alloc, rule, value) {
        Ok(proxy) => Ok(Some(proxy)),
        Err(fault) => Err(fault),
    }
}

#[tactic(auto, unfolding(crate::specs::Proxy::proxy_at))]
fn proxy_of_value(alloc: Global, rule: usize, value: &Value) -> Result<Proxy, Fault>
    ensures { Answers proxy_entry result (proxy_at rule (view value.now)) }
{
    let table = members_of(Spot::of(Place::Rule(rule), Key::ProxyProtocol), value)?;
    proxy_of(alloc, Place::Proxy(rule), table)
}

#[tactic(auto, unfolding(crate::specs::Proxy::proxy_in))]
fn proxy_of(alloc: Global, place: Place, table: &Table) -> Result<Proxy, Fault>
    ensures { Answers proxy_entry result (proxy_in place (table_view table.now)) }
{
    known_alone(KEYS, place, table)?;
    let from_client = nets_of(alloc, table, place, Key::FromClient)?;
    let to_target = version_in(table, place, Key::ToTarget)?;
    Ok(Proxy {
        from_client,
        to_target,
    })
}
