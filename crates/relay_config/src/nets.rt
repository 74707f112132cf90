//! Lists of networks.

ghost use Rattle.std.specs.Prelude.{◌≡◌, [], map};
ghost use Rattle.client_nets.specs.Net.{network_of};
ghost use Rattle.toml.specs.View.{items_view, table_view, view};
ghost use Rattle.relay_config.specs.Fault.{Answers, Reads};
ghost use Rattle.relay_config.specs.Nets.{net_behind, nets_of, network_at};
ghost use Rattle.relay_config.specs.Reading.{each_in, spelled};

use crate::fault::{Fault, Key, Place, Spot, Wrong};
use crate::items::some_if_there;
use crate::values::text_of;
use client_nets::Net;
use config_values::is_mapped;
use std::alloc::Global;
use toml::{Table, Value};

/// The most networks of a list.
pub const MAX_NETS: usize = 256;

/// The networks of the list at a key, one at least; none where the table has no such key.
#[tactic(auto, unfolding(crate::specs::Nets::nets_of))]
pub(crate) fn nets_of(
    alloc: Global,
    table: &Table,
    place: Place,
    key: Key,
) -> Result<Vec<Net>, Fault>
    ensures { Answers (λ found. map network_of found.items) result
        (nets_of place key (table_view table.now)) }
{
    let items = some_if_there(table, place, key, MAX_NETS)?;
    nets_in(alloc, place, key, items)
}

/// The networks that items say.
fn nets_in(alloc: Global, place: Place, key: Key, items: &[Value]) -> Result<Vec<Net>, Fault>
    ensures { Answers (λ found. map network_of found.items) result
        (each_in (net_behind place key) [] (items_view items.now)) }
{
    let mut found = Vec::new(alloc);
    for value in items {
        let net = net_behind(place, key, found.as_slice(), value)?;
        if found.push(net).is_err() {
            return Err(Fault::Memory);
        }
    }
    Ok(found)
}

/// The network behind these of a list.
fn net_behind(place: Place, key: Key, found: &[Net], value: &Value) -> Result<Net, Fault>
    ensures { Reads network_of result
        (net_behind place key (map network_of found.now) (view value.now)) }
{
    net_of_value(Spot::item(place, key, found.len()), value)
}

/// The network that a value spells. One of IPv4-mapped addresses is none: no client is looked up as
/// one of them.
fn net_of_value(spot: Spot, value: &Value) -> Result<Net, Fault>
    ensures { Reads network_of result (spelled network_at spot (view value.now)) }
{
    let text = text_of(spot, value)?;
    match Net::parse(text.as_bytes()) {
        Some(Net::V6(first, _)) if is_mapped(first) => Err(Fault::At(spot, Wrong::Value)),
        Some(net) => Ok(net),
        None => Err(Fault::At(spot, Wrong::Value)),
    }
}
