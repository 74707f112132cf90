//! How many clients a rule serves.

ghost use Rattle.toml.specs.View.{table_view};
ghost use Rattle.relay_config.specs.Clients.{clients_in};
ghost use Rattle.relay_config.specs.Entries.{clients_entry};
ghost use Rattle.relay_config.specs.Fault.{Reads};

use crate::config::MAX_CONNECTIONS;
use crate::fault::{Fault, Key, Place};
use crate::spelled::rate_in;
use crate::values::number_in;
use config_values::Rate;
use toml::Table;

/// How many clients a rule serves. A source is an IPv4 address, or a network of IPv6 of 64 bits.
#[derive(Clone, Copy, Debug, PartialEq, Eq, Drop)]
pub struct Clients {
    /// How many of its connections may stand at once: 1 to 50,000; with `None` as many as those of
    /// any rule.
    pub connections: Option<u32>,
    /// How many of them may be of one source: 1 to 50,000; with `None` all.
    pub source_connections: Option<u32>,
    /// How many clients of one source are let in, in how many seconds; with `None` all.
    pub source_accepts: Option<Rate>,
}

/// How many clients the rule at a place serves.
#[tactic(auto, unfolding(crate::specs::Clients::clients_in))]
pub(crate) fn clients_of(place: Place, table: &Table) -> Result<Clients, Fault>
    ensures { Reads clients_entry result (clients_in place (table_view table.now)) }
{
    let connections = number_in(table, place, Key::Connections, 1, MAX_CONNECTIONS)?;
    let each = number_in(table, place, Key::ConnectionsPerSource, 1, MAX_CONNECTIONS)?;
    let accepts = rate_in(table, place, Key::AcceptsPerSource)?;
    Ok(Clients {
        connections,
        source_connections: each,
        source_accepts: accepts,
    })
}
