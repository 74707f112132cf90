//! How the sockets of a rule are set up.

ghost use Rattle.toml.specs.View.{table_view};
ghost use Rattle.relay_config.specs.Entries.{sockets_entry};
ghost use Rattle.relay_config.specs.Fault.{Reads};
ghost use Rattle.relay_config.specs.Sockets.{sockets_at};

use crate::fault::{Fault, Key, Place};
use crate::spelled::{keepalive_in, mode_in, source_in, time_in};
use crate::values::number_in;
use std::net::IpAddr;
use toml::Table;

/// The most clients that may wait for an accept.
pub const MAX_BACKLOG: u32 = 65_535;

/// How the sockets of a rule are set up: those of its listeners, of its clients and to its targets.
#[derive(Clone, Copy, Debug, PartialEq, Eq, Drop)]
pub struct Sockets {
    /// A peer that was silent for so many milliseconds is asked whether it is there: whole seconds,
    /// 1 to 32,767; with `None` it never is.
    pub keepalive_ms: Option<u64>,
    /// A peer that left sent bytes unacknowledged for so many milliseconds is given up; with `None`
    /// when the system gives up.
    pub user_timeout_ms: Option<u64>,
    /// How many clients may wait for an accept: 1 to 65,535; with `None` as many as the relay has
    /// without it. The system may have a lower limit.
    pub backlog: Option<u32>,
    /// The address that connects come from, not IPv4-mapped; with `None` the system picks it.
    pub source: Option<IpAddr>,
    /// The mode of each Unix socket at which the rule listens, at most 0777; with `None` what the
    /// umask leaves of all.
    pub mode: Option<u16>,
}

/// How the sockets of the rule at a place are set up.
#[tactic(auto, unfolding(crate::specs::Sockets::sockets_at))]
pub(crate) fn sockets_of(place: Place, table: &Table) -> Result<Sockets, Fault>
    ensures { Reads sockets_entry result (sockets_at place (table_view table.now)) }
{
    let keepalive = keepalive_in(table, place, Key::Keepalive)?;
    let user_timeout = time_in(table, place, Key::UserTimeout)?;
    let backlog = number_in(table, place, Key::Backlog, 1, MAX_BACKLOG)?;
    let source = source_in(table, place, Key::Source)?;
    let mode = mode_in(table, place, Key::Mode)?;
    Ok(Sockets {
        keepalive_ms: keepalive.unwrap_or(None),
        user_timeout_ms: user_timeout.unwrap_or(None),
        backlog,
        source,
        mode,
    })
}
