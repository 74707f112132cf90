//! How a relay runs: its event loops, old sockets in its way, where it answers for metrics, and where
//! it serves admin sessions.

ghost use Rattle.toml.specs.View.{table_view};
ghost use Rattle.relay_config.specs.Entries.{service_entry};
ghost use Rattle.relay_config.specs.Fault.{Reads};
ghost use Rattle.relay_config.specs.Service.{service_in};

use crate::admin::{Admin, admin_in};
use crate::fault::{Fault, Key, Place};
use crate::spelled::listener_in;
use crate::values::{flag_in, number_in};
use config_values::Addr;
use toml::Table;

/// The most event loops.
pub const MAX_LOOPS: u32 = 64;

/// How a relay runs.
#[derive(Clone, Copy, Debug, PartialEq, Eq, Drop)]
pub struct Service {
    /// How many event loops copy: 1 to 64; with `None` by the processors of the machine.
    pub loops: Option<u32>,
    /// A Unix socket at which no process listens is removed, and its path is bound anew, if the text
    /// says it.
    pub replaces_stale: Option<bool>,
    /// Where requests for metrics are answered, which is no name; with `None` nowhere.
    pub metrics: Option<Addr>,
    /// Where admin sessions are served, if the text says it.
    pub admin: Option<Admin>,
}

/// How a relay runs, as a table says.
#[tactic(auto, unfolding(crate::specs::Service::service_in))]
pub(crate) fn service_of(table: &Table) -> Result<Service, Fault>
    ensures { Reads service_entry result (service_in (table_view table.now)) }
{
    let loops = number_in(table, Place::Top, Key::Loops, 1, MAX_LOOPS)?;
    let replaces = flag_in(table, Place::Top, Key::ReplaceStale)?;
    let metrics = listener_in(table, Place::Top, Key::Metrics)?;
    let admin = admin_in(table)?;
    Ok(Service {
        loops,
        replaces_stale: replaces,
        metrics,
        admin,
    })
}
