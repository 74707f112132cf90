//! Where admin sessions are served.

ghost use Rattle.std.specs.Prelude.{◌≡◌, ◌≤◌, length, option_map, IfOk};
ghost use Rattle.config_values.specs.Mode.{mode_at};
ghost use Rattle.toml.specs.View.{table_view, view};
ghost use Rattle.relay_config.specs.Entries.{admin_entry};
ghost use Rattle.relay_config.specs.Service.{admin_alone, admin_at, admin_in};
ghost use Rattle.relay_config.specs.Fault.{Reads, spot};
ghost use Rattle.relay_config.specs.Reading.{at_key, if_there, spelled};
ghost use Rattle.relay_config.specs.Values.{file_path};

use crate::fault::{Fault, Key, Place, Spot};
use crate::paths::path_of;
use crate::spelled::mode_in;
use crate::table::{known_alone, value_at};
use crate::values::needed;
use arrayvec::ArrayString;
use toml::{Table, Value};

/// The most bytes of the path of an admin socket.
pub const MAX_ADMIN_BYTES: usize = 100;

/// The socket of admin sessions.
#[derive(Clone, Copy, Debug, PartialEq, Eq, Drop)]
pub struct Admin {
    /// Its path: 1 to 100 bytes, none of them zero.
    pub path: ArrayString<MAX_ADMIN_BYTES>,
    /// Its mode; with `None` what the umask leaves of all.
    pub mode: Option<u16>,
}

/// The keys of an admin socket's table.
pub(crate) const KEYS: &[Key] = &[Key::Path, Key::Mode];

/// The admin socket of a configuration, if it has one.
pub(crate) fn admin_in(table: &Table) -> Result<Option<Admin>, Fault>
    ensures { Reads (option_map admin_entry) result
        (if_there admin_at (at_key Key.Admin (table_view table.now))) }
{
    let Some(value) = value_at(table, Key::Admin) else {
        return Ok(None);
    };
    let admin = admin_of_value(value)?;
    Ok(Some(admin))
}

/// The admin socket that a value says: a table, or a path alone.
#[tactic(auto, unfolding(crate::specs::Service::admin_at))]
fn admin_of_value(value: &Value) -> Result<Admin, Fault>
    ensures { Reads admin_entry result (admin_at (view value.now)) }
{
    match value.as_table() {
        Some(table) => admin_of(table),
        None => admin_alone(value),
    }
}

#[tactic(auto, unfolding(crate::specs::Service::admin_alone))]
fn admin_alone(value: &Value) -> Result<Admin, Fault>
    ensures { Reads admin_entry result (admin_alone (view value.now)) }
{
    let path = socket_path(Spot::of(Place::Top, Key::Admin), value)?;
    Ok(Admin { path, mode: None })
}

#[tactic(auto, unfolding(crate::specs::Service::admin_in))]
fn admin_of(table: &Table) -> Result<Admin, Fault>
    ensures { Reads admin_entry result (admin_in (table_view table.now)) }
{
    known_alone(KEYS, Place::Admin, table)?;
    let value = needed(table, Place::Admin, Key::Path)?;
    let path = socket_path(Spot::of(Place::Admin, Key::Path), value)?;
    let mode = mode_in(table, Place::Admin, Key::Mode)?;
    Ok(Admin { path, mode })
}

fn socket_path(spot: Spot, value: &Value) -> Result<ArrayString<MAX_ADMIN_BYTES>, Fault>
    ensures { Reads (λ path. path.bytes) result
        (spelled (file_path MAX_ADMIN_BYTES) spot (view value.now)) }
{
    let path = path_of(MAX_ADMIN_BYTES, spot, value)?;
    match ArrayString::from(path) {
        Ok(path) => Ok(path),
        Err(_) => unreachable!(),
    }
}
