//! The addresses, times, limits and places of a configuration that a relay can have.

ghost use Rattle.std.specs.Prelude.{◌≡◌, true, IfOk, option_map};
ghost use Rattle.config_values.specs.Addr as config;
ghost use Rattle.relay_admin.specs.rules.Addr.{address_of};
ghost use Rattle.relay_config.specs.Fault.{Reads};
ghost use Rattle.relay_settings.specs.Meaning.{pairs_in, relay_address, relay_address_at, relay_time};
ghost use Rattle.relay_settings.specs.Meaning.{served, served_if, time_in, unserved};

use arrayvec::ArrayString;
use config_values::DAY_MS;
use relay_admin::Addr;
use relay_config::{Fault, Spot, Wrong};
use relay_core::PairLimit;

/// The fault of a place that isn't carried out.
pub(crate) fn unserved(spot: Spot) -> Fault
    ensures { result ≡ unserved spot }
{
    Fault::At(spot, Wrong::Unserved)
}

/// A place that is carried out, or isn't.
pub(crate) fn served_if(spot: Spot, is_served: bool) -> Result<(), Fault>
    ensures is { result ≡ served_if spot is_served }
    ensures served { IfOk result (λ it. is_served ≡ true) }
{
    if is_served {
        Ok(())
    } else {
        Err(unserved(spot))
    }
}

/// The address of a relay that an address of a configuration is.
pub(crate) fn relay_address(addr: &config_values::Addr) -> Option<Addr>
    ensures { option_map address_of result ≡ relay_address (config.address_of addr.now) }
{
    match addr {
        config_values::Addr::V4(ip, port) => Some(Addr::Tcp(ip.octets(), *port)),
        config_values::Addr::V6(ip, scope, port) => Some(Addr::Tcp6(*ip, *scope, *port)),
        config_values::Addr::Unix(path) => match ArrayString::from(path.as_str()) {
            Ok(path) => Some(Addr::Unix(path)),
            Err(_) => None,
        },
        config_values::Addr::Name(_, _) => None,
    }
}

/// The address of a relay that a text spells, as a configuration has it; none where it spells none,
/// or one that isn't served.
pub fn relay_addr_of(text: &[u8]) -> Option<Addr>
    ensures { option_map address_of result ≡ relay_address_at text.now }
{
    match config_values::addr_of(text) {
        Some(addr) => relay_address(&addr),
        None => None,
    }
}

/// The address at a place.
pub(crate) fn address_at(spot: Spot, addr: &config_values::Addr) -> Result<Addr, Fault>
    ensures { Reads address_of result (served spot (relay_address (config.address_of addr.now))) }
{
    match relay_address(addr) {
        Some(addr) => Ok(addr),
        None => Err(unserved(spot)),
    }
}

fn relay_time(ms: u64) -> Option<u32>
    ensures { result ≡ relay_time ms }
{
    if ms == 0 || ms > DAY_MS {
        return None;
    }
    Some(ms as u32)
}

/// The time at a place, which never comes where none is said.
pub(crate) fn time_in(spot: Spot, said: Option<u64>) -> Result<Option<u32>, Fault>
    ensures { result ≡ time_in spot said }
{
    let Some(ms) = said else {
        return Ok(None);
    };
    match relay_time(ms) {
        Some(ms) => Ok(Some(ms)),
        None => Err(unserved(spot)),
    }
}

/// How many connections may stand at once, by a place, if it says that.
pub(crate) fn pairs_in(spot: Spot, said: Option<u32>) -> Result<Option<PairLimit>, Fault>
    ensures { Reads (option_map (λ pairs. pairs.count)) result (pairs_in spot said) }
{
    let Some(count) = said else {
        return Ok(None);
    };
    match PairLimit::of(u64::from(count)) {
        Some(pairs) => Ok(Some(pairs)),
        None => Err(unserved(spot)),
    }
}
