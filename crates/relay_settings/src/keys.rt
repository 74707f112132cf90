//! The settings that the keys of the whole of a configuration say.

ghost use Rattle.std.specs.Prelude.{◌≡◌, option_map};
ghost use Rattle.std.specs.String.{string_bytes};
ghost use Rattle.config_values.specs.Addr as config;
ghost use Rattle.relay_admin.specs.rules.Addr.{address_of};
ghost use Rattle.relay_config.specs.Entries.{admin_entry, config_entry, log_entry};
ghost use Rattle.relay_config.specs.Fault.{Answers, Reads};
ghost use Rattle.relay_settings.specs.Meaning.{admin_at, if_said, log_at, loops_at, metrics_at, mode_in};
ghost use Rattle.relay_settings.specs.Meaning.{settings_entry, settings_in, time_in};
ghost use Rattle.relay_config.specs.Fault as fault;
ghost use Rattle.relay_config.specs.declared.fault.Key.TheVariants as key;
ghost use Rattle.relay_config.specs.declared.fault.Place.TheVariants as place;

use crate::address::{address_at, pairs_in, time_in, unserved};
use crate::settings::Settings;
use relay_admin::Addr;
use relay_config::{Admin, Config, Fault, Format, Key, Log, Place, Spot};
use relay_core::Loops;
use std::alloc::Global;

/// The settings that the keys of the whole say, or the first of them that isn't carried out.
#[tactic(auto, unfolding(crate::specs::Meaning::settings_in))]
pub(crate) fn settings_of(alloc: Global, config: &Config) -> Result<Settings, Fault>
    ensures { Answers settings_entry result (settings_in (config_entry config.now)) }
{
    let limits = &config.limits;
    let pairs = pairs_in(Spot::of(Place::Top, Key::Connections), limits.connections)?;
    let per_rule = pairs_in(
        Spot::of(Place::Top, Key::ConnectionsPerRule),
        limits.rule_connections,
    )?;
    let connect_ms = connect_of(limits.connect_ms)?;
    let loops = loops_of(config.service.loops)?;
    let metrics = metrics_of(&config.service.metrics)?;
    let admin = admin_of(alloc, &config.service.admin)?;
    let log = log_of(alloc, &config.log)?;
    Ok(Settings {
        admin,
        admin_mode: mode_of(&config.service.admin),
        loops,
        pairs,
        per_rule,
        connect_ms,
        replaces_stale: config.service.replaces_stale,
        log,
        log_format: format_of(&config.log),
        metrics,
    })
}

fn connect_of(said: Option<Option<u64>>) -> Result<Option<Option<u32>>, Fault>
    ensures { result ≡ if_said (time_in (fault.spot place.Top key.ConnectTimeout)) said }
{
    let Some(time) = said else {
        return Ok(None);
    };
    let time = time_in(Spot::of(Place::Top, Key::ConnectTimeout), time)?;
    Ok(Some(time))
}

fn loops_of(said: Option<u32>) -> Result<Option<Loops>, Fault>
    ensures { Reads (option_map (λ loops. loops.count)) result (if_said loops_at said) }
{
    let Some(count) = said else {
        return Ok(None);
    };
    match Loops::of(u64::from(count)) {
        Some(loops) => Ok(Some(loops)),
        None => Err(unserved(Spot::of(Place::Top, Key::Loops))),
    }
}

fn metrics_of(said: &Option<config_values::Addr>) -> Result<Option<Addr>, Fault>
    ensures { Reads (option_map address_of) result
        (if_said metrics_at (option_map config.address_of said.now)) }
{
    let Some(addr) = said else {
        return Ok(None);
    };
    let addr = address_at(Spot::of(Place::Top, Key::Metrics), addr)?;
    Ok(Some(addr))
}

fn admin_of(alloc: Global, said: &Option<Admin>) -> Result<Option<String>, Fault>
    ensures { Answers (option_map string_bytes) result
        (if_said admin_at (option_map admin_entry said.now)) }
{
    let Some(admin) = said else {
        return Ok(None);
    };
    match String::from_str(alloc, admin.path.as_str()) {
        Ok(path) => Ok(Some(path)),
        Err(_) => Err(Fault::Memory),
    }
}

fn mode_of(said: &Option<Admin>) -> Option<u16>
    ensures { result ≡ mode_in (option_map admin_entry said.now) }
{
    match said {
        Some(admin) => admin.mode,
        None => None,
    }
}

fn log_of(alloc: Global, said: &Option<Log>) -> Result<Option<String>, Fault>
    ensures { Answers (option_map string_bytes) result
        (if_said log_at (option_map log_entry said.now)) }
{
    let Some(log) = said else {
        return Ok(None);
    };
    match String::from_str(alloc, log.file.as_str()) {
        Ok(file) => Ok(Some(file)),
        Err(_) => Err(Fault::Memory),
    }
}

fn format_of(said: &Option<Log>) -> Option<Format>
    ensures { result ≡ option_map (λ log. log.format) (option_map log_entry said.now) }
{
    match said {
        Some(log) => Some(log.format),
        None => None,
    }
}
