//! What the file of a relay says.

ghost use Rattle.std.specs.Prelude.{◌≡◌, ◌≢◌, IfErr, IfOk};
ghost use Rattle.relay_config.specs.Entries.{config_entry};
ghost use Rattle.relay_config.specs.Fault.{Answers};
ghost use Rattle.relay_config.specs.declared.fault.Fault.{Fault};
ghost use Rattle.relay_settings.specs.Meaning.{IsFirstFault, SaysAll, said_entry, said_in};

use crate::keys::settings_of;
use crate::rules::rules_of;
use crate::settings::Settings;
use crate::targets::SaidRule;
use relay_config::{Config, Fault};
use std::alloc::Global;

/// The most bytes of a configuration.
pub const MAX_CONFIG_BYTES: usize = relay_config::MAX_BYTES;

/// What the file of a relay says: a rules file says no settings.
#[derive(Drop)]
pub struct Said {
    pub settings: Settings,
    pub rules: Vec<SaidRule>,
}

/// What a configuration says, or its first fault: of the text, then of what this version doesn't
/// carry out, key by key in the order of `relay_config`. `Memory` may come at any time.
pub fn read_config(alloc: Global, text: &[u8]) -> Result<Said, Fault>
    ensures said { IfOk result (λ said. SaysAll text.now (said_entry said)) }
    ensures fault { IfErr result (λ fault. fault ≢ Fault.Memory → IsFirstFault text.now fault) }
{
    match Config::parse(alloc, text) {
        Ok(config) => said_of(alloc, &config),
        Err(fault) => Err(fault),
    }
}

#[tactic(auto, unfolding(crate::specs::Meaning::said_in))]
fn said_of(alloc: Global, config: &Config) -> Result<Said, Fault>
    ensures { Answers said_entry result (said_in (config_entry config.now)) }
{
    let settings = settings_of(alloc, config)?;
    let rules = rules_of(alloc, config.rules.as_slice())?;
    Ok(Said { settings, rules })
}
