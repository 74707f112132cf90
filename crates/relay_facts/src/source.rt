//! What the file of a relay says, whichever form it has.

ghost use Rattle.std.specs.Prelude.{◌≡◌, IfOk, IfErr, map};
ghost use Rattle.relay_admin.specs.ServeFault.{IsFileFault};
ghost use Rattle.relay_facts.specs.Source.{FileSays, SaysNoSettings, SaysTheseRules, entry_alone};
ghost use Rattle.relay_settings.specs.Meaning.{SaysAll, said_entry, said_rule_entry};
ghost use Rattle.relay_settings.specs.Settings.{SaysNothing};
ghost use Rattle.relay_admin.specs.declared.serve_fault.ServeFault.{ServeFault};

use crate::rules_file::{config_text_of, rules_of, text_of};
use base_types::OutOfMemory;
use relay_admin::{Rule, ServeFault};
use relay_settings::{Said, SaidRule, Settings, Source, bad_config, read_config};
use std::alloc::Global;
use std::fs::Files;

// A rule that names its own target alone.
#[tactic(auto, using(crate::proofs::SourceLemmas::alone_entry))]
fn alone(alloc: Global, rule: &Rule) -> Result<SaidRule, OutOfMemory>
    ensures { IfOk result (λ said. said_rule_entry said ≡ entry_alone rule.now) }
{
    SaidRule::alone(alloc, *rule)
}

// These rules, each of which names its own target alone.
fn each_alone(alloc: Global, rules: &[Rule]) -> Result<Vec<SaidRule>, OutOfMemory>
    ensures { IfOk result (λ all.
        map said_rule_entry all.items ≡ map entry_alone rules.now) }
{
    let mut all = Vec::new(alloc);
    for rule in rules {
        all.push(alone(alloc, rule)?)?;
    }
    Ok(all)
}

// What a rules file says: no settings, and rules of one target each.
#[tactic(auto, using(crate::proofs::FileFaults::of_memory))]
fn said_by_rules(alloc: Global, text: &[u8]) -> Result<Said, ServeFault>
    ensures settings { IfOk result (λ said. SaysNothing said.settings) }
    ensures rules { IfOk result (λ said. SaysTheseRules text.now said.rules.items) }
    ensures faults { IfErr result (λ fault. IsFileFault fault) }
{
    let rules = rules_of(text)?;
    let rules = each_alone(alloc, rules.as_slice())?;
    Ok(Said {
        settings: Settings::none(),
        rules,
    })
}

// What a configuration says.
#[tactic(auto, using(crate::proofs::FileFaults::of_memory, crate::proofs::FileFaults::of_bad))]
fn said_by_config(alloc: Global, text: &[u8]) -> Result<Said, ServeFault>
    ensures said { IfOk result (λ said. SaysAll text.now (said_entry said)) }
    ensures faults { IfErr result (λ fault. IsFileFault fault) }
{
    match read_config(alloc, text) {
        Ok(said) => Ok(said),
        Err(fault) => match bad_config(alloc, text, fault) {
            Ok(verdict) => Err(ServeFault::BadRules(verdict)),
            Err(_) => Err(ServeFault::Memory),
        },
    }
}

/// What the file says now. The faults are `RulesFile` or `ConfigFile`, where it can't be opened or
/// read, `BadRules` with the verdict on it, and `Memory`.
#[tactic(auto, using(crate::proofs::FileFaults::of_read, crate::proofs::FileFaults::of_config_read))]
pub fn said_by<R: Files>(rt: &R, alloc: Global, source: &Source) -> Result<Said, ServeFault>
    ensures rules { IfOk result (λ said. SaysNoSettings source.now said.settings) }
    ensures said { IfOk result (FileSays source.now) }
    ensures faults { IfErr result (λ fault. IsFileFault fault) }
{
    match source {
        Source::Rules(path) => {
            let text = text_of(rt, alloc, path.as_str())?;
            said_by_rules(alloc, text.as_slice())
        }
        Source::Config(path) => {
            let text = config_text_of(rt, alloc, path.as_str())?;
            said_by_config(alloc, text.as_slice())
        }
    }
}
