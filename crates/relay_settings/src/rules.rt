//! The rules of a configuration, as a relay serves them.

ghost use Rattle.std.specs.Prelude.{◌≡◌, [], map};
ghost use Rattle.relay_config.specs.Entries.{rule_entry};
ghost use Rattle.relay_config.specs.Fault.{Answers};
ghost use Rattle.relay_settings.specs.Meaning.{each_of, rule_behind, said_rule_entry};

use crate::address::served_if;
use crate::served::rule_of;
use crate::targets::SaidRule;
use relay_admin::MAX_RULES;
use relay_config as config;
use relay_config::{Fault, Key, Place, Spot};
use std::alloc::Global;

/// The rules of a relay that these say, or the first place of them that isn't carried out.
#[tactic(auto, using(crate::proofs::OneByOne::goes_on, crate::proofs::OneByOne::fails, crate::proofs::OneByOne::ended))]
pub(crate) fn rules_of(alloc: Global, rules: &[config::Rule]) -> Result<Vec<SaidRule>, Fault>
    ensures { Answers (λ found. map said_rule_entry found.items) result
        (each_of rule_behind [] (map rule_entry rules.now)) }
{
    let mut found = Vec::new(alloc);
    for rule in rules {
        let served = rule_behind(alloc, found.as_slice(), rule)?;
        if found.push(served).is_err() {
            return Err(Fault::Memory);
        }
    }
    Ok(found)
}

/// The rule behind these, of which there are at most as many as a rules file may have.
#[tactic(auto, unfolding(crate::specs::Meaning::rule_behind))]
fn rule_behind(alloc: Global, found: &[SaidRule], rule: &config::Rule) -> Result<SaidRule, Fault>
    ensures { Answers said_rule_entry result
        (rule_behind (map said_rule_entry found.now) (rule_entry rule.now)) }
{
    let number = found.len();
    let is_few = number < MAX_RULES;
    served_if(Spot::item(Place::Top, Key::Rule, number), is_few)?;
    rule_of(alloc, number, rule)
}
