//! The addresses at which rules listen.

ghost use Rattle.std.specs.Prelude.{◌≡◌};
ghost use Rattle.relay_settings.specs.Listeners.{further_listeners};

use crate::targets::SaidRule;

/// How many addresses these rules have beyond the first of each.
pub fn further_listeners(rules: &[SaidRule]) -> u32
    ensures { result ≡ further_listeners rules.now }
{
    let mut count = 0u32;
    for said in rules {
        let further = said.listens.len().saturating_sub(1);
        count = count.saturating_add(further.min(0xffff_ffff) as u32);
    }
    count
}
