//! What keeps one target, one rule or a path that was left from harming the rest of a relay.

ghost use Rattle.std.specs.Prelude.{◌≡◌, ◌↔◌, true};
ghost use Rattle.relay_facts.specs.Safeguards.{IsAtRuleLimit, rule_limit, safeguards_of};

use relay_core::PairLimit;
use relay_settings::{DEFAULT_CONNECT_MS, Settings};

/// How long targets may keep connections waiting, how many of these each rule may have, and what
/// becomes of sockets that were left at Unix paths.
#[derive(Clone, Copy, Debug, PartialEq, Eq, Drop)]
pub struct Safeguards {
    /// How many milliseconds a target has to be connected; without it as long as the system takes.
    pub connect_ms: Option<u32>,
    /// How many connections of one rule stand at once that doesn't say it itself; without it as many
    /// as of all.
    pub per_rule: Option<PairLimit>,
    /// Whether a Unix socket at which nobody listens any more gives way to a listener.
    pub replaces_stale: bool,
}

impl Safeguards {
    /// Those of a relay with these settings.
    pub fn of(settings: &Settings) -> Safeguards
        ensures { result ≡ safeguards_of settings.now }
    {
        Safeguards {
            connect_ms: match settings.connect_ms {
                Some(connect_ms) => connect_ms,
                None => Some(DEFAULT_CONNECT_MS),
            },
            per_rule: settings.per_rule,
            replaces_stale: match settings.replaces_stale {
                Some(replaces) => replaces,
                None => false,
            },
        }
    }

    /// Whether a rule of which so many connections stand has as many as it may: as many as it says
    /// itself, else as many as each rule may have.
    pub fn is_at_limit(&self, own: Option<PairLimit>, standing: u64) -> bool
        ensures { result ≡ true ↔ IsAtRuleLimit (rule_limit own self.now.per_rule) standing }
    {
        match (own, self.per_rule) {
            (Some(limit), _) | (None, Some(limit)) => standing >= limit.count as u64,
            (None, None) => false,
        }
    }
}
