//! Whether a target is up, by what came of its checks and of its clients' connects.

ghost use Rattle.std.specs.Prelude.{◌≡◌, ◌+◌, List, [], ◌∷◌, min};
ghost use Rattle.target_pick.specs.Health.{Stands, step};
ghost use Rattle.target_pick.specs.declared.health.Outcome.{Outcome};

/// What came of a check, or of a client's connect.
#[derive(Clone, Copy, Debug, PartialEq, Eq, Drop)]
pub enum Outcome {
    /// A check passed.
    Passed,
    /// A client was connected. It ends a run of failures, and brings no target up.
    Connected,
    /// A check, or a client's connect, failed or was late.
    Failed,
}

/// After how many outcomes in a row a target changes its state. Each is at least 1.
#[derive(Clone, Copy, Debug, PartialEq, Eq, Drop)]
pub struct Limits {
    /// So many failures bring it down.
    pub fall: u32,
    /// So many passed checks bring it up.
    pub rise: u32,
}

/// What the outcomes so far say of a target.
#[derive(Clone, Copy, Debug, PartialEq, Eq, Drop)]
pub struct Health {
    pub is_up: bool,
    /// How many failures stand at the end, at most `fall`.
    pub failures: u32,
    /// How many checks passed since the last failure, at most `rise`.
    pub passes: u32,
}

impl Health {
    /// A target of which nothing is known is up.
    pub fn new(limits: &Limits) -> Health
        ensures { Stands limits.now [] result }
    {
        Health {
            is_up: true,
            failures: 0,
            passes: 0,
        }
    }

    /// The health after one outcome more. The lists have the newest outcome first.
    pub fn after(self, limits: &Limits, outcome: Outcome) -> Health
        ensures { (outcomes : List Outcome) → Stands limits.now outcomes self
            → Stands limits.now (outcome ∷ outcomes) result }
    {
        self.stepped(limits, outcome)
    }

    fn stepped(self, limits: &Limits, outcome: Outcome) -> Health
        ensures { result ≡ step limits.now self outcome }
    {
        match outcome {
            Outcome::Passed => {
                let passes = one_more(self.passes, limits.rise);
                Health {
                    is_up: self.is_up || passes >= limits.rise,
                    failures: 0,
                    passes,
                }
            }
            Outcome::Connected => Health {
                is_up: self.is_up,
                failures: 0,
                passes: self.passes,
            },
            Outcome::Failed => {
                let failures = one_more(self.failures, limits.fall);
                Health {
                    is_up: self.is_up && failures < limits.fall,
                    failures,
                    passes: 0,
                }
            }
        }
    }
}

/// One more, up to the limit.
fn one_more(count: u32, limit: u32) -> u32
    ensures { result ≡ min (count + 1) limit }
{
    if count < limit { count + 1 } else { limit }
}
