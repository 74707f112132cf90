//! The targets of a rule as a value, in the order of its configuration, and what is counted of each.

ghost use Rattle.std.specs.Prelude.{◌≤◌, ◌<◌, length};

use crate::shared_health::TargetHealth;
use crate::target_counts::TargetCounts;
use relay_admin::Addr;
use relay_settings::{Checks, Target};
use std::sync::Arc;
use target_pick::{Balance, Tried};

/// A target, what is counted of it, and its health. A later list with the same address goes on with
/// both.
#[derive(Drop)]
pub(crate) struct CountedTarget {
    pub(crate) target: Target,
    pub(crate) counts: Arc<TargetCounts>,
    /// One that isn't checked has none, and is up.
    pub(crate) health: Option<Arc<TargetHealth>>,
}

/// The targets of a rule, by what a client's is picked, and how they are checked. There is one at
/// least.
#[derive(Drop)]
pub struct Targets {
    pub(crate) balance: Balance,
    /// Without checks all of them are up.
    pub(crate) checks: Option<Checks>,
    pub(crate) all: Vec<CountedTarget>,
    ghost some: { 0 < length all.items },
    ghost few: { length all.items ≤ 64 },
}

/// That no target may take a client.
#[derive(Clone, Copy, Debug, PartialEq, Eq, Drop)]
pub struct NoneLeft {
    /// Whether one that wasn't tried for the client was seen down or drained.
    pub down: bool,
}

/// The target that was picked for a client.
#[derive(Clone, Copy, Debug, PartialEq, Eq, Drop)]
pub struct Picked {
    /// Its place among the rule's targets.
    pub place: usize,
    pub at: Addr,
    /// The targets that were tried for the client, with this one.
    pub tried: Tried,
    /// How many targets may take the client beside it.
    pub others: u32,
}
