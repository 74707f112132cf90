//! The target of a client.

ghost use Rattle.std.specs.Prelude.{◌≡◌, ◌≤◌, ◌<◌, false, length, map, All, IfNone, IfSome};
ghost use Rattle.target_pick.specs.Pick.{HasTurn, IsLeastOf, MayTakeAt, MustBeBackup, owner};
ghost use Rattle.target_pick.specs.Pick.{taker, takers, tried_at};
ghost use Rattle.target_pick.specs.Seen.{may_take, share_of, total};
ghost use Rattle.target_pick.specs.declared.picking.Balance.TheVariants.{First, LeastConnections};
ghost use Rattle.target_pick.specs.declared.picking.Balance.TheVariants.{RoundRobin, Source};

use crate::least::least;
use crate::seen::{MAX_TARGETS, Seen, asks_backups, may_take, share_of, total_share};

/// By what a target is picked.
#[derive(Clone, Copy, Debug, PartialEq, Eq, Drop)]
pub enum Balance {
    /// Each target has as many turns in a row as its weight, then the next one has its own.
    RoundRobin,
    /// The one with the fewest connections by its weight; of several the first from the turn on.
    LeastConnections,
    /// The first one.
    First,
    /// By the client's address.
    Source,
}

/// The place of a client's target among a rule's, and `None` where none may take it. `turn` is the
/// number of picks before this one, `source` the client's `source_number`.
pub fn pick(balance: Balance, targets: &[Seen], turn: u64, source: u64) -> Option<usize>
    requires { length targets.now ≤ MAX_TARGETS }
    ensures none { IfNone result (All (λ target. may_take target ≡ false) targets.now) }
    ensures takes { IfSome result (λ at. MayTakeAt targets.now at) }
    ensures backups { IfSome result (λ at. MustBeBackup targets.now at) }
    ensures round_robin { balance ≡ RoundRobin → IfSome result (λ at. HasTurn targets.now turn at) }
    ensures by_source { balance ≡ Source → IfSome result (λ at. HasTurn targets.now source at) }
    ensures first { balance ≡ First → IfSome result (λ at. HasTurn targets.now 0 at) }
    ensures least { balance ≡ LeastConnections → IfSome result (λ at. IsLeastOf targets.now at) }
{
    let backups = asks_backups(targets);
    let total = total_share(targets, backups);
    if total == 0 {
        return None;
    }
    match balance {
        Balance::RoundRobin => Some(slot_owner(targets, backups, turn % total)),
        Balance::Source => Some(slot_owner(targets, backups, source % total)),
        Balance::First => Some(slot_owner(targets, backups, 0)),
        Balance::LeastConnections => least(targets, backups, turn),
    }
}

/// The target that has this turn, where each has as many in a row as its share.
fn slot_owner(targets: &[Seen], backups: bool, slot: u64) -> usize
    requires { slot < total (map (share_of backups) targets.now) }
    ensures { result ≡ owner (map (share_of backups) targets.now) slot }
{
    let mut left = slot;
    for (at, target) in targets.iter().enumerate() {
        let share = share_of(target, backups);
        if left < share {
            return at;
        }
        left -= share;
    }
    unreachable!()
}

/// Picks a target for a client, and marks it as tried.
pub fn try_next(balance: Balance, targets: &mut [Seen], turn: u64, source: u64) -> Option<usize>
    requires { length targets.old ≤ MAX_TARGETS }
    ensures none { IfNone result (All (λ target. may_take target ≡ false) targets.old) }
    ensures takes { IfSome result (λ at. MayTakeAt targets.old at) }
    ensures backups { IfSome result (λ at. MustBeBackup targets.old at) }
    ensures marked { IfSome result (λ at. targets.new ≡ tried_at targets.old at) }
    ensures same { IfNone result (targets.new ≡ targets.old) }
{
    let at = pick(balance, targets, turn, source)?;
    targets[at].was_tried = true;
    Some(at)
}

/// One, where the target may take the client.
fn taker(target: &Seen) -> usize
    ensures is { result ≡ taker target.now }
    ensures few { result ≤ 1 }
{
    if may_take(target) { 1 } else { 0 }
}

/// How many targets may take the client.
pub fn takers(targets: &[Seen]) -> usize
    ensures few { result ≤ length targets.now }
    ensures count { result ≡ takers targets.now }
    ensures none { result ≡ 0 → All (λ target. may_take target ≡ false) targets.now }
{
    count_takers(targets)
}

fn count_takers(targets: &[Seen]) -> usize
    ensures few { result ≤ length targets.now }
    ensures count { result ≡ takers targets.now }
{
    let mut count = 0;
    for target in targets {
        count += taker(target);
    }
    count
}
