//! The target with the fewest connections.

ghost use Rattle.std.specs.Prelude.{◌≡◌, ◌≤◌, ◌<◌, ◌*◌, ◌^◌, ℕ, false, length, map, slice_index};
ghost use Rattle.std.specs.Prelude.{IfSome, IsSomeAnd, IsTrue, MatchOption};
ghost use Rattle.target_pick.specs.Pick.{IsLeast, loads_of};
ghost use Rattle.target_pick.specs.Seen.{share_of};

use crate::seen::{MAX_TARGETS, Seen, share_of};

/// Of the targets that have turns the one with the fewest connections for each of them. Of several
/// it is the first from the turn on, so that idle targets take turns.
pub(crate) fn least(targets: &[Seen], backups: bool, turn: u64) -> Option<usize>
    requires { length targets.now ≤ MAX_TARGETS }
    ensures { MatchOption result
        ((k : ℕ) → slice_index (map (share_of backups) targets.now) k ≡ 0)
        (λ at. (0 < slice_index (map (share_of backups) targets.now) at)
        × IsLeast (map (share_of backups) targets.now) (loads_of targets.now) at) }
{
    let mut best = None;
    for at in 0..targets.len() {
        if share_at(targets, backups, at) > 0 && goes_before(targets, backups, turn, at, best) {
            best = Some(at);
        }
    }
    best
}

/// Whether a target is a better one than the best so far.
fn goes_before(targets: &[Seen], backups: bool, turn: u64, at: usize, best: Option<usize>) -> bool
    requires few { length targets.now ≤ MAX_TARGETS }
    requires at { at < length targets.now }
    requires best { IfSome best (λ b. b < length targets.now) }
    ensures before { IsTrue result → IfSome best (λ b.
        slice_index (loads_of targets.now) at * slice_index (map (share_of backups) targets.now) b
        ≤ slice_index (loads_of targets.now) b * slice_index (map (share_of backups) targets.now) at) }
    ensures behind { result ≡ false → IsSomeAnd best (λ b.
        slice_index (loads_of targets.now) b * slice_index (map (share_of backups) targets.now) at
        ≤ slice_index (loads_of targets.now) at * slice_index (map (share_of backups) targets.now) b) }
{
    let Some(best) = best else {
        return true;
    };
    let one = load_at(targets, at) * share_at(targets, backups, best);
    let other = load_at(targets, best) * share_at(targets, backups, at);
    one < other || one == other && places_from(targets, turn, at) < places_from(targets, turn, best)
}

/// How many places behind the turn's the target stands, counted round.
fn places_from(targets: &[Seen], turn: u64, at: usize) -> u64
    requires at { at < length targets.now }
    requires few { length targets.now ≤ MAX_TARGETS }
{
    let all = targets.len() as u64;
    let first = turn % all;
    (at as u64 + (all - first)) % all
}

fn share_at(targets: &[Seen], backups: bool, at: usize) -> u64
    requires { at < length targets.now }
    ensures share { result ≡ slice_index (map (share_of backups) targets.now) at }
    ensures fits { result < 2 ^ 16 }
{
    share_of(&targets[at], backups)
}

fn load_at(targets: &[Seen], at: usize) -> u64
    requires { at < length targets.now }
    ensures load { result ≡ slice_index (loads_of targets.now) at }
    ensures fits { result < 2 ^ 32 }
{
    u64::from(targets[at].connections)
}
