//! A tournament of moments: of `2 * room` nodes those from `room` on are leaves, and each other one
//! has the earlier moment of its children, the nodes of twice its number and one more. So node 1
//! has the earliest of all; node 0 isn't used.
ghost use Rattle.std.specs.Prelude.{◌≡◌, ◌<◌, ◌≤◌, ◌+◌, ◌*◌, ◌^◌, ℕ, true, ◌↔◌, drop, length};
ghost use Rattle.std.specs.Prelude.{IfOk, slice_set};
ghost use Rattle.std.specs.Int.{IsPowerOfTwo};
ghost use Rattle.deadline_core.specs.Moments.{ComesBy};
ghost use Rattle.deadline_core.specs.PlaceAlarms.{SameAlarms};
ghost use Rattle.deadline_core.specs.Tournament.{IsTournament, HasLeaves, IsFirstDueLeaf};

use crate::moments::earlier;
use base_types::OutOfMemory;
use std::alloc::Allocator;

// Whether an alarm is armed for a moment that has come.
fn is_due(alarm: Option<u64>, now: u64) -> bool
    ensures { result ≡ true ↔ ComesBy alarm now }
{
    match alarm {
        Some(at) => at <= now,
        None => false,
    }
}

/// Gives the leaf of a place another moment, and the nodes above it what follows from that.
pub(crate) fn put(tree: &mut [Option<u64>], room: usize, place: usize, alarm: Option<u64>)
    requires tournament { IsTournament room tree.old }
    requires place { place < room }
    ensures tournament { IsTournament room tree.new }
    ensures leaves { drop room tree.new ≡ slice_set (drop room tree.old) place alarm }
{
    let mut node = room + place;
    tree[node] = alarm;
    while node > 1 {
        node /= 2;
        let least = earlier(tree[2 * node], tree[2 * node + 1]);
        if tree[node] == least {
            return;
        }
        tree[node] = least;
    }
}

// Gives each node before the leaves the earlier moment of its children, the last one first.
fn play(tree: &mut [Option<u64>], room: usize)
    requires { length tree.old ≡ 2 * room }
    ensures tournament { IsTournament room tree.new }
    ensures leaves { drop room tree.new ≡ drop room tree.old }
{
    for before in 1..room {
        let node = room - before;
        tree[node] = earlier(tree[2 * node], tree[2 * node + 1]);
    }
}

/// A tournament with room for so many leaves, the first of which are these.
pub(crate) fn tournament_of<A: Allocator + Copy>(
    alloc: A,
    leaves: &[Option<u64>],
    room: usize,
) -> Result<Vec<Option<u64>, A>, OutOfMemory>
    requires room { length leaves.now ≤ room }
    requires fits { room ≤ 2 ^ 33 }
    ensures tournament { IfOk result (λ tree. IsTournament room tree.items) }
    ensures leaves { IfOk result (λ tree. SameAlarms leaves.now (drop room tree.items)) }
{
    let Ok(mut tree) = Vec::with_capacity(alloc, 2 * room) else {
        return Err(OutOfMemory);
    };
    if tree.resize(room, None).is_err()
        || tree.extend_from_slice(leaves).is_err()
        || tree.resize(2 * room, None).is_err()
    {
        return Err(OutOfMemory);
    }
    play(tree.as_mut_slice(), room);
    Ok(tree)
}

/// The first leaf from `from` on that is due, of those under a node: there are `width` of them, and
/// `first` is the first.
pub(crate) fn due_leaf(
    tree: &[Option<u64>],
    room: usize,
    node: usize,
    first: usize,
    width: usize,
    from: usize,
    now: u64,
) -> Option<usize>
    requires tournament { IsTournament room tree.now }
    requires leaves { HasLeaves room node first width }
    ensures { IsFirstDueLeaf tree.now now from first (first + width) result }
{
    if first + width <= from {
        return None;
    }
    if !is_due(tree[node], now) {
        return None;
    }
    if width == 1 {
        return Some(first);
    }
    let half = width / 2;
    match due_leaf(tree, room, 2 * node, first, half, from, now) {
        Some(leaf) => Some(leaf),
        None => due_leaf(tree, room, 2 * node + 1, first + half, half, from, now),
    }
}
