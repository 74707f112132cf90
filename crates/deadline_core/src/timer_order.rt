//! The index and the ordered set that timers are kept in, and what each change does to both.
//!
//! What always holds: each timer of the index stands in the order with its moment. An entry of the
//! order is stale where the index has another moment for its slot, or none. A change adds the
//! ordered entry first, so that an index which is then refused memory leaves a stale entry and the
//! same timers.
ghost use Rattle.std.specs.Prelude.{◌≡◌, ◌≢◌, ◌≤◌, ◌+◌, ◌*◌, true, Some, None, OnOk, OnErr, IfNone};
ghost use Rattle.std.specs.Prelude.{IfSome, IfOk};
ghost use Rattle.std.specs.FinMap as map;
ghost use Rattle.std.specs.BTreeMap.{btree_map_len};
ghost use Rattle.std.specs.BTreeSet.{btree_set_len, contains};
ghost use Rattle.deadline_core.specs.TimerOrder.{armed_in, moment_in, moment_cmp, is_current_in};
ghost use Rattle.deadline_core.specs.TimerOrder.{IsStored, IsMore, SameMoments, Sets, IsFirstOf};

use base_types::{Dir, OutOfMemory};
use std::alloc::Allocator;
use std::collections::{BTreeMap, BTreeSet};

/// What a timer is for: a key and a direction.
pub(crate) type Slot = (u64, Dir);

// An order with more entries than twice the timers and this many drops all stale ones.
const STALE_ROOM: usize = 64;

fn moment_of<A: Allocator>(moments: &BTreeMap<Slot, u64, A>, slot: Slot) -> Option<u64>
    ensures { result ≡ moment_in moments.now slot }
{
    moments.get(&slot).copied()
}

// Whether the slot is armed for this moment, so that the entry isn't stale.
pub(crate) fn is_current<A: Allocator>(
    moments: &BTreeMap<Slot, u64, A>,
    entry: &(u64, Slot),
) -> bool
    ensures { result ≡ is_current_in moments.now entry.now }
{
    match moment_of(moments, entry.1) {
        Some(at) => at == entry.0,
        None => false,
    }
}

// Puts an entry into the order, unless it is there. Refused, the order has what it had.
fn add<A: Allocator + Copy>(
    order: &mut BTreeSet<(u64, Slot), A>,
    slot: Slot,
    at: u64,
) -> Result<(), OutOfMemory>
    ensures added { OnOk result (contains moment_cmp order.new (at, slot) ≡ true) }
    ensures kept { IsMore order.old order.new }
{
    match order.insert((at, slot)) {
        Ok(_) => Ok(()),
        Err(_) => Err(OutOfMemory),
    }
}

// Sets the slot's moment, and tells its moment before. A slot that has a moment is never refused.
fn set_moment<A: Allocator + Copy>(
    moments: &mut BTreeMap<Slot, u64, A>,
    slot: Slot,
    at: u64,
) -> Result<Option<u64>, OutOfMemory>
    ensures before { IfOk result (λ before. before ≡ moment_in moments.old slot) }
    ensures set { OnOk result (Sets moments.old moments.new slot (Some at)) }
    ensures absent { OnErr result (moment_in moments.old slot ≡ None) }
    ensures unchanged { OnErr result (SameMoments moments.old moments.new) }
{
    match moments.insert(slot, at) {
        Ok(before) => Ok(before),
        Err(_) => Err(OutOfMemory),
    }
}

/// Takes the slot's moment out. Its entry stays in the order, stale.
pub(crate) fn take_out<A: Allocator>(moments: &mut BTreeMap<Slot, u64, A>, slot: Slot)
    ensures { Sets moments.old moments.new slot None }
{
    moments.remove(&slot);
}

// Gives a slot the moment that it had before one was set, if it had any. As the slot has one now,
// this can't be refused.
fn put_back<A: Allocator + Copy>(
    moments: &mut BTreeMap<Slot, u64, A>,
    slot: Slot,
    before: Option<u64>,
)
    requires { moment_in moments.old slot ≢ None }
    ensures { Sets moments.old moments.new slot before }
{
    match before {
        None => take_out(moments, slot),
        Some(at) => {
            if set_moment(moments, slot, at).is_err() {
                unreachable!();
            }
        }
    }
}

/// Sets the slot's moment, with its entry in the order. Refused, the timers are as they were.
pub(crate) fn put<A: Allocator + Copy>(
    moments: &mut BTreeMap<Slot, u64, A>,
    order: &mut BTreeSet<(u64, Slot), A>,
    slot: Slot,
    at: u64,
) -> Result<(), OutOfMemory>
    requires { IsStored moments.old order.old }
    ensures stored { IsStored moments.new order.new }
    ensures named { OnOk result (Sets moments.old moments.new slot (Some at)) }
    ensures unchanged { OnErr result (SameMoments moments.old moments.new) }
{
    add(order, slot, at)?;
    set_moment(moments, slot, at)?;
    Ok(())
}

/// Sets the moment of both directions of a key, with their entries. Refused, the timers are as they
/// were.
pub(crate) fn put_both<A: Allocator + Copy>(
    moments: &mut BTreeMap<Slot, u64, A>,
    order: &mut BTreeSet<(u64, Slot), A>,
    key: u64,
    at: u64,
) -> Result<(), OutOfMemory>
    requires { IsStored moments.old order.old }
    ensures stored { IsStored moments.new order.new }
    ensures named { let read_armed = map.insert (armed_in moments.old) (key, Dir.Read) at in
        OnOk result (armed_in moments.new ≡ map.insert read_armed (key, Dir.Write) at) }
    ensures unchanged { OnErr result (SameMoments moments.old moments.new) }
{
    add(order, (key, Dir::Read), at)?;
    add(order, (key, Dir::Write), at)?;
    let before = set_moment(moments, (key, Dir::Read), at)?;
    match set_moment(moments, (key, Dir::Write), at) {
        Ok(_) => Ok(()),
        Err(refused) => {
            put_back(moments, (key, Dir::Read), before);
            Err(refused)
        }
    }
}

/// Drops stale entries: those before the first timer, and all where they are too many. It takes no
/// memory.
pub(crate) fn drop_stale<A: Allocator>(
    moments: &BTreeMap<Slot, u64, A>,
    order: &mut BTreeSet<(u64, Slot), A>,
)
    requires { IsStored moments.now order.old }
    ensures stored { IsStored moments.now order.new }
    ensures bound { btree_set_len order.new ≤ 2 * btree_map_len moments.now + 64 }
{
    drop_stale_ahead(moments, order);
    if order.len().saturating_sub(STALE_ROOM) > 2 * moments.len() {
        order.retain(|entry| is_current(moments, entry));
    }
}

// Drops the stale entries before the first timer, so that who asks for it hasn't to pass them. The
// last one that is stale stays: the next change drops it if it is still in the way.
fn drop_stale_ahead<A: Allocator>(
    moments: &BTreeMap<Slot, u64, A>,
    order: &mut BTreeSet<(u64, Slot), A>,
)
    requires { IsStored moments.now order.old }
    ensures { IsStored moments.now order.new }
{
    while order.len().saturating_sub(1) > moments.len() {
        let Some(first) = order.first() else {
            return;
        };
        let ahead = *first;
        if is_current(moments, &ahead) {
            return;
        }
        order.remove(&ahead);
    }
}

/// Takes out the first timer that is due at `now`, and the stale entries before it.
pub(crate) fn pop_first_due<A: Allocator>(
    moments: &mut BTreeMap<Slot, u64, A>,
    order: &mut BTreeSet<(u64, Slot), A>,
    now: u64,
) -> Option<(Slot, u64)>
    requires { IsStored moments.old order.old }
    ensures stored { IsStored moments.new order.new }
    ensures first { IsFirstOf (armed_in moments.old) now result }
    ensures none { IfNone result (SameMoments moments.old moments.new) }
    ensures taken { IfSome result (λ first. Sets moments.old moments.new first.0 None) }
{
    while let Some(first) = order.first() {
        let entry = *first;
        if entry.0 > now {
            return None;
        }
        order.remove(&entry);
        if is_current(moments, &entry) {
            take_out(moments, entry.1);
            return Some((entry.1, entry.0));
        }
    }
    None
}
