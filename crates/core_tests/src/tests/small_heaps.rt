//! Memory that is refused: the same calls on ever larger heaps, until each is done. A refused one
//! changes nothing that a caller can see.
use conntable::table::{ConnTable, Refusal};
use deadline_core::{PlaceAlarms, Timers};
use linked_list_allocator::LocalHeap;
use std::alloc::Global;

/// Whether eight entries and their ids came. None where a refusal changed something.
fn table_came(heap: &LocalHeap) -> Option<bool> {
    let mut table = ConnTable::new(heap);
    for number in 0..8u64 {
        let before = (table.vacant(), table.first_id());
        if let Err(refused) = table.insert(number) {
            let is_same = refused == (number, Refusal::OutOfMemory)
                && (table.vacant(), table.first_id()) == before;
            return if is_same { Some(false) } else { None };
        }
    }
    match table.ids(heap) {
        Ok(ids) => Some(ids.len() == 8),
        Err(_) => Some(false),
    }
}

/// Whether both directions of forty keys were armed. None where a refusal changed something.
fn timers_came(heap: &LocalHeap) -> Option<bool> {
    let mut timers = Timers::new_in(heap);
    for key in 0..40u64 {
        let before = (timers.next(), timers.live());
        if timers.arm_both(key, 5).is_err() {
            let is_same = (timers.next(), timers.live()) == before;
            return if is_same { Some(false) } else { None };
        }
    }
    Some(timers.due(5).len() == 80)
}

/// Whether room for four alarms and for 64 was made. None where a refusal changed something.
fn alarms_came(heap: &LocalHeap) -> Option<bool> {
    let mut alarms = PlaceAlarms::new_in(heap);
    if alarms.reserve(4).is_err() || alarms.room() < 4 {
        return Some(false);
    }
    alarms.set(3, Some(7));
    let is_made = alarms.reserve(64).is_ok();
    if (alarms.first(), alarms.alarm(3)) == (Some(7), Some(7)) {
        Some(is_made)
    } else {
        None
    }
}

enum Subject {
    Table,
    Timers,
    Alarms,
}

/// Whether all came on a heap of so many units. None where a refusal changed something.
fn came_within(alloc: Global, subject: &Subject, units: usize) -> Option<bool> {
    let Ok(heap) = LocalHeap::new(alloc, units.saturating_mul(16)) else {
        return None;
    };
    match subject {
        Subject::Table => table_came(&heap),
        Subject::Timers => timers_came(&heap),
        Subject::Alarms => alarms_came(&heap),
    }
}

/// How often calls were refused before all came. None where a refusal changed something, or they
/// were always refused.
fn refusals(alloc: Global, subject: &Subject) -> Option<usize> {
    for units in 1..1_000usize {
        if came_within(alloc, subject, units)? {
            return Some(units);
        }
    }
    None
}

const SUBJECTS: &[(&str, Subject)] = &[
    ("a table", Subject::Table),
    ("timers", Subject::Timers),
    ("alarms", Subject::Alarms),
];

#[test]
fn memory_refused_in_turn_changes_nothing(rt: HostRuntime) {
    for (row, subject) in SUBJECTS {
        let count = refusals(rt.alloc(), subject);
        assert!(rt; count > Some(2), "{row}: {count:?}");
    }
}
