//! What a copy begins with goes before all that it reads, and its share doesn't count it.

use super::{Course, PacedGate, WHOLE, resumed};
use base_types::Dir;
use relay_core::{Copying, Ended, LoopMemory, Step};
use relay_ledger::PARTS;
use std::alloc::Global;
use std::marker::Brand;
use std::sync::Wait;
use std::sync::ledger::Blank;

const FRONT: &[u8] = &[0, 1, 2, 3, 4, 5, 6];

const MOST_TURNS: u32 = 100;

// Offers what a copy begins with until all of it is taken, and gives how often that had to wait.
fn fronted(copying: &mut Copying, gate: &mut PacedGate) -> Option<u32> {
    let mut waits = 0u32;
    for _turn in 0..MOST_TURNS {
        if !copying.has_unwritten() {
            return Some(waits);
        }
        match copying.write_front(gate) {
            Ok(_) => {}
            Err(Step::Waits(Dir::Write)) => waits = waits.saturating_add(1),
            Err(_) => return None,
        }
    }
    None
}

// How a copy goes that begins with the bytes before those that its gate gives.
fn course_behind<R: Wait>(rt: &R, alloc: Global) -> Option<(u32, Course)> {
    let mut memory = LoopMemory::new(alloc).ok()?;
    let mut copying = Copying::new(alloc).ok()?;
    let mut gate = PacedGate {
        reads: &[40],
        writes: &[3, 0, 0, 2, 9],
        late_closes: 0,
        fails: false,
        next_read: 7,
        next_written: 0,
        in_order: true,
        asked: (usize::MAX, 0),
    };
    copying.begin_with(FRONT);
    let waits = fronted(&mut copying, &mut gate)?;
    let course = resumed::<Brand, _, _>(
        rt,
        Blank::new(PARTS),
        &mut gate,
        &mut copying,
        &mut memory,
    )?;
    Some((waits, course))
}

#[test]
fn what_a_copy_begins_with_goes_first_and_is_not_counted(rt: HostRuntime) {
    let went = course_behind(&rt, rt.alloc());
    let want = (2, ((0, 0, 0), Ended::Eof, 40, true, 47, WHOLE));
    assert!(rt; went == Some(want), "{went:?}");
}
