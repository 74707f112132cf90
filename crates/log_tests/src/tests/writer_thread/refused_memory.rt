//! Each request for memory is refused once, on heaps of growing size.

use super::lines::{counted, push_all};
use linked_list_allocator::LocalHeap;
use log_writer::Log;
use relay_log::format::Format;
use std::alloc::Global;
use std::prelude::HostRuntime;
use std::sync::Wait;
use std::time::Clock;

/// Pushes four lines and ends the log in the same thread, so that its steps always come in the same
/// order. It says whether it is over then.
fn runs_to_its_end<R: Wait + Clock>(rt: &R, log: &Log<&LocalHeap>, written: &mut Vec<u8>) -> bool {
    push_all(rt, log, "p0", 4);
    log.end(rt);
    log.run(rt, written);
    log.is_over()
}

/// How many of four lines were lost, and of how many of these the text tells. None where a line is
/// neither there nor lost, or more are told of than are lost.
fn lost_and_told<R: Wait>(rt: &R, log: &Log<&LocalHeap>, written: &[u8]) -> Option<(u64, u64)> {
    let counts = log.counts(rt);
    let (lines, told) = counted(written)?;
    if counts.pushed == 4 && lines.saturating_add(counts.lost) == 4 && told <= counts.lost {
        return Some((counts.lost, told));
    }
    None
}

/// The same of a log on this heap.
fn of_heap<R: Wait + Clock>(rt: &R, alloc: Global, heap: &LocalHeap) -> Option<(u64, u64)> {
    let log = Log::new(heap, Format::Text);
    let mut written = Vec::new(alloc);
    if runs_to_its_end(rt, &log, &mut written) {
        lost_and_told(rt, &log, written.as_slice())
    } else {
        None
    }
}

fn within<R: Wait + Clock>(rt: &R, alloc: Global, units: usize) -> Option<(u64, u64)> {
    let heap = LocalHeap::new(alloc, units.saturating_mul(16)).ok()?;
    of_heap(rt, alloc, &heap)
}

// Where not even the words `lost N` find memory, they aren't said.
#[test]
fn a_line_that_is_refused_memory_is_lost_and_said(rt: HostRuntime) {
    let (mut refused, mut said) = (0u32, 0u32);
    for units in 1..400usize {
        let found = within(&rt, rt.alloc(), units);
        assert!(rt; found.is_some(), "{units} units");
        if let Some((lost, told)) = found {
            if lost == 0 {
                assert!(rt; refused > 3 && said > 0, "{refused} refused, {said} said");
                return;
            }
            refused = refused.saturating_add(1);
            if told == lost {
                said = said.saturating_add(1);
            }
        }
    }
    holds!(rt; false, "always refused");
}
