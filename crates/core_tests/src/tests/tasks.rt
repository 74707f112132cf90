//! Copies that are resumed, by scripted gates that say "not yet", and memory for more room that is
//! refused.
mod counted;
mod front;
mod paced_gate;

ghost use Rattle.std.specs.Prelude.{◌≡◌};

use base_types::Dir;
use linked_list_allocator::LocalHeap;
use paced_gate::PacedGate;
use relay_core::{Copying, Credits, Ended, LOOP_BUFFER_BYTES, LoopMemory, Step};
use relay_ledger::{Book, Full, PARTS, Share};
use rwloops::{DevKind, Fault, WriteFault};
use std::alloc::{Allocator, Global};
use std::marker::Brand;
use std::sync::Wait;
use std::sync::ledger::{Blank, Ledger};

/// A book that one thread alone credits.
#[derive(Drop)]
struct OwnBook<L: Ledger> {
    book: Book<L>,
}

impl<L: Ledger> Credits<L> for OwnBook<L> {
    fn credit(&mut self, share: &mut Share<L>, n: u64) -> Result<(), Full> {
        self.book.credit(share, n)
    }
}

/// How often a copy waited to read and to write, and said `Again`.
type Turns = (u32, u32, u32);

/// How a copy went that was resumed to its end: its turns, its end and its share's amount; whether
/// the bytes were in order, and how many were written, of 256; the fewest and the most bytes that a
/// read asked for.
type Course = (Turns, Ended, u64, bool, u8, (usize, usize));

/// Resumes a copy to its end.
fn turns_of<L: Ledger, R: Wait, A: Allocator>(
    rt: &R,
    gate: &mut PacedGate,
    copying: &mut Copying<A>,
    memory: &mut LoopMemory<A>,
    credits: &mut OwnBook<L>,
    share: &mut Share<L>,
) -> (Turns, Ended) {
    let (mut reads, mut writes, mut again) = (0u32, 0u32, 0u32);
    for _ in rt.forever() {
        match copying.resume(gate, credits, share, memory) {
            Step::Waits(Dir::Read) => reads = reads.saturating_add(1),
            Step::Waits(Dir::Write) => writes = writes.saturating_add(1),
            Step::Again => again = again.saturating_add(1),
            Step::Ended(ended) => return ((reads, writes, again), ended),
        }
    }
    unreachable!()
}

fn resumed<L: Ledger, R: Wait, A: Allocator>(
    rt: &R,
    blank: Blank,
    gate: &mut PacedGate,
    copying: &mut Copying<A>,
    memory: &mut LoopMemory<A>,
) -> Option<Course>
    requires name { blank.name ≡ L.name }
    requires parts { blank.parts ≡ L.parts }
    requires all { blank.parts ≡ 4294967296 }
{
    let mut book = Book::<L>::new(blank);
    let Ok(mut share) = book.open_share() else {
        return None;
    };
    let mut book = OwnBook { book };
    let (turns, ended) = turns_of(rt, gate, copying, memory, &mut book, &mut share);
    let amount = share.amount();
    share.give_up();
    Some((
        turns,
        ended,
        amount,
        gate.in_order,
        gate.next_written,
        gate.asked,
    ))
}

/// How a gate goes: its reads, its writes, its late closes, and whether it fails.
struct Pace(&'static [usize], &'static [usize], u32, bool);

// How a copy over such a gate goes, with memory of this allocator.
fn course_of<R: Wait, A: Allocator + Copy>(rt: &R, alloc: A, pace: &Pace) -> Option<Course> {
    let Ok(mut memory) = LoopMemory::new(alloc) else {
        return None;
    };
    let Ok(mut copying) = Copying::new(alloc) else {
        return None;
    };
    let mut gate = PacedGate {
        reads: pace.0,
        writes: pace.1,
        late_closes: pace.2,
        fails: pace.3,
        next_read: 0,
        next_written: 0,
        in_order: true,
        asked: (usize::MAX, 0),
    };
    resumed::<Brand, _, _>(rt, Blank::new(PARTS), &mut gate, &mut copying, &mut memory)
}

const WHOLE: (usize, usize) = (LOOP_BUFFER_BYTES, LOOP_BUFFER_BYTES);

/// A row: its name, the gate, and how a copy goes over it.
const ROWS: &[(&str, Pace, Course)] = &[
    (
        "parts pass in order",
        Pace(
            &[5, 0, 40, 3, 0, 0, 64],
            &[2, 0, 1, 1, 1, 40, 1, 0, 0, 1],
            2,
            false,
        ),
        ((3, 5, 0), Ended::Eof, 112, true, 112, WHOLE),
    ),
    (
        "a long copy gives others their turn after 8",
        Pace(&[1; 20], &[], 0, false),
        ((0, 0, 2), Ended::Eof, 20, true, 20, WHOLE),
    ),
    (
        "parts before a failed write are credited",
        Pace(&[9], &[2, 0, 3], 0, true),
        (
            (0, 1, 0),
            Ended::WriteFault(WriteFault {
                fault: Fault::Device(DevKind::Reset),
                count: 1,
            }),
            6,
            true,
            6,
            WHOLE,
        ),
    ),
    // What a write didn't take of a whole buffer is kept, and the next read asks for as much again.
    (
        "whole buffers are kept",
        Pace(
            &[LOOP_BUFFER_BYTES, 0, LOOP_BUFFER_BYTES, 7],
            &[1, 0, 65_000, 0, 535, 0, 65_535, 0, 1, 0],
            0,
            false,
        ),
        ((1, 5, 0), Ended::Eof, 131_079, true, 7, WHOLE),
    ),
];

#[test]
fn a_resumed_copy_goes_as_its_rows_say(rt: HostRuntime) {
    for (row, pace, course) in ROWS {
        let went = course_of(&rt, rt.alloc(), pace);
        assert!(rt; went == Some(*course), "{row}: {went:?}");
    }
}

const SMALL: Pace = Pace(&[500, 0, 64], &[1, 0, 254, 0, 1, 3, 0], 0, false);

// How a copy goes on a heap of so many bytes.
fn course_within<R: Wait>(rt: &R, alloc: Global, bytes: usize) -> Option<Course> {
    match LocalHeap::new(alloc, bytes) {
        Ok(heap) => course_of(rt, &heap, &SMALL),
        Err(_) => None,
    }
}

// On a heap that has room for a loop's buffer, for what a copy keeps of its own, and for no more, a
// copy goes to its end by reads of 256 bytes.
#[test]
fn copy_goes_on_where_memory_is_refused(rt: HostRuntime) {
    let went = course_within(&rt, rt.alloc(), 66_560);
    let want = ((1, 3, 0), Ended::Eof, 320, true, 64, (256, 256));
    assert!(rt; went == Some(want), "{went:?}");
    assert!(rt;
        course_within(&rt, rt.alloc(), 65_536).is_none(),
        "too small a heap"
    );
}
