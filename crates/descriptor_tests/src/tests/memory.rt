//! Memory that is refused: the cell's and the descriptor's own blocks in turn, on a heap of growing
//! size; the three blocks of the lock word come from the global heap, and `tests/refused_memory.sh`
//! refuses those. A descriptor that is opened works on with no memory left.

use super::{KEY, Silent, holds};
use deadline_core::Deadline;
use fd_descriptor::{FdHandle, Progress, Resource, TaskReader, TaskWriter};
use linked_list_allocator::LocalHeap;
use rwloops::{DevKind, Outcome, TryRead, TryWrite};
use std::alloc::Global;
use std::process::Abort;
use std::sync::atomic::{AtomicU64, Ordering};
use std::sync::{Arc, Wait};

/// A half that counts its drops, and gives or takes three bytes at each try.
struct Counted {
    drops: Arc<AtomicU64>,
}

impl Drop for Counted {
    fn drop(self) {
        let Self { drops } = self;
        drops.fetch_add(1, Ordering::SeqCst);
    }
}

impl TryRead for Counted {
    ghost tells = { λ _ _. ⊥ };

    fn try_read(&mut self, buf: &mut [u8]) -> Outcome {
        Outcome::Count(buf.len().min(3))
    }
}

impl TryWrite for Counted {
    ghost tells = { λ _ _. ⊥ };

    fn try_write(&mut self, bytes: &[u8]) -> Outcome {
        Outcome::Count(bytes.len().min(3))
    }
}

/// A resource whose destruction counts a hundred.
struct Pair;

impl Resource for Pair {
    type R = Counted;

    type W = Counted;

    type Control = ();

    fn control_of(_read: &Counted) {}

    fn destroy(read: Counted, _write: Counted) -> Result<(), DevKind> {
        read.drops.fetch_add(100, Ordering::SeqCst);
        Ok(())
    }
}

/// What halves have counted that were dropped once each, and weren't destroyed before, or were.
const DROPPED: u64 = 2;

const DESTROYED: u64 = 102;

/// Two halves that count together.
fn halves<T: Abort>(rt: &T, drops: &Arc<AtomicU64>) -> (Counted, Counted) {
    let read = Arc::try_clone(drops).expect(rt, "a count");
    let write = Arc::try_clone(drops).expect(rt, "a count");
    (Counted { drops: read }, Counted { drops: write })
}

type OnHeap<'a> = FdHandle<Pair, &'a LocalHeap>;

/// A task's read and write, and a tick, by handles of their own.
fn polls<T: Wait + Abort + Copy>(rt: T, handle: &mut OnHeap<'_>) -> bool {
    let mut reader = TaskReader::new(rt, handle.share().expect(&rt, "a share"));
    let is_read = reader.poll_read(&mut [0; 3]) == Some(Ok(3));
    let mut writer = TaskWriter::new(rt, reader.into_handle());
    handle.cell().expect(&rt, "its cell").tick(&rt, 5);
    writer.poll_write(b"abc") == Progress::Whole && is_read
}

/// Whether each call does what it is for; the last closes.
fn does_all<T: Wait + Abort + Copy>(rt: T, handle: &mut OnHeap<'_>) -> bool {
    handle.read(&rt, &mut [0; 3]) == Ok(3)
        && handle.write(&rt, b"abc") == Ok(3)
        && polls(rt, handle)
        && handle
            .set_deadline(&rt, Deadline::At(10), 5, &Silent)
            .is_ok()
        && handle.control(&rt, |_| 5u8) == Ok(5)
        && handle.drain(&rt).is_ok()
        && handle.close(&rt).is_ok()
}

/// Whether a descriptor is opened on a heap of this size, whose calls then take no memory, and the
/// last of which closes it. Its halves are dropped once each, and nothing is left on the heap.
fn opens<T: Wait + Abort + Copy>(rt: T, alloc: Global, heap: &LocalHeap) -> bool {
    let drops = Arc::new(alloc, AtomicU64::new(0)).expect(&rt, "a count");
    let (read, write) = halves(&rt, &drops);
    let opened = FdHandle::<Pair, &LocalHeap>::open_in(heap, alloc, read, write, KEY);
    let Ok(handle) = opened else {
        holds(
            &rt,
            drops.load(Ordering::SeqCst) == DROPPED,
            "dropped, as none is opened",
        );
        return false;
    };
    let mut handle = handle;
    let full = heap.used();
    holds(&rt, does_all(rt, &mut handle), "each call works on");
    holds(&rt, heap.used() == full, "no call takes memory");
    drop(handle);
    holds(
        &rt,
        drops.load(Ordering::SeqCst) == DESTROYED,
        "destroyed, and dropped once",
    );
    true
}

// On the smallest heap that a descriptor is opened on there is no memory left.
#[test]
fn a_descriptor_is_opened_or_drops_its_halves_on_each_heap(rt: HostRuntime) {
    let (mut refused, mut opened) = (0u32, 0u32);
    for units in 2..64usize {
        let heap = LocalHeap::new(rt.alloc(), units.saturating_mul(16)).expect(&rt, "heap");
        if opens(rt, rt.alloc(), &heap) {
            opened = opened.saturating_add(1);
        } else {
            refused = refused.saturating_add(1);
        }
        assert!(rt; heap.used() == 0, "nothing is left of {units} units");
    }
    assert!(rt; refused >= 2 && opened >= 2, "{refused} and {opened}");
}

/// Holds where memory is refused as well: `tests/refused_memory.sh` refuses each allocation in
/// turn. A descriptor that was opened is then drained, since a drain takes no memory.
#[test]
fn a_refused_word_drops_the_halves(rt: HostRuntime) {
    let drops = Arc::new(rt.alloc(), AtomicU64::new(0)).expect(&rt, "a count");
    let (read, write) = halves(&rt, &drops);
    if let Ok(mut handle) = FdHandle::<Pair>::open(rt.alloc(), read, write, KEY) {
        let drained = handle.drain(&rt).is_ok() && drops.load(Ordering::SeqCst) == 0;
        holds(&rt, drained, "drained, with its halves at home");
    }
    holds(
        &rt,
        drops.load(Ordering::SeqCst) == DROPPED,
        "dropped once each",
    );
}
