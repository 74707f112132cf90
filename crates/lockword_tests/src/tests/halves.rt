//! Halves that count their drops.

ghost use Rattle.lockword.specs.Places.{seat_place};
ghost use Rattle.lockword.specs.TransitionOutcomes.{IsSeatOf};

use super::wrong;
use base_types::Dir;
use lockword::{Close, Freed, LockWord, Seat};
use std::alloc::Global;
use std::process::Abort;
use std::sync::atomic::{AtomicU64, Ordering};

struct Counted<'a> {
    drops: &'a AtomicU64,
}

impl Drop for Counted<'_> {
    fn drop(self) {
        let Self { drops } = self;
        drops.fetch_add(1, Ordering::SeqCst);
    }
}

/// Holds where memory is refused as well, also for the first word alone: `tests/refused_memory.sh`
/// refuses each allocation in turn.
#[test]
fn a_word_drops_its_halves_once(rt: HostRuntime) {
    let drops = AtomicU64::new(0);
    for _ in 0..2 {
        let read = Counted { drops: &drops };
        let write = Counted { drops: &drops };
        if let Ok((word, _seat)) = LockWord::new(rt.alloc(), read, write) {
            drop(word);
        }
    }
    assert_eq!(rt; drops.load(Ordering::SeqCst), 4);
}

/// Closes a word, and takes its halves.
fn taken<'a, R: Abort>(
    rt: &R,
    word: &LockWord<Counted<'a>, Counted<'a>>,
    seat: Seat<Counted<'a>, Counted<'a>>,
) -> (Counted<'a>, Counted<'a>)
    requires seat { IsSeatOf word.now (seat_place seat) }
{
    let closing = want!(rt; word.try_close(seat), Close::Closing);
    assert!(rt; closing.owed(Dir::Read) == 0, "no reader waits");
    assert!(rt; closing.owed(Dir::Write) == 0, "no writer waits");
    let mut last = want!(rt; word.drop_closing(closing), Freed::Last);
    let halves = last.halves(word);
    let _seat = word.mark_done(last);
    halves
}

/// None without memory for a word.
fn drops_of<'a, R: Abort>(rt: &R, alloc: Global, drops: &'a AtomicU64) -> Option<u64> {
    let read = Counted { drops };
    let write = Counted { drops };
    let Ok((word, seat)) = LockWord::new(alloc, read, write) else {
        return None;
    };
    let _halves = taken(rt, &word, seat);
    drop(word);
    Some(drops.load(Ordering::SeqCst))
}

#[test]
fn halves_that_were_taken_are_not_dropped_again(rt: HostRuntime) {
    let drops = AtomicU64::new(0);
    let by_the_word = drops_of(&rt, rt.alloc(), &drops);
    assert!(rt;
        by_the_word == Some(0),
        "no memory for a word, or {by_the_word:?} drops"
    );
    assert!(rt;
        drops.load(Ordering::SeqCst) == 2,
        "both halves are the test's"
    );
}
