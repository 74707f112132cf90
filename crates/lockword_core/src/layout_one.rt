//! The layout of the word before the present one, and the way from there to here.
//!
//! | Bits | Field | Greatest |
//! |---|---|---|
//! | 0 | closed | 1 |
//! | 1 | read lock | 1 |
//! | 2 | write lock | 1 |
//! | 3 to 22 | references | 1,048,575 |
//! | 23 to 42 | read waiters | 1,048,575 |
//! | 43 to 62 | write waiters | 1,048,575 |
//! | 63 | draining | 1 |
//!
//! Below bit 63 it is that of Go's `fd_mutex.go`. What a flag, a lock and a reference add is the
//! same in both.

ghost use Rattle.std.specs.Prelude.{◌≡◌, ◌≤◌, ◌<◌, ◌+◌, ◌*◌, ◌⊎◌, IfNone, IfSome, Some};
ghost use Rattle.lockword_core.specs.declared.word.Word.{Word};
ghost use Rattle.lockword_core.specs.declared.word.TheConstants as now;
ghost use Rattle.lockword_core.specs.Word.{IsWord, packed};
ghost use Rattle.lockword_core.specs.LayoutOne.{HasFirstFields, first_encoded};
ghost use Rattle.lockword_core.specs.LockState.{Census, references, number, encoded};
ghost use Rattle.lockword_core.specs.LockInvariant.{IsConsistentCensus};

use crate::word;
pub use crate::word::{CLOSED, DRAIN, READ_LOCK, REFERENCE, WRITE_LOCK};

/// Bits of each count.
const COUNT_WIDTH: u32 = 20;

/// What a read waiter adds to a word.
pub const READ_WAITER: u64 = REFERENCE << COUNT_WIDTH;
/// What a write waiter adds to a word.
pub const WRITE_WAITER: u64 = READ_WAITER << COUNT_WIDTH;

/// The greatest count of references.
pub const MAX_REFERENCES: u32 = (1 << COUNT_WIDTH) - 1;
/// The greatest count of waiters in one direction.
pub const MAX_WAITERS: u32 = MAX_REFERENCES;

/// The word of the present layout with the same fields, or `None` where it has no room for so many
/// waiters.
pub fn to_two(word: u64) -> Option<u64>
    ensures none { IfNone result ((f : Word) → HasFirstFields word f
        → (now.MAX_WAITERS < f.rwait) ⊎ (now.MAX_WAITERS < f.wwait)) }
    ensures fits { IfSome result (λ new. (f : Word) → HasFirstFields word f → IsWord f) }
    ensures same { IfSome result (λ new. (f : Word) → HasFirstFields word f → new ≡ packed f) }
    // Where both layouts have room for the counts of a world, its word becomes its word.
    ensures census { (c : Census) → IsConsistentCensus c → number references c ≤ MAX_REFERENCES
        → word ≡ first_encoded c → result ≡ Some (encoded c) }
{
    let read = word / READ_WAITER % (MAX_WAITERS as u64 + 1);
    let write = word / WRITE_WAITER % (MAX_WAITERS as u64 + 1);
    if read > word::MAX_WAITERS as u64 || write > word::MAX_WAITERS as u64 {
        return None;
    }
    Some(
        word % READ_WAITER
            + word::READ_WAITER * read
            + word::WRITE_WAITER * write
            + word / DRAIN * DRAIN,
    )
}
