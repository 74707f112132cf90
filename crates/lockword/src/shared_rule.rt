//! The words and slots of a lock word, and the rule that holds of them between any two atomic
//! steps.
//!
//! | Word | Holds | Greatest |
//! |---|---|---|
//! | `STATE` | the packed word of `lockword_core` | any word |
//! | `READ_SIGNALS`, `WRITE_SIGNALS` | signals given and not yet taken | `MAX_SIGNALS` |
//! | `DONE` | 1 once the resource was destroyed; never cleared | 1 |
//!
//! | Slot | Holds at home |
//! |---|---|
//! | `READ_HALF` | `Half::Read`, or `Half::Away` once the resource was destroyed |
//! | `WRITE_HALF` | `Half::Write`, or `Half::Away` once the resource was destroyed |

ghost use Rattle.std.specs.Prelude.{◌≡◌, ◌<◌};
ghost use Rattle.lockword.specs.Directions.{semaphore, slot_of};

use crate::local_view::LocalView;
use atomic_table::TableRule;
use base_types::Dir;

/// The word with the flags, the locks and the counts.
pub const STATE: usize = 0;
/// The semaphore of the read waiters.
pub const READ_SIGNALS: usize = 1;
/// The semaphore of the write waiters.
pub const WRITE_SIGNALS: usize = 2;
/// The word that says whether the resource was destroyed.
pub const DONE: usize = 3;

/// The slot of the read half.
pub const READ_HALF: usize = 0;
/// The slot of the write half.
pub const WRITE_HALF: usize = 1;

/// The word of a direction's semaphore.
pub(crate) fn semaphore(dir: Dir) -> usize
    ensures value { result ≡ semaphore dir }
    ensures is_word { result < 4 }
{
    match dir {
        Dir::Read => READ_SIGNALS,
        Dir::Write => WRITE_SIGNALS,
    }
}

/// The slot of a direction's half.
pub(crate) fn slot(dir: Dir) -> usize
    ensures value { result ≡ slot_of dir }
    ensures is_slot { result < 2 }
{
    match dir {
        Dir::Read => READ_HALF,
        Dir::Write => WRITE_HALF,
    }
}

/// What a slot holds.
#[derive(Drop)]
pub enum Half<R, W> {
    /// The read half.
    Read(R),
    /// The write half.
    Write(W),
    /// Nothing: the half is with a holder, or was given away for good.
    Away,
}

/// The rule of the table.
pub struct LockRule;

impl<R, W> TableRule<Half<R, W>, LocalView, ()> for LockRule {
    ghost use Rattle.lockword.specs.LocalView.{newcomer};
    ghost use Rattle.lockword.specs.SharedInvariant.{IsReached};

    ghost holds = { λ _. IsReached };

    ghost first = { λ _. newcomer };
}
