//! The word, its seats, and the values that must be spent: they have no `Drop`, can't be copied,
//! and their fields are private, so that each goes into exactly one call that ends its stake.

ghost use Rattle.std.specs.Prelude.{◌≡◌, ◌<◌, ◌+◌, [], ◌∷◌, true};
ghost use Rattle.lockword.specs.declared.shared_rule.Half.TheVariants as content;
ghost use Rattle.lockword_core.specs.declared.stake.Stake.TheVariants as stake;
ghost use Rattle.lockword_core.specs.Transition.{lock_stake};
ghost use Rattle.lockword.specs.Directions.{slot_of};
ghost use Rattle.lockword.specs.Slots.{slots_of};

use crate::directions::{Direction, Guards, Reading, Writing};
use crate::local_view::LocalView;
use crate::shared_rule::{Half, LockRule};
use atomic_table::Table;
use base_types::Dir;
use lockword_core::Word;
use std::alloc::Global;
use std::marker::PhantomData;

/// A seat of the table below, in any stake. It has no bytes.
pub type Place<R, W> = atomic_table::Seat<Half<R, W>, LocalView>;

/// A lock word with the two halves of the resource that it guards. When its last owner goes while
/// the halves are at home, they are dropped, and nobody destroys the resource.
#[derive(Drop)]
pub struct LockWord<R: Drop, W: Drop> {
    pub(crate) table: Table<Half<R, W>, LocalView, (), LockRule, Global>,
    ghost words: { table.shared.table_id.words ≡ 4 },
    ghost slots: { table.shared.table_id.slots ≡ 2 },
}

/// A seat whose holder has nothing. It may be dropped.
#[derive(Drop)]
pub struct Seat<R, W> {
    pub(crate) place: Place<R, W>,
    ghost stake: { place.me.0.stake ≡ stake.Free },
    ghost slots: { place.me.1 ≡ [] },
}

/// A reference. It goes into `drop_ref`.
pub struct Ref<R, W> {
    pub(crate) place: Place<R, W>,
    ghost stake: { place.me.0.stake ≡ stake.Ref },
    ghost slots: { place.me.1 ≡ [] },
}

/// The close: a reference, and the signals that are still owed to the waiters of each direction. It
/// goes into `drop_closing` once nothing is owed.
pub struct Closing<R, W> {
    pub(crate) place: Place<R, W>,
    pub(crate) owed_read: u32,
    pub(crate) owed_write: u32,
    ghost stake: { place.me.0.stake ≡ stake.Closing owed_read owed_write },
    ghost saw: { place.me.0.saw.closed ≡ true },
    ghost slots: { place.me.1 ≡ [] },
}

/// The drain: the signals that are still owed to the waiters of each direction, of which there is
/// at least one. It goes into `try_signal_drains` until nothing is owed, which may be after the
/// end.
pub struct Drains<R, W> {
    pub(crate) place: Place<R, W>,
    pub(crate) owed_read: u32,
    pub(crate) owed_write: u32,
    ghost stake: { place.me.0.stake ≡ stake.Drains owed_read owed_write },
    ghost saw: { place.me.0.saw.draining ≡ true },
    ghost owes: { 0 < owed_read + owed_write },
    ghost slots: { place.me.1 ≡ [] },
}

/// The right and the duty to destroy: nobody else uses the resource any more. It goes into
/// `mark_done`, after `halves`.
pub struct Last<R, W> {
    pub(crate) place: Place<R, W>,
    ghost stake: { place.me.0.stake ≡ stake.Last },
    ghost saw: { place.me.0.saw.closed ≡ true },
    ghost slots: { place.me.1 ≡ slots_of place.me.0.took },
}

/// What `try_incref` answers.
pub enum Incref<R, W> {
    /// The reference.
    Held(Ref<R, W>),
    /// The word is closed, and the seat has seen it.
    Closed(Seat<R, W>),
    /// The references of the word that was found, which is neither closed nor draining, are at
    /// their limit.
    TooMany(Seat<R, W>, Word),
    /// Another step came between; nothing changed.
    Lost(Seat<R, W>),
    /// The word is draining and was not closed, and the seat has seen it.
    Draining(Seat<R, W>),
}

/// What `try_drain` answers.
pub enum Drain<R, W> {
    /// This call set the drain flag, and nobody waited for a signal.
    Drained(Seat<R, W>),
    /// This call set the drain flag, and owes a signal to each who waited for one.
    Owes(Drains<R, W>),
    /// The word is closed, and the seat has seen it.
    Closed(Seat<R, W>),
    /// The word was draining before and was not closed, and the seat has seen it.
    Draining(Seat<R, W>),
    /// Another step came between; nothing changed.
    Lost(Seat<R, W>),
}

/// What is left to a holder that gave a reference, a lock or the close back.
pub enum Freed<R, W> {
    /// Nothing but the seat.
    Kept(Seat<R, W>),
    /// It was the last reference of a closed word.
    Last(Last<R, W>),
}

/// What `try_close` answers.
pub enum Close<R, W> {
    /// This call closed the word.
    Closing(Closing<R, W>),
    /// The word was closed before, and the seat has seen it.
    Closed(Seat<R, W>),
    /// The references of the word that was found, which is not closed, are at their limit.
    TooMany(Seat<R, W>, Word),
    /// Another step came between; nothing changed.
    Lost(Seat<R, W>),
}

/// The lock of a direction, with a reference and the half that it guards. It goes into
/// `try_unlock`.
pub struct Held<D: Guards<R, W>, R, W> {
    pub(crate) place: Place<R, W>,
    pub(crate) half: D::Guarded,
    ghost stake: { place.me.0.stake ≡ lock_stake D.dir },
    ghost slots: { place.me.1 ≡ (slot_of D.dir, content.Away) ∷ [] },
}

/// The read lock.
pub type ReadLock<R, W> = Held<Reading, R, W>;
/// The write lock.
pub type WriteLock<R, W> = Held<Writing, R, W>;

/// A place in the queue of a direction's lock. It goes into `try_wake`.
pub struct Waiting<D: Direction, R, W> {
    pub(crate) place: Place<R, W>,
    pub(crate) marker: PhantomData<D>,
    ghost stake: { place.me.0.stake ≡ stake.Waits D.dir },
    ghost slots: { place.me.1 ≡ [] },
}

/// A place in the queue of the read lock.
pub type ReadWait<R, W> = Waiting<Reading, R, W>;
/// A place in the queue of the write lock.
pub type WriteWait<R, W> = Waiting<Writing, R, W>;

/// A signal that is owed to a waiter of a direction. It goes into `try_signal`.
pub struct Owing<R, W> {
    pub(crate) place: Place<R, W>,
    pub(crate) dir: Dir,
    ghost stake: { place.me.0.stake ≡ stake.Owes dir },
    ghost slots: { place.me.1 ≡ [] },
}

/// What `try_lock` answers.
pub enum Lock<D: Guards<R, W>, R, W> {
    /// The lock.
    Held(Held<D, R, W>),
    /// A place in the queue: somebody has the lock.
    Queued(Waiting<D, R, W>),
    /// The word is closed, and the seat has seen it.
    Closed(Seat<R, W>),
    /// The references, or where somebody has the lock its waiters, are at their limit; the word
    /// that was found is neither closed nor draining.
    TooMany(Seat<R, W>, Word),
    /// Another step came between; nothing changed.
    Lost(Seat<R, W>),
    /// The word is draining and was not closed, and the seat has seen it.
    Draining(Seat<R, W>),
}

/// What `try_lock_read` answers.
pub type LockRead<R, W> = Lock<Reading, R, W>;
/// What `try_lock_write` answers.
pub type LockWrite<R, W> = Lock<Writing, R, W>;

/// What `try_unlock` answers.
pub enum Unlock<D: Guards<R, W>, R, W> {
    /// The lock is given back, and nobody waits.
    Free(Seat<R, W>),
    /// The lock is given back, and a waiter has to be signalled.
    Owes(Owing<R, W>),
    /// It was the last reference of a closed word.
    Last(Last<R, W>),
    /// Another step came between; nothing changed.
    Lost(Held<D, R, W>),
}

/// What `try_unlock_read` answers.
pub type UnlockRead<R, W> = Unlock<Reading, R, W>;
/// What `try_unlock_write` answers.
pub type UnlockWrite<R, W> = Unlock<Writing, R, W>;

/// What `try_signal` answers.
pub enum Signal<R, W> {
    /// The signal is given.
    Signalled(Seat<R, W>),
    /// The semaphore is at its limit; nothing changed.
    Full(Owing<R, W>),
    /// Another step came between; nothing changed.
    Lost(Owing<R, W>),
}

/// What `try_signal_closing` answers.
pub enum SignalClosing<R, W> {
    /// One signal is given, and one less is owed.
    Signalled(Closing<R, W>),
    /// The semaphore is at its limit; nothing changed.
    Full(Closing<R, W>),
    /// Another step came between; nothing changed.
    Lost(Closing<R, W>),
}

/// What `try_signal_drains` answers.
pub enum SignalDrains<R, W> {
    /// The last signal that was owed is given.
    Signalled(Seat<R, W>),
    /// One signal is given, and one less is owed, but not none.
    More(Drains<R, W>),
    /// The semaphore is at its limit; nothing changed.
    Full(Drains<R, W>),
    /// Another step came between; nothing changed.
    Lost(Drains<R, W>),
}

/// What `try_wake` answers.
pub enum Wake<D: Direction, R, W> {
    /// A signal is taken. The holder has nothing, and contends again.
    Woken(Seat<R, W>),
    /// No signal is there; nothing changed.
    NotYet(Waiting<D, R, W>),
    /// Another step came between; nothing changed.
    Lost(Waiting<D, R, W>),
}

/// What `try_wake_read` answers.
pub type WakeRead<R, W> = Wake<Reading, R, W>;
/// What `try_wake_write` answers.
pub type WakeWrite<R, W> = Wake<Writing, R, W>;
