//! What a holder has, what it asks for, and what it is answered.

use base_types::Dir;

/// What a holder has at one moment.
#[derive(Clone, Copy, Debug, PartialEq, Eq, Drop)]
pub enum Stake {
    /// Nothing.
    Free,
    /// A reference.
    Ref,
    /// The read lock, and a reference.
    Read,
    /// The write lock, and a reference.
    Write,
    /// A place in a direction's queue.
    Waits(Dir),
    /// A signal to give to a waiter of a direction.
    Owes(Dir),
    /// The close: a reference, and the signals still to give in each direction.
    Closing { read: u32, write: u32 },
    /// The signals still to give in each direction after a drain, of which there is one at least.
    /// It is no reference.
    Drains { read: u32, write: u32 },
    /// The last return: nobody uses the descriptor any more, and this holder destroys it.
    Last,
}

/// What a holder asks for.
#[derive(Clone, Copy, Debug, PartialEq, Eq, Drop)]
pub enum Op {
    /// Take a reference.
    Incref,
    /// Give a reference back.
    Decref,
    /// Take the lock of a direction, or a place in its queue.
    Lock(Dir),
    /// Give the lock of a direction back.
    Unlock(Dir),
    /// Give a signal to a waiter of a direction.
    Signal(Dir),
    /// Take a signal of a direction, as its waiter.
    Wake(Dir),
    /// Close the descriptor.
    Close,
    /// Drain the descriptor: from then on nobody takes a reference or a lock any more.
    Drain,
    /// Destroy the descriptor.
    Destroy,
}

/// What a holder is answered.
#[derive(Clone, Copy, Debug, PartialEq, Eq, Drop)]
pub enum Answer {
    /// It has the reference or the lock.
    Held,
    /// It stands in the queue.
    Queued,
    /// It gave back, and others go on.
    Kept,
    /// It gave the lock back, and owes a waiter a signal.
    Owes,
    /// It gave the last reference back after the close, and has to destroy.
    Last,
    /// It gave a signal.
    Signalled,
    /// It took a signal, and waits no longer.
    Woken,
    /// It closed, and owes the signals of all waiters.
    Closing,
    /// It drained, and owes the signals of all waiters.
    Drained,
    /// It destroyed.
    Done,
    /// Its stake doesn't allow what it asked.
    Misuse,
    /// The descriptor is closed.
    Closed,
    /// A count is at its limit.
    TooMany,
    /// A semaphore is at its limit.
    Full,
    /// No signal is there yet.
    NotYet,
    /// The descriptor is drained, and not closed.
    Draining,
}

/// One operation of one holder.
#[derive(Clone, Copy, Debug, PartialEq, Eq, Drop)]
pub struct Event {
    pub holder: u64,
    pub op: Op,
}
