//! The lock word of a shared descriptor, as threads use it: four atomic words, the two halves of
//! the resource in two slots, and seats, through which alone the words change.
#![tactic(auto)]

mod closing;
mod destroy;
mod directions;
mod draining;
mod dropping;
mod holders;
pub mod laws;
mod local_view;
mod locking;
mod look;
mod references;
mod seats;
mod shared_rule;
mod signals;
mod transitions;

pub use directions::{Direction, Guards, Reading, Writing};
pub use holders::{
    Close, Closing, Drain, Drains, Freed, Held, Incref, Last, Lock, LockRead, LockWord, LockWrite,
    Owing, Place, ReadLock, ReadWait, Ref, Seat, Signal, SignalClosing, SignalDrains, Unlock,
    UnlockRead, UnlockWrite, Waiting, Wake, WakeRead, WakeWrite, WriteLock, WriteWait,
};
pub use local_view::{LocalView, Marks};
pub use look::Holder;
pub use shared_rule::Half;
