//! What a program holds instead of a socket: a descriptor that many handles read, write, time and
//! close at once, and that is destroyed once, after its last user. Go's `fd_unix.go` over the lock
//! word, the poll state and the loops below, with a drain, which is this project's own.
#![tactic(auto)]

mod calls;
mod close;
mod control;
mod deadlines;
mod descriptor;
mod draining;
mod half_lock;
mod half_use;
mod handle;
mod leave;
mod poll_cell;
mod polling;
mod resource;
mod task_half;
mod timed;
mod watched;

pub use close::{AtEviction, Nobody};
pub use deadlines::{AlarmPlan, Setting};
pub use descriptor::{Fd, FdHandle};
pub use poll_cell::{CellWaits, PollCell};
pub use resource::{Alarms, HalfClose, Resource};
pub use task_half::{TaskHalf, TaskReader, TaskWriter};
pub use timed::{BegunCall, CallTimes};
pub use watched::{Parked, Watched};

// What callers of the above speak of, so that they need this crate alone.
pub use base_types::{Dir, OutOfMemory};
pub use deadline_core::{Deadline, Dirs, Look, Refusal as DeadlineRefusal};
pub use lockword::Guards;
pub use lockword_core::Word;
pub use rwloops::{
    AcceptOutcome, DevKind, Fault, Outcome, Progress, TryAccept, TryRead, TryWrite, Waits,
    WriteFault,
};
