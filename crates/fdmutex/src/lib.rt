//! The calls that wait, over the lock word's single tries. They try again where another step came
//! between, park while somebody has the lock, and give each signal that they owe before they end.
//! Names and rules follow Go's `fd_mutex.go`; where Go panics at a limit these answer `TooMany`.
//! The drain, which Go doesn't have, is this project's own.
#![tactic(auto)]

mod answers;
mod close;
mod done;
mod draining;
mod locks;
mod reference;

pub use answers::Refusal;
pub use close::{close_mark, drop_closing};
pub use done::wait_done;
pub use draining::drain;
pub use locks::{lock, read_lock, read_unlock, unlock, write_lock, write_unlock};
pub use lockword::Freed;
pub use reference::{decref, incref};
