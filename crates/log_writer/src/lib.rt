//! The thread that writes a relay's log, and what those have of it who push lines. A push waits for
//! no device: it puts its line into a queue, and the thread alone writes.
//!
//! `waiting` is what the lock keeps, `batch` what the thread writes, `turn` what it decides. `log`
//! has both ends, `thread` starts and ends the thread, and `log_file` is what it writes to.
#![tactic(auto)]

pub mod batch;
pub mod counts;
pub mod laws;
mod log;
mod log_file;
mod thread;
pub mod turn;
mod waiting;

pub use log::Log;
pub use log_file::{LogFile, open_log};
pub use thread::{Finish, LogThread};
