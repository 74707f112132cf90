//! Listeners that this process was started with, as `sd_listen_fds(3)` has it: who starts it, as
//! systemd does, leaves sockets open at the numbers from 3 on, and says in the environment for which
//! process they are (`LISTEN_PID`), and how many (`LISTEN_FDS`).
//!
//! `protocol` has what the two variables say, `numbers` hands the numbers out, each once, and
//! `given_socket` makes listeners of them.
#![tactic(auto)]

mod given_socket;
mod numbers;
mod protocol;

pub use given_socket::{GivenSocket, Unfit};
pub use numbers::ListenFds;
pub use protocol::{MAX_SOCKETS, handed_over};
