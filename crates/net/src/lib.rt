//! Sockets as a program wants them: a net that runs by itself, listeners, and connections that read
//! and write as those of the standard library, which many threads may share, time and close.
//!
//! `running` has the net with its thread, `stream` connections, `accepting` listeners, `limits` the
//! moments at which calls give up, and `guard` what closes with the last of those that share it.
#![tactic(auto)]

mod accept_times;
mod accepting;
mod address;
mod asked;
mod attempts;
mod closer;
mod conn_options;
mod connecting;
mod dialing;
mod door;
mod entry;
mod errors;
mod gentle;
mod gone;
mod group;
mod guard;
mod home;
mod host;
mod last_call;
pub mod laws;
mod limits;
mod line_handler;
mod line_task;
mod lines;
mod members;
mod open_loops;
mod outgoing;
mod over;
mod phase;
mod poll_read;
mod poll_write;
mod polling;
mod running;
mod runs;
mod serve_loop;
mod served;
mod service;
mod serving;
mod shared;
mod socket_closer;
mod stream;
mod task;
mod timing;

pub use accepting::Listener;
pub use address::{UNIX, address_of, tcp};
pub use asked::Asked;
pub use closer::ServiceCloser;
pub use errors::error_with;
pub use gentle::GentleClose;
pub use gone::Gone;
pub use group::{ConnGroup, Member};
pub use limits::{Limits, Times};
pub use line_handler::{AfterLine, LineHandler};
pub use line_task::LineTask;
pub use lines::{Heard, Lines};
pub use members::NoneLeft;
pub use outgoing::Outgoing;
pub use over::Ended;
pub use poll_read::PollRead;
pub use poll_write::PollWrite;
pub use readiness::Addr;
pub use running::Net;
pub use runs::{Runs, Unlinks};
pub use service::Service;
pub use serving::listen_and_serve;
pub use socket_closer::SocketCloser;
pub use stream::Conn;
pub use task::{Cause, Next, Task, Waits};
