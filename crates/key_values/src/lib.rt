//! A store of texts by keys, and the commands that a client gives it, a line each. It knows nothing
//! of sockets: `line_server` brings the lines, and sends what is answered.
#![tactic(auto)]

mod command;
mod store;

pub use command::Command;
pub use store::{Store, carry_out};
