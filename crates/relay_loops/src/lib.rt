//! The loops of a relay: each is a thread that sets connections up for the sockets in its inbox, has
//! them go on, and ends them.
#![tactic(auto)]

mod arrival;
mod awaiting;
mod loop_task;
mod loops;
mod requests;
mod seeking;
mod set_up;
mod taken;

pub use loops::{LoopContext, run_loop};
