//! A relayed connection, from its dial to its end, and a client that is to say first who it is: its entry in the relay's index, the targets that
//! it tries, its ways and their books.
#![tactic(auto)]

mod asked;
mod asked_dialing;
pub mod awaited;
pub mod awaiting;
mod cause;
pub mod connection;
mod dial_outcome;
mod dialing;
pub mod dialled;
mod flow;
mod heard;
pub mod idle_time;
pub mod judged;
mod leaving;
pub mod others;
pub mod refused;
mod relaying;
pub mod seated;
pub mod seeking;
mod seeks;
pub mod set_up;
mod side;
mod task_gate;
pub mod trial;
mod way_time;
