//! Which of a rule's targets a client is connected to, and which targets are up.
//!
//! All of it is decided from values: what is known of each target, a turn's number, a client's
//! address. No connection is made here, and no clock is read.
#![tactic(auto)]

mod health;
pub mod laws;
mod least;
mod picking;
mod seen;
mod source;
mod tried;
mod turn_time;

pub use health::{Health, Limits, Outcome};
pub use picking::{Balance, pick, takers, try_next};
pub use seen::{MAX_TARGETS, Seen};
pub use source::source_number;
pub use tried::Tried;
pub use turn_time::moves_on_at;
