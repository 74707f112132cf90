//! How many clients of one source are let in. A source is an IPv4 address, or a network of IPv6 of 64
//! bits. All of it is decided from values: no socket is asked, no clock is read, and nothing is locked.
#![tactic(auto)]

mod entry;
pub mod laws;
mod limits;
mod paced;
mod source;
mod sources;

pub use limits::{Limits, Refusal};
pub use paced::Paced;
pub use source::{GROUP_PLACES, Source};
pub use sources::{PLACES, Sources};
