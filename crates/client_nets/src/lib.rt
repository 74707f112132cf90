//! Lists of networks by which clients are let in: the address alone decides, by arithmetic.
#![tactic(auto)]

mod admit;
mod net;

pub use admit::{admits, lists, lists_client};
pub use net::Net;
