//! A book whose total is the sum of the amounts of its shares. Each worker has a share; a credit
//! adds to the book and to the share at once, a share is settled when its worker has ended, and who
//! gathers those that are open has the total.
#![tactic(auto)]

pub mod book;
mod gathering;
pub mod laws;
pub mod share;

pub use book::{Book, Full, MAX_SHARES, PARTS};
pub use share::{CarriedShare, Share, give_up_all};
