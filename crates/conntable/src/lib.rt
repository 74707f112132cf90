//! Connections by id and by poll token. Ids rise and never come again, keys are used again,
//! and a token is made of both, so that a token which outlived its entry names nothing.
#![tactic(auto)]

pub mod laws;
pub mod table;
pub mod token;

pub use table::{ConnTable, Entry, Refusal};
