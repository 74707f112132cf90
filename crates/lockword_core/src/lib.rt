//! The lock word of a descriptor: its definitions, the packed word, and a machine of named holders.
#![tactic(auto)]

pub mod laws;
pub mod layout_one;
mod machine;
mod signals;
mod stake;
mod stake_rules;
mod transition;
mod word;

pub use machine::{Machine, Stopped};
pub use signals::{MAX_SIGNALS, Signals, signal_add, signal_take};
pub use stake::{Answer, Event, Op, Stake};
pub use transition::{After, Kind, Refused, word_step};
pub use word::{DRAIN, MAX_REFERENCES, MAX_WAITERS, REFERENCE, Word, pack, unpack};
