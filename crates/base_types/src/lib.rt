//! What every crate above speaks of: the two directions of a stream, and want of memory.
#![tactic(auto)]

mod direction;

pub use direction::Dir;
pub use std::alloc::AllocError as OutOfMemory;
