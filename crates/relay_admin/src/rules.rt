//! The rules file: which lines spell which rules, what a file says or why it is none, and what is
//! said of it.

pub mod addr;
pub mod file;
pub mod rule;
pub mod verdict;
