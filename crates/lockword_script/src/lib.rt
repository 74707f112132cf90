//! The trace script of the lock word: a text of lines, each of which is one or more events, and the
//! text that running it prints. From bytes to bytes, over any source and sink or any reader and
//! writer.
#![tactic(auto)]

pub mod laws;
mod outcome;
mod printed_line;
mod script;
mod script_run;
mod trace_run;

pub use outcome::{End, TraceFault};
pub use script::{HOLDERS, MAX_LINE_BYTES, MAX_LINES};
pub use trace_run::{trace, trace_on};
