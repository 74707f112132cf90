//! What the crates that read and write texts have in common: numbers and lines as texts have them,
//! and sources and sinks of bytes that tell how their attempts went.
#![tactic(auto)]

pub mod attempt;
pub mod decimal;
pub mod laws;
pub mod line_reader;
pub mod reader_source;
pub mod sink;
pub mod source;
pub mod writer_sink;
