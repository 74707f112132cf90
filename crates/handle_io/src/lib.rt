//! A handle on a descriptor as a reader and a writer of the standard library, so that a socket that
//! many threads share goes wherever a reader or a writer goes.
//!
//! `kinds` says of which kind an error is that tells a fault; `reader` and `writer` have the two.
#![tactic(auto)]

mod kinds;
mod reader;
mod writer;

pub use kinds::{error_of, kind_of};
pub use reader::HandleReader;
pub use writer::HandleWriter;
