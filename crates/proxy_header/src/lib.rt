//! The header of the PROXY protocol, versions 1 and 2: what a proxy writes in front of a
//! connection's bytes, so that its target learns whose connection it is.
//!
//! The public text is `proxy-protocol.txt` of HAProxy. `version1` and `version2` write a header,
//! `decode` reads the first one of a stream's bytes and takes nothing behind it.
#![tactic(auto)]

mod block;
mod fault;
mod header;
mod header_reading;
mod header_writing;
pub mod laws;
mod line;

pub use fault::HeaderFault;
pub use header::{
    EndsV4, EndsV6, HEAD_BYTES, Header, MAX_BYTES, MAX_LINE_BYTES, MAX_VERSION2_BYTES, NAME_BYTES,
    Names,
};
pub use header_reading::{Decoded, decode};
pub use header_writing::{version1, version2};
