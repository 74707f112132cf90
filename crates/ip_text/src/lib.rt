//! The text of an IP address, in room of its own: no memory is taken.
//!
//! An IPv6 address is written by RFC 5952: lower-case groups without leading zeros, and `::` in
//! place of the longest run of two zero groups or more, the first of two as long.
#![tactic(auto)]

mod groups;

pub use groups::{MAX_GROUPS_BYTES, MAX_IPV4_BYTES, MAX_IPV6_BYTES, dotted, hex_groups, ipv6_text};
