//! What the values of a configuration spell: times, rates, modes of files, names of hosts, IP
//! addresses, and addresses.
//!
//! A value is read from a text as a function of it, and no memory is taken. Each of them but an
//! IPv6 address has one spelling.
#![tactic(auto)]

mod addr;
mod addr_text;
mod host_name;
mod ip;
pub mod laws;
mod mode;
mod rate;
mod time;

pub use addr::{Addr, MAX_PATH_BYTES, addr_of, is_same_addr};
pub use addr_text::MAX_ADDR_BYTES;
pub use host_name::{MAX_LABEL_BYTES, MAX_NAME_BYTES, is_host_name};
pub use ip::{ip_of, is_mapped};
pub use mode::mode_of;
pub use rate::{MAX_RATE, Rate, rate_of};
pub use time::{DAY_MS, time_of};
