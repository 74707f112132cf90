//! The configuration of a relay, read from a TOML text: its limits, how it runs, its rules with
//! their listeners and targets, or the first fault of the text.
#![tactic(auto)]

mod access;
mod admin;
mod clients;
mod config;
mod fault;
mod health;
mod items;
mod line;
mod listen;
mod log;
mod looked_up;
mod nets;
mod paths;
mod proxy;
mod rule;
mod rule_name;
mod service;
mod sockets;
mod spelled;
mod table;
mod target;
mod values;
mod words;

pub use access::Access;
pub use admin::{Admin, MAX_ADMIN_BYTES};
pub use clients::Clients;
pub use config::{Config, Limits, MAX_BYTES, MAX_CONNECTIONS, MAX_RULES};
pub use fault::{Fault, Key, Place, Spot, Wrong};
pub use health::{
    Checks, DEFAULT_EVERY_MS, DEFAULT_FALL, DEFAULT_RISE, DEFAULT_TIMEOUT_MS, MAX_IN_A_ROW,
};
pub use line::fault_line;
pub use listen::MAX_LISTENERS;
pub use log::{Format, Log, MAX_LOG_BYTES};
pub use nets::MAX_NETS;
pub use proxy::{Proxy, Version};
pub use rule::{DEFAULT_RESOLVE_MS, Head, Rule};
pub use rule_name::MAX_NAME_BYTES;
pub use service::{MAX_LOOPS, Service};
pub use sockets::{MAX_BACKLOG, Sockets};
pub use spelled::MAX_KEEPALIVE_MS;
pub use target::{MAX_TARGETS, Target};
