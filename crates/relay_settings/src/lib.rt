//! What a relay is asked to be: by the words of its command line, by a configuration, and by both.
//! What a configuration says and this version doesn't carry out is a fault, in one written order.
#![tactic(auto)]

mod address;
mod asked;
mod check;
mod conversion;
mod defaults;
mod keys;
pub mod laws;
mod listeners;
mod rules;
mod said;
mod served;
mod settings;
mod targets;
mod telling;

pub use address::relay_addr_of;
pub use asked::{Asked, Source};
pub use check::{bad_config, check_config, rule_count};
pub use client_sources::Limits as SourceLimits;
pub use conversion::convert;
pub use defaults::DEFAULT_CONNECT_MS;
pub use listeners::further_listeners;
pub use relay_config::{Access, Checks, Sockets, Version};
pub use said::{MAX_CONFIG_BYTES, Said, read_config};
pub use settings::{MAX_CONNECT_MS, Settings, in_force};
pub use targets::{HostName, MAX_TARGETS, Named, PLAIN_SOCKETS, SaidRule, Target};
pub use telling::{SETTINGS, Setting, needs_restart, wins_over_file};
