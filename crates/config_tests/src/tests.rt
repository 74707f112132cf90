//! Headers as others write them, texts of addresses, runs of picks and of checks.

mod addresses;
mod configs;
mod fault_lines;
mod headers;
mod health;
mod nets;
mod picks;
mod rule_faults;
mod rule_keys;
mod sources;
mod values;
