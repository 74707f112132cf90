//! The values that hold where neither the command line nor a configuration says another.
//!
//! Those of connections and of loops stand with their types, in `connection_limit` and `loops` of
//! `relay_core`, and those that a rule has by itself in `rule` and `health` of `relay_config`.

/// How many milliseconds a target has to be connected where nobody asks for another time. This
/// project's own rule. The clauses that stand on it have the figures themselves, so that others are
/// refused.
pub const DEFAULT_CONNECT_MS: u32 = 5_000;
