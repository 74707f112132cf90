//! The figures of a relay at an address, by HTTP: one thread, with an event loop whose tasks are the
//! listener and the clients. What there is to tell is `relay_metrics`'.
//!
//! `place` says what a path names, and `service` answers; `client` reads, answers and writes, `desk`
//! is what all clients need, `server` takes them in, and `running` starts and ends the thread.
#![tactic(auto)]

mod client;
mod desk;
mod place;
mod running;
mod server;
mod service;

pub use running::Running;
pub use server::MetricsServer;
pub use service::MetricsService;

/// The most clients that are served at once. As one more comes, the one that came first is closed:
/// so those that say nothing keep nobody out.
pub const MOST_CLIENTS: usize = 64;

/// The time that a client has for its whole connection: five seconds.
pub const LIMIT_NS: u64 = 5_000_000_000;

// The stack of the thread, in bytes: twice the least that the system gives. Requests are read and
// answered on it; what it doesn't touch takes no memory.
pub(crate) const STACK_BYTES: usize = 262_144;
