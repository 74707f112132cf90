//! What the threads of a relay share: the index of connections and listeners, what others reach a
//! loop by, what sessions ask of connections, and the stop.
#![tactic(auto)]

pub mod address;
pub mod bound_path;
pub mod inbox;
pub mod index;
pub mod laws;
pub mod lookups;
pub mod loop_handle;
pub mod owed_end;
pub mod poller_fault;
pub mod requests;
pub mod shared;
pub mod shortage;
pub mod socket_options;
pub mod stale_path;
pub mod standing;
pub mod stopping;
