//! The relay, from its file to its end, as a program has it: it accepts connections by rules,
//! connects each to its target, copies both ways, counts the bytes, and is steered through an admin
//! socket.
//!
//! | Thread | What it does | Crate |
//! |---|---|---|
//! | main | accepts by all rules, and serves the admin sessions, on a loop of its own | `relay_main` |
//! | one for each loop | sets its connections up, and copies each way of each | `relay_loops` |
//! | the log's, if there is one | writes its lines | `log_writer` |
//! | that of names, with a configuration | looks up the hosts of targets | `relay_shared` |
//! | that of the metrics, if they are asked for | answers who asks for them | `metrics_server` |
//!
//! `serving` has the order of the whole, `server` the relay itself, `threads` its loops' threads,
//! `names_thread` that of names, `outlets` what else runs beside them, `given` the listeners that it is started with, `log_source` what
//! its log is opened from, `output` its lines.
#![tactic(auto)]

mod bounds;
mod figures;
mod given;
mod log_source;
mod names_thread;
mod outlets;
mod output;
mod pollers;
mod server;
mod serving;
mod shared_end;
mod stacks;
mod threads;

pub use given::Given;
pub use log_source::{LogFiles, OpensLog};
pub use relay_admin::ServeFault;
pub use relay_facts::config::Config;
pub use relay_facts::rules_file::{config_text_of, text_of};
pub use relay_main::GivenListener;
pub use serving::serve;
