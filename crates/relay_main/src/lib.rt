//! The main thread of a relay: on a loop of its own it accepts by all rules, and serves the admin
//! sessions, which steer connections, have the rules read again and end the relay.
#![tactic(auto)]

mod accept_turns;
mod accounts;
mod admin_socket;
mod binding;
mod check_task;
mod checks;
mod finishing;
mod followed;
mod listeners_end;
mod listening;
mod main_host;
mod main_loop;
mod main_task;
mod names;
mod opening;
mod reload;
mod reload_plan;
mod reload_prepared;
mod rule_listeners;
mod rule_task;
mod session;
mod session_desk;
mod session_state;
mod sessions;
mod targets_desk;
mod wanted_checks;
mod wanted_listeners;

pub use listeners_end::AcceptsEnded;
pub use listening::GivenListener;
pub use main_loop::MainLoop;
pub use sessions::Sessions;
