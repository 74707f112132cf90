//! What the main thread's loop has for tasks.

use crate::admin_socket::AdminTask;
use crate::check_task::CheckTask;
use crate::rule_task::RuleTask;
use std::sync::Wait;

/// A task of the main thread's loop.
#[derive(Drop)]
pub enum MainTask<R: Wait + Copy> {
    /// It accepts by a rule.
    Rule(RuleTask<R>),
    /// It accepts admin sessions.
    Admin(AdminTask),
    /// It checks a target.
    Check(CheckTask),
    /// It only names the session at this place: what a session does is done between two turns, when
    /// a command may change the tasks.
    Session(usize),
}
