//! What has come of the next line of a session that is answered a line at a time.

ghost use Rattle.std.specs.Prelude.{◌≡◌};
ghost use Rattle.relay_admin.specs.admin.Later.{held_by};

use crate::admin::command::Command;
use crate::admin::end::AdminEnd;
use crate::admin::line_reply::LineReply;
use std::alloc::Allocator;

/// What has come of the next line.
#[derive(Drop)]
pub enum NextLine<A: Allocator> {
    /// No line is whole.
    Unended,
    /// Its reply, and how the session ends by it, if it does.
    Reply(LineReply<A>, Option<AdminEnd>),
    /// It asks this, which the desk answers later. Nothing is to be written until then.
    Held(Command),
}

impl<A: Allocator> NextLine<A> {
    /// What it asks that is answered later.
    pub(crate) fn held(&self) -> Option<Command>
        ensures { result ≡ held_by self.now }
    {
        match self {
            NextLine::Held(question) => Some(*question),
            _ => None,
        }
    }
}
