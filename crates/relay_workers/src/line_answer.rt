//! What one line of a session asks, and its reply.

ghost use Rattle.std.specs.Prelude.{◌≤◌, length};
ghost use Rattle.relay_admin.specs.declared.admin.dialogue.TheConstants.{MAX_LINE_BYTES};
ghost use Rattle.relay_admin.specs.admin.Parts.{said_of};
ghost use Rattle.relay_admin.specs.admin.Progress.{AnswersLine};

use crate::desk::{Desk, ask};
use relay_admin::{AdminEnd, LineIs, LineReply, line_is, line_reply_to};
use std::alloc::{Allocator, Global};

/// Answers a line without its line feed: the reply, and how the session ends by it, if it does.
/// The desk may take memory of `alloc`, the reply of `memory`.
pub(crate) fn answer_line<A: Allocator + Copy, D: Desk>(
    alloc: Global,
    memory: A,
    desk: &mut D,
    line: &[u8],
) -> (LineReply<A>, Option<AdminEnd>)
    requires { length line.now ≤ MAX_LINE_BYTES }
    ensures { AnswersLine (D.exchanges desk.old) (D.exchanges desk.new)
        line.now (said_of result.0) result.1 }
{
    match line_is(line) {
        LineIs::Answered(reply, end) => (reply, end),
        LineIs::Asks(command) => {
            let answer = ask(alloc, desk, &command);
            (line_reply_to(memory, &command, answer), None)
        }
    }
}
