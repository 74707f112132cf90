//! The reply to what a desk answered.

ghost use Rattle.std.specs.Prelude.{◌≡◌, IfOk};
ghost use Rattle.relay_admin.specs.admin.Reply.{answer_of, reply_text};

use base_types::OutOfMemory;
use relay_admin::{Command, DeskAnswer, reply_in};
use std::alloc::Global;

/// The reply to an answer, with its line feed. It hangs on the answer alone, whatever the command
/// is. The only fault is want of memory.
pub fn reply_of(
    alloc: Global,
    _command: &Command,
    answer: &DeskAnswer,
) -> Result<Vec<u8>, OutOfMemory>
    ensures { IfOk result (λ reply. reply.items ≡ reply_text (answer_of answer.now)) }
{
    reply_in(alloc, answer)
}
