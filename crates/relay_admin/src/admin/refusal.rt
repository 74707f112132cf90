//! What a reply says of its command to who sent it: whether it is whole, and whether the command
//! wasn't carried out.

ghost use Rattle.std.specs.Prelude.{◌≡◌};
ghost use Rattle.relay_admin.specs.admin.Refusal as refusal;

use crate::admin::command::Command;
use crate::admin::reply_text::{OUT_OF_MEMORY, SHOWN_ALL};

/// Whether a reply is a refusal: it begins with `error `, or, as one to `reload` may, with
/// `bad rules`, `bad config` or `cannot `.
pub fn reply_refuses(reply: &[u8]) -> bool
    ensures { result ≡ refusal.reply_refuses reply.now }
{
    reply.starts_with(b"error ".as_slice())
        || reply.starts_with(b"bad rules".as_slice())
        || reply.starts_with(b"bad config".as_slice())
        || reply.starts_with(b"cannot ".as_slice())
}

/// Whether the last line says that memory was refused, as that of a listing may which has begun.
pub fn reply_breaks_off(reply: &[u8]) -> bool
    ensures { result ≡ refusal.reply_breaks_off reply.now }
{
    reply.ends_with(OUT_OF_MEMORY)
}

/// Whether this is a whole reply to a command: it ends with a line feed, and a listing with its last
/// line, or breaks off.
pub fn reply_is_whole(command: &Command, reply: &[u8]) -> bool
    ensures { result ≡ refusal.reply_is_whole command.now reply.now }
{
    match command {
        Command::ShowAll | Command::Targets => reply.ends_with(SHOWN_ALL)
            || reply_breaks_off(reply),
        _ => reply.ends_with(b"\n".as_slice()),
    }
}
