//! What a relay replied to an admin command, and the program's exit status for it.
//!
//! | Status | Meaning |
//! |---|---|
//! | 0 | the command was carried out |
//! | 1 | it was refused |
//! | 3 | no whole reply came, or it couldn't be printed |

ghost use Rattle.std.specs.Prelude.{◌≡◌, ◌⊎◌, IfErr, IfOk, IfSome, true};
ghost use Rattle.std.specs.Io.KnownBytes.{Appends};
ghost use Rattle.relay_command.specs.declared.fault.Fault.{Fault};
ghost use Rattle.relay_admin.specs.admin.Refusal as refusal;
ghost use Rattle.relay_command.specs.ExitStatus.{IsFaultOfReply, status_of_reply};

use crate::fault::{Fault, NO_MEMORY};
use relay_admin::{Command, reply_breaks_off, reply_is_whole, reply_refuses};
use std::alloc::Global;
use std::io::{ErrorKind, Read, Write};

/// Prints the reply to a command, which is all that a session that ends by it still gives, and says
/// the exit status. A reply without its line feed at the end isn't whole, nor is a listing without
/// its last line: the relay went away. Nothing is printed then.
pub fn reply_status<R: Read, W: Write>(
    alloc: Global,
    command: &Command,
    reader: &mut R,
    writer: &mut W,
) -> Result<u8, Fault>
    ensures known { IfOk result (λ status. (status ≡ 0) ⊎ (status ≡ 1)) }
    ensures told { IfOk result (λ status. IfSome (R.remaining reader.old) (λ reply.
        (refusal.reply_is_whole command.now reply ≡ true) × (status ≡ status_of_reply reply)
        × Appends (W.contents writer.old) (W.contents writer.new) reply)) }
    ensures fault { IfErr result (λ fault. IsFaultOfReply fault) }
    // Of a reply that isn't whole, or that memory was refused for, nothing is printed.
    ensures unprinted { IfErr result (λ fault. (fault ≡ Fault.Print)
        ⊎ (W.contents writer.new ≡ W.contents writer.old)) }
{
    let mut reply = Vec::new(alloc);
    match reader.read_to_end(&mut reply) {
        Ok(_) => {}
        Err(error) if error.kind() == ErrorKind::OutOfMemory => return Err(NO_MEMORY),
        Err(_) => return Err(Fault::Reach),
    }
    if !reply_is_whole(command, reply.as_slice()) {
        return Err(Fault::Reach);
    }
    match writer.write_all(reply.as_slice()) {
        Ok(()) => Ok(status_of(reply.as_slice())),
        Err(_) => Err(Fault::Print),
    }
}

fn status_of(reply: &[u8]) -> u8
    ensures { result ≡ status_of_reply reply.now }
{
    if reply_refuses(reply) || reply_breaks_off(reply) {
        1
    } else {
        0
    }
}
