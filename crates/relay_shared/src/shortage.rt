//! Connects that fail for want of what the relay's own system gives: by no target's fault.

ghost use Rattle.std.specs.Prelude.{◌≡◌, true, false};
ghost use Rattle.relay_shared.specs.Shortage.{IsShortage};

use std::io;

// The system's numbers: of memory, of descriptors of the system and of the process, of ports, where a
// source is said and where none is, and of buffers.
const ENOMEM: i32 = 12;

const ENFILE: i32 = 23;

const EMFILE: i32 = 24;

const EADDRINUSE: i32 = 98;

const EADDRNOTAVAIL: i32 = 99;

const ENOBUFS: i32 = 105;

/// Whether a connect failed for want of memory, a descriptor, a port or an address of its own, or
/// buffers.
pub fn is_shortage(error: &io::Error) -> bool
    ensures shortage { IsShortage error.now → result ≡ true }
    ensures others { (IsShortage error.now → ⊥) → result ≡ false }
{
    match error.raw_os_error() {
        Some(code) => {
            code == ENOMEM
                || code == ENFILE
                || code == EMFILE
                || code == EADDRINUSE
                || code == EADDRNOTAVAIL
                || code == ENOBUFS
        }
        None => false,
    }
}
