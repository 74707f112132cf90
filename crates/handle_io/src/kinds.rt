//! Which kind of an error of the standard library tells a fault of a handle.

ghost use Rattle.std.specs.Prelude.{◌≡◌, ◌≢◌};
ghost use Rattle.std.specs.IoError.{error_kind};
ghost use Rattle.std.specs.declared.io.ErrorKind.{ErrorKind};
ghost use Rattle.handle_io.specs.Kinds.{kind_told};

use fd_descriptor::{DevKind, Fault};
use std::io;
use std::io::ErrorKind;

/// The kind of the error that tells this fault. It is never one after which callers try again at
/// once, since a handle has tried again as often as it may.
pub fn kind_of(fault: Fault) -> ErrorKind
    ensures row { result ≡ kind_told fault }
    ensures no_retry { result ≢ ErrorKind.Interrupted }
    ensures no_wait { result ≢ ErrorKind.WouldBlock }
{
    match fault {
        Fault::Closed | Fault::Draining => ErrorKind::NotConnected,
        Fault::DeadlineExceeded => ErrorKind::TimedOut,
        Fault::EndOfFile => ErrorKind::UnexpectedEof,
        Fault::UnexpectedEof => ErrorKind::WriteZero,
        Fault::Device(DevKind::Reset) => ErrorKind::ConnectionReset,
        Fault::Device(DevKind::Aborted) => ErrorKind::ConnectionAborted,
        Fault::Device(DevKind::BrokenPipe) => ErrorKind::BrokenPipe,
        Fault::Device(DevKind::Refused) => ErrorKind::ConnectionRefused,
        Fault::OutOfMemory => ErrorKind::OutOfMemory,
        Fault::Device(DevKind::Other) | Fault::TooManyRetries | Fault::TooMany => ErrorKind::Other,
    }
}

/// An error of the kind that tells this fault, as `?` needs it beside readers and writers.
pub fn error_of(fault: Fault) -> io::Error
    ensures kind { error_kind result ≡ kind_told fault }
{
    kind_of(fault).into()
}
