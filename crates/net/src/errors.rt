//! Which error of the standard library tells a fault of a handle: by its kind, and with the number
//! that the system gave, where it gave one.

ghost use Rattle.std.specs.Prelude.{◌≡◌, ◌↔◌, true, Some, Ok, IfSome, IfOk, IfErr, IsErrAnd};
ghost use Rattle.std.specs.IoError.{raw_os_error, os_error_kind};
ghost use Rattle.net.specs.Errors.{Fits, Tells};

use fd_descriptor::{DevKind, Fault};
use handle_io::{error_of, kind_of};
use std::io;
use std::io::ErrorKind;

// Whether the system's error of this kind may be what the fault was made of. The number stands
// beside the fault, so that it may be that of another call's.
fn fits(fault: Fault, kind: ErrorKind) -> bool
    ensures { result ≡ true ↔ Fits fault kind }
{
    match fault {
        Fault::Device(DevKind::Other) => match kind {
            ErrorKind::Interrupted | ErrorKind::WouldBlock => false,
            _ => true,
        },
        Fault::Device(_) => kind == kind_of(fault),
        _ => false,
    }
}

/// The error that tells a fault, with the system's number of it, where that is given and fits.
pub fn error_with(fault: Fault, code: Option<i32>) -> io::Error
    ensures tells { Tells fault result }
    ensures kept { IfSome code (λ told. Fits fault (os_error_kind told)
        → raw_os_error result ≡ Some told) }
{
    let Some(code) = code else {
        return error_of(fault);
    };
    let error = io::Error::from_raw_os_error(code);
    if fits(fault, error.kind()) {
        error
    } else {
        error_of(fault)
    }
}

/// The answer of a handle as one of the standard library.
pub(crate) fn told<T: Drop>(answer: Result<T, Fault>, code: Option<i32>) -> io::Result<T>
    ensures fine { IfOk answer (λ value. result ≡ Ok value) }
    ensures failed { IfErr answer (λ fault. IsErrAnd result (Tells fault)) }
{
    match answer {
        Ok(value) => Ok(value),
        Err(fault) => Err(error_with(fault, code)),
    }
}
