//! What callers are told of the system's errors.

ghost use Rattle.std.specs.Prelude.{◌≡◌};
ghost use Rattle.std.specs.IoError.{error_kind};
ghost use Rattle.readiness.specs.SystemErrors.{kind_told, refused_or_other, outcome_told};
ghost use Rattle.readiness.specs.SystemErrors.{accept_told, error_told, IsConnectKind};

use crate::sock::Sock;
use rwloops::{AcceptOutcome, DevKind, Outcome};
use std::io;
use std::io::ErrorKind;

/// What is told of an error of a connection.
pub(crate) fn kind_of(error: &io::Error) -> DevKind
    ensures { result ≡ kind_told (error_kind error.now) }
{
    match error.kind() {
        ErrorKind::ConnectionReset => DevKind::Reset,
        ErrorKind::ConnectionAborted => DevKind::Aborted,
        ErrorKind::BrokenPipe => DevKind::BrokenPipe,
        ErrorKind::ConnectionRefused => DevKind::Refused,
        _ => DevKind::Other,
    }
}

/// What is told of an error that comes before there is a connection.
pub(crate) fn connect_kind_of(error: &io::Error) -> DevKind
    ensures kind { IsConnectKind result }
    ensures told { result ≡ refused_or_other (kind_told (error_kind error.now)) }
{
    match kind_of(error) {
        DevKind::Refused => DevKind::Refused,
        _ => DevKind::Other,
    }
}

/// What an error of a try to read or to write says. A socket that isn't connected yet would block.
pub(crate) fn outcome_of_error(error: &io::Error) -> Outcome
    ensures { result ≡ error_told (error_kind error.now) }
{
    match error.kind() {
        ErrorKind::WouldBlock | ErrorKind::NotConnected => Outcome::WouldBlock,
        ErrorKind::Interrupted => Outcome::Interrupted,
        ErrorKind::ConnectionAborted => Outcome::Aborted,
        _ => Outcome::Broken(kind_of(error)),
    }
}

/// What one system call to read or to write gave.
pub(crate) fn outcome_of(done: io::Result<usize>) -> Outcome
    ensures { result ≡ outcome_told done }
{
    match done {
        Ok(count) => Outcome::Count(count),
        Err(error) => outcome_of_error(&error),
    }
}

/// What one system call to accept gave.
pub(crate) fn accepted_of(done: io::Result<Sock>) -> AcceptOutcome<Sock>
    ensures { result ≡ accept_told done }
{
    match done {
        Ok(sock) => AcceptOutcome::Took(sock),
        Err(error) => match error.kind() {
            ErrorKind::WouldBlock | ErrorKind::NotConnected => AcceptOutcome::WouldBlock,
            ErrorKind::Interrupted => AcceptOutcome::Interrupted,
            ErrorKind::ConnectionAborted => AcceptOutcome::Aborted,
            _ => AcceptOutcome::Broken(kind_of(&error)),
        },
    }
}
