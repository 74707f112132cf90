//! A connection to a target that was begun, and why one couldn't be.

ghost use Rattle.std.specs.Prelude.{◌≡◌, IfOk};
ghost use Rattle.std.specs.IoError.{error_kind};
ghost use Rattle.readiness.specs.Sockets.{is_tcp};
ghost use Rattle.relay_conn.specs.Dialled.{HasNoDescriptors, cause_of_kind, dialled_to};
ghost use Rattle.relay_conn.specs.Dialled.{socket_dialled};
ghost use Rattle.relay_log.specs.declared.ended.Cause.{Cause};

use readiness::Sock;
use relay_admin::Addr;
use relay_facts::clock::monotonic_ns;
use relay_log::ended::Cause;
use relay_shared::shortage::is_shortage;
use relay_shared::socket_options::{Sockets, connect_out, set_options};
use std::io;
use std::io::ErrorKind;
use std::net::Net;
use std::time::Clock;

/// A socket whose connection to a target was begun. `dial` alone makes it.
#[derive(Drop)]
pub struct Dialled {
    target: Addr,
    sock: Sock,
    /// When that was, by `monotonic_ns`.
    pub(crate) began: Option<u64>,
}

impl Dialled {
    /// The socket.
    pub(crate) fn into_sock(self) -> Sock
        ensures { result ≡ socket_dialled self }
    {
        let Dialled {
            target: _,
            sock,
            began: _,
        } = self;
        sock
    }
}

/// Why a connection to a target couldn't be begun.
#[derive(Clone, Copy, Debug, PartialEq, Eq, Drop)]
pub struct NotDialled {
    pub cause: Cause,
    /// It was for want of what the relay's own system gives, and by no fault of the target.
    pub is_shortage: bool,
}

/// Begins a connection to this target, whose socket is set up so. Over TCP it is made later, over a
/// Unix socket at once.
pub fn dial<R: Net + Clock>(rt: &R, target: &Addr, sockets: &Sockets) -> Result<Dialled, NotDialled>
    ensures target { IfOk result (λ dialled. dialled_to dialled ≡ target.now) }
{
    let began = monotonic_ns(rt);
    match connect_out(rt, target, sockets.source) {
        Ok(sock) => {
            set_options(&sock, sockets);
            Ok(Dialled {
                target: *target,
                sock,
                began,
            })
        }
        Err(error) => Err(NotDialled {
            cause: cause_of_connect(&error),
            is_shortage: is_shortage(&error),
        }),
    }
}

// The system's numbers for want of descriptors: of the process, and of the system.
const EMFILE: i32 = 24;

const ENFILE: i32 = 23;

/// Why a connect that failed at once did.
pub fn cause_of_connect(error: &io::Error) -> Cause
    ensures descriptors { HasNoDescriptors error.now → result ≡ Cause.Descriptors }
    ensures others { (HasNoDescriptors error.now → ⊥)
        → result ≡ cause_of_kind (error_kind error.now) }
{
    if let Some(code) = error.raw_os_error() {
        if code == EMFILE || code == ENFILE {
            return Cause::Descriptors;
        }
    }
    match error.kind() {
        ErrorKind::ConnectionRefused => Cause::Refused,
        ErrorKind::TimedOut => Cause::Timeout,
        _ => Cause::Unreachable,
    }
}
