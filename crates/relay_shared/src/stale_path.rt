//! A Unix path that gives way to a listener.

ghost use Rattle.std.specs.Prelude.{◌≡◌, ◌↔◌, Some, Err, IfSome, IsSome};
ghost use Rattle.relay_shared.specs.BoundPath.{path_in};
ghost use Rattle.relay_shared.specs.StalePath.{RefusesConnect, stale_path};

use crate::address::socket_address;
use arrayvec::ArrayString;
use readiness::{Sock, connect};
use relay_admin::Addr;
use rwloops::DevKind;
use std::fs;
use std::fs::Files;
use std::net::Net;
use std::os::unix::fs::FileTypeExt;

// That a socket is at this path itself, and not behind a link: a plain file refuses a connect too.
// The look at what is there alone makes one.
#[derive(Drop)]
struct SocketPath {
    path: ArrayString<100>,
}

/// A path with a Unix socket at which nobody listens any more, as a relay leaves it that was
/// killed. The look at the path and the refused connect alone make one, and its removal spends it.
#[derive(Drop)]
pub struct StalePath {
    path: ArrayString<100>,
}

impl SocketPath {
    // The path of this address, where a socket is there.
    fn at<R: Files>(rt: &R, addr: &Addr) -> Option<SocketPath>
        ensures own { IfSome result (λ socket. path_in addr.now ≡ Some socket.path) }
    {
        let Addr::Unix(path) = addr else {
            return None;
        };
        match fs::symlink_metadata(rt, path.as_str()) {
            Ok(found) if found.file_type().is_socket() => Some(SocketPath { path: *path }),
            _ => None,
        }
    }

    // The same as a path that gives way: where a connect to it was refused.
    fn after(self, connected: &Result<Sock, DevKind>) -> Option<StalePath>
        ensures refused { IsSome result ↔ RefusesConnect connected.now }
        ensures own { IfSome result (λ stale. stale_path stale ≡ self.path) }
    {
        match connected {
            Err(DevKind::Refused) => Some(StalePath { path: self.path }),
            _ => None,
        }
    }
}

impl StalePath {
    /// The path of this address, where it gives way to a listener. What is no socket stays, and so
    /// does one at which anybody listens, also with a queue that is full.
    pub fn at<R: Files + Net>(rt: &R, addr: &Addr) -> Option<StalePath>
        ensures own { IfSome result (λ stale. path_in addr.now ≡ Some (stale_path stale)) }
    {
        let socket = SocketPath::at(rt, addr)?;
        socket.after(&connect(rt, &socket_address(addr)))
    }

    /// Removes it, and passes over faults.
    ///
    /// Two that find it at the same time may both remove it, and the second then removes what the
    /// first has bound since.
    pub fn remove<R: Files>(self, rt: &R) {
        let _ = fs::remove_file(rt, self.path.as_str());
    }
}
