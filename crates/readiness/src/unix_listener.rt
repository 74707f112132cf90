//! Listeners at a path that has a mode of their own. It is set between the bind and `listen`: until
//! then the system refuses clients, so that none comes in by the mode that the umask left. `mio` has
//! no word for that, since it listens as it binds.

use crate::raw_socket::checked;
use libc::net as c;
use mio::net::UnixListener;
use std::fs::{Files, Permissions};
use std::net::Net;
use std::os::fd::{AsFd, AsRawFd};
use std::os::unix::fs::PermissionsExt;
use std::os::unix::net;
use std::os::unix::net::SocketAddr;
use std::{fs, io};

/// As many clients as the system lets wait, as `mio` has it.
const BACKLOG: i32 = i32::MAX;

// A socket that is bound there, and doesn't wait.
fn bound_at<R: Files + Net>(rt: &R, path: &str) -> io::Result<net::UnixListener> {
    let addr = SocketAddr::from_pathname(path)?;
    let socket = net::UnixListener::from(rt.unix_socket()?);
    socket.set_nonblocking(true)?;
    rt.bind_unix(socket.as_fd(), &addr)?;
    Ok(socket)
}

// Sets the mode of the path where a socket is bound, and has the socket listen. (The socket itself is
// another's, so that no `?` has one to close.)
fn listen_as<R: Files>(rt: &R, fd: i32, path: &str, mode: u32) -> io::Result<()> {
    fs::set_permissions(rt, path, Permissions::from_mode(mode))?;
    checked(c::listen(fd, BACKLOG))
}

/// A listener at this path, which has this mode before anybody can connect. Where that fails after the
/// bind, the path is removed again, and the error is that of the step that failed.
pub(crate) fn listen_unix<R: Files + Net>(
    rt: &R,
    path: &str,
    mode: u32,
) -> io::Result<UnixListener> {
    let socket = bound_at(rt, path)?;
    match listen_as(rt, socket.as_raw_fd(), path, mode) {
        Ok(()) => Ok(UnixListener::from_std(socket)),
        Err(error) => {
            let _ = fs::remove_file(rt, path);
            Err(error)
        }
    }
}
