//! Connections over TCP from an address of this machine's own, which has to be bound ahead of the
//! connect, for which `mio` has no word.

use crate::raw_address::raw_address;
use crate::raw_socket::{checked, socket_for};
use libc::net as c;
use mio::net::TcpStream;
use std::io;
use std::net::{IpAddr, Net, SocketAddr};
use std::os::fd::AsRawFd;

// The system's number for a connection that is being made.
const EINPROGRESS: i32 = 115;

// A connection that was begun, of which the call gave this status: it may be made later.
fn begun(status: i32) -> io::Result<()> {
    match checked(status) {
        Err(error) if error.raw_os_error() == Some(EINPROGRESS) => Ok(()),
        done => done,
    }
}

// Has a socket of this address's family connect there. (The socket itself is another's, so that no `?`
// has one to close.)
fn connect_at(fd: i32, source: IpAddr, at: SocketAddr) -> io::Result<()> {
    // (with port 0 the system picks one)
    let (own, own_len) = raw_address(SocketAddr::new(source, 0));
    checked(unsafe { c::bind(fd, &own, own_len) })?;
    let (raw, len) = raw_address(at);
    begun(unsafe { c::connect(fd, &raw, len) })
}

/// Begins a connection to this address, from that one, which is of its family.
pub(crate) fn connect_tcp_from<R: Net>(
    _rt: &R,
    source: IpAddr,
    at: SocketAddr,
) -> io::Result<TcpStream> {
    let socket = socket_for(at)?;
    connect_at(socket.as_raw_fd(), source, at)?;
    Ok(TcpStream::from(socket))
}
