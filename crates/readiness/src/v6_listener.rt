//! Listeners of IPv6 that take no IPv4 clients (`IPV6_V6ONLY`), so that `::` and `0.0.0.0` are two
//! addresses, whatever the system's default is. The option has to be set ahead of the bind, for
//! which `mio` has no word.

use crate::raw_address::raw_address;
use crate::raw_socket::{checked, set_option, socket_for};
use libc::net as c;
use mio::net::TcpListener;
use std::io;
use std::net::{Net, SocketAddr, SocketAddrV6};
use std::os::fd::AsRawFd;

/// As many clients as the system lets wait, as `mio` has it.
const BACKLOG: i32 = i32::MAX;

// Has a socket listen there. (The socket itself is another's, so that no `?` has one to close.)
fn listen_at(fd: i32, addr: SocketAddrV6) -> io::Result<()> {
    set_option(fd, c::SOL_SOCKET, c::SO_REUSEADDR, 1)?;
    set_option(fd, c::IPPROTO_IPV6, c::IPV6_V6ONLY, 1)?;
    let (raw, len) = raw_address(SocketAddr::V6(addr));
    checked(unsafe { c::bind(fd, &raw, len) })?;
    checked(c::listen(fd, BACKLOG))
}

/// A listener at this address, for clients of IPv6 alone.
pub(crate) fn listen_v6<R: Net>(_rt: &R, addr: SocketAddrV6) -> io::Result<TcpListener> {
    let socket = socket_for(SocketAddr::V6(addr))?;
    listen_at(socket.as_raw_fd(), addr)?;
    Ok(TcpListener::from(socket))
}
