//! What stands at a number: a listener, or something else.

ghost use Rattle.std.specs.Prelude.{◌≡◌, pos, ◌≤ℤ◌, IfOk};
ghost use Rattle.std.specs.Option.{option_map};
ghost use Rattle.std.specs.Path.{path_bytes};
ghost use Rattle.readiness.specs.Peers.{bytes_of, path_kept};
ghost use Rattle.readiness.specs.Sockets.{is_tcp_addr, is_tcp_listener};
ghost use Rattle.listen_fds.specs.Addresses.{rule_addr};

use arrayvec::ArrayString;
use libc::net as c;
use os::FromRawFd;
use readiness::{Addr, Listen, MAX_PATH_BYTES};
use std::net;
use std::net::{Net, SocketAddr};
use std::os::unix::net as unix;
use std::path::Path;

/// A socket that this process was started with.
#[derive(Drop)]
pub struct GivenSocket {
    /// The number of its descriptor.
    pub number: u8,
    /// Where it listens, and the listener itself; or why it is none for a rule.
    pub listener: Result<(Addr, Listen), Unfit>,
}

/// Why a socket is none for a rule.
#[derive(Clone, Copy, Debug, PartialEq, Eq, Drop)]
pub enum Unfit {
    /// The number isn't open, or what is there can't listen: a file, a connection, a socket of
    /// datagrams.
    NoListener,
    /// Its address is none of a rule: it has no port, or a name that is no path of at most 100 bytes,
    /// or is of another family.
    NoAddress,
}

/// As many clients as the system lets wait.
const BACKLOG: i32 = i32::MAX;

// The family of the socket with this number; none where it is no socket.
fn family_of(fd: i32) -> Option<i32> {
    let mut addr = [0u8; c::_SS_SIZE];
    let mut len = c::_SS_SIZE as u32;
    if unsafe { c::getsockname(fd, &mut addr, &mut len) } != 0 {
        return None;
    }
    Some(i32::from(u16::from_ne_bytes([addr[0], addr[1]])))
}

// Whether it listens. A listener takes another `listen`, while a connection and a socket of
// datagrams refuse it; the option that tells (`SO_ACCEPTCONN`) is none that the kit asks for.
fn listens(fd: i32) -> bool {
    c::listen(fd, BACKLOG) == 0
}

// What an address of TCP is to a rule. One that isn't bound has no port.
fn addr_of(addr: SocketAddr) -> Option<Addr>
    ensures { result ≡ rule_addr addr }
{
    if addr.port() == 0 {
        None
    } else {
        Some(Addr::of(addr))
    }
}

// The path of a rule, if this is one.
fn path_of(path: Option<Path<'_>>) -> Option<ArrayString<MAX_PATH_BYTES>>
    ensures { option_map bytes_of result ≡ path_kept (option_map path_bytes path.entry) }
{
    match path {
        Some(path) => ArrayString::from(path.as_str()).ok(),
        None => None,
    }
}

// The path at which it listens.
fn own_path(listener: &unix::UnixListener) -> Option<ArrayString<MAX_PATH_BYTES>> {
    let addr = listener.local_addr().ok()?;
    path_of(addr.as_pathname())
}

// The listener of TCP with this number, which is a socket of IPv4 or IPv6. One of IPv6 may take IPv4
// clients too, as systemd has it if it isn't told otherwise: whoever made it decided that.
fn tcp_listener(fd: i32) -> Result<(Addr, Listen), Unfit>
    requires { pos 0 ≤ℤ fd }
    ensures family { IfOk result (λ own. is_tcp_listener own.1 ≡ is_tcp_addr own.0) }
{
    let listener = unsafe { net::TcpListener::from_raw_fd(fd) };
    let Ok(addr) = listener.local_addr() else {
        return Err(Unfit::NoAddress);
    };
    let Some(addr) = addr_of(addr) else {
        return Err(Unfit::NoAddress);
    };
    if !listens(fd) || listener.set_nonblocking(true).is_err() {
        return Err(Unfit::NoListener);
    }
    let listener = mio::net::TcpListener::from_std(listener);
    Ok((addr, Listen::Tcp(listener)))
}

// The Unix listener with this number, which is a Unix socket.
fn unix_listener(fd: i32) -> Result<(Addr, Listen), Unfit>
    requires { pos 0 ≤ℤ fd }
    ensures family { IfOk result (λ own. is_tcp_listener own.1 ≡ is_tcp_addr own.0) }
{
    let listener = unsafe { unix::UnixListener::from_raw_fd(fd) };
    let Some(path) = own_path(&listener) else {
        return Err(Unfit::NoAddress);
    };
    if !listens(fd) || listener.set_nonblocking(true).is_err() {
        return Err(Unfit::NoListener);
    }
    let listener = mio::net::UnixListener::from_std(listener);
    Ok((Addr::Unix(path), Listen::Unix(listener)))
}

/// What stands at this number, which is the caller's to take once. What is no listener is closed,
/// if it is a socket of IPv4, of IPv6 or a Unix one, and else stays.
pub(crate) fn given_socket<R: Net>(_rt: &R, number: u8) -> GivenSocket
    ensures number { result.number ≡ number }
    ensures family { IfOk result.listener (λ own. is_tcp_listener own.1 ≡ is_tcp_addr own.0) }
{
    let fd = i32::from(number);
    let listener = match family_of(fd) {
        Some(c::AF_INET | c::AF_INET6) => tcp_listener(fd),
        Some(c::AF_UNIX) => unix_listener(fd),
        Some(_) => Err(Unfit::NoAddress),
        None => Err(Unfit::NoListener),
    };
    GivenSocket { number, listener }
}
