//! Calls of the system on a socket for which `mio` has no word.

ghost use Rattle.std.specs.Prelude.{◌≡◌, ◌↔◌, pos, ◌≤ℤ◌, IsOk};
ghost use Rattle.libc.specs.Net.{SockOption};
ghost use Rattle.readiness.specs.RawSocket.{option_bytes};

use libc::net as c;
use os::FromRawFd;
use std::io;
use std::net::SocketAddr;
use std::os::fd::OwnedFd;

/// What a call that gave this status came to.
pub(crate) fn checked(status: i32) -> io::Result<()>
    ensures { IsOk result ↔ (pos 0 ≤ℤ status) }
{
    if status < 0 {
        Err(io::Error::from_raw_os_error(os::errno()))
    } else {
        Ok(())
    }
}

/// A TCP socket of the family of this address, which never waits and is closed on exec.
pub(crate) fn socket_for(addr: SocketAddr) -> io::Result<OwnedFd> {
    let kind = c::SOCK_STREAM | c::SOCK_NONBLOCK | c::SOCK_CLOEXEC;
    let fd = match addr {
        SocketAddr::V4(_) => unsafe { c::socket(c::AF_INET, kind, 0) },
        SocketAddr::V6(_) => unsafe { c::socket(c::AF_INET6, kind, 0) },
    };
    checked(fd)?;
    Ok(unsafe { OwnedFd::from_raw_fd(fd) })
}

// A number as an option's value, of which four bytes count.
fn option_value(number: u32) -> [u8; 16]
    ensures { result ≡ option_bytes number }
{
    let bytes = number.to_ne_bytes();
    let mut value = [0u8; 16];
    value[..4].copy_from_slice(&bytes);
    value
}

/// Sets an option of a socket to this number.
pub(crate) fn set_option(fd: i32, level: i32, name: i32, number: u32) -> io::Result<()>
    requires { SockOption level name }
{
    checked(unsafe { c::setsockopt(fd, level, name, &option_value(number), 4) })
}

/// An option of a socket, as a number.
pub(crate) fn get_option(fd: i32, level: i32, name: i32) -> io::Result<u32>
    requires { SockOption level name }
{
    let mut value = [0u8; 16];
    let mut len = 4;
    checked(unsafe { c::getsockopt(fd, level, name, &mut value, &mut len) })?;
    let [first, second, third, fourth, ..] = value;
    Ok(u32::from_ne_bytes([first, second, third, fourth]))
}
