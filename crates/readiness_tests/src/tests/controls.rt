//! What a descriptor asks the system for of its connection's socket, as the system then has it.

ghost use Rattle.libc.specs.Net.{SockOption};

use super::{accept_soon, holds, socks};
use arrayvec::ArrayString;
use fd_descriptor::{Fault, FdHandle};
use libc::net as c;
use readiness::{Addr, Sock, SockControl, SockRes, TcpOptions, connect, listen};
use std::alloc::Global;
use std::fmt::Write;
use std::fs::Files;
use std::net::Net;
use std::os::fd::AsRawFd;
use std::process::Abort;
use std::sync::Wait;
use std::time::Clock;
use std::{env, fs, io, process};

type Handle = FdHandle<SockRes>;

/// What is asked for.
#[derive(Clone, Copy)]
enum Ask {
    AtOnce(bool),
    KeepAlive(Option<u32>),
    Options(TcpOptions),
}

/// What a socket has, and whether a peer is asked at all.
#[derive(Clone, Copy, PartialEq)]
struct Has {
    at_once: u32,
    asks: u32,
    idle_s: u32,
    interval_s: u32,
    user_timeout_ms: u32,
}

/// A name, what is asked for, whether the system takes it, and what the socket has then.
struct Row(&'static str, Ask, bool, Has);

const FIRST: Has = Has {
    at_once: 1,
    asks: 1,
    idle_s: 30,
    interval_s: 30,
    user_timeout_ms: 0,
};

const BOTH: Has = Has {
    idle_s: 45,
    interval_s: 45,
    user_timeout_ms: 5_000,
    ..FIRST
};

const OPTIONS: TcpOptions = TcpOptions {
    keepalive_s: Some(45),
    user_timeout_ms: Some(5_000),
};

const NO_OPTIONS: TcpOptions = TcpOptions {
    keepalive_s: None,
    user_timeout_ms: None,
};

/// Asked for in turn of one socket.
const ROWS: [Row; 9] = [
    Row("a peer is asked", Ask::KeepAlive(Some(30)), true, FIRST),
    Row(
        "held back",
        Ask::AtOnce(false),
        true,
        Has {
            at_once: 0,
            ..FIRST
        },
    ),
    Row("sent at once", Ask::AtOnce(true), true, FIRST),
    Row("both options", Ask::Options(OPTIONS), true, BOTH),
    Row("no option", Ask::Options(NO_OPTIONS), true, BOTH),
    Row(
        "nobody is asked",
        Ask::KeepAlive(None),
        true,
        Has { asks: 0, ..BOTH },
    ),
    Row("too short", Ask::KeepAlive(Some(0)), false, BOTH),
    Row("too long", Ask::KeepAlive(Some(32_768)), false, BOTH),
    Row(
        "the longest",
        Ask::KeepAlive(Some(32_767)),
        true,
        Has {
            idle_s: 32_767,
            interval_s: 32_767,
            ..BOTH
        },
    ),
];

/// An option of the socket with this number.
fn option_of(fd: i32, level: i32, name: i32) -> Option<u32>
    requires { SockOption level name }
{
    let mut value = [0u8; 16];
    let mut len = 4;
    if unsafe { c::getsockopt(fd, level, name, &mut value, &mut len) } != 0 {
        return None;
    }
    let [first, second, third, fourth, ..] = value;
    Some(u32::from_ne_bytes([first, second, third, fourth]))
}

/// What the TCP socket with this number has.
fn seen(fd: i32) -> Option<Has> {
    Some(Has {
        at_once: option_of(fd, c::IPPROTO_TCP, c::TCP_NODELAY)?,
        asks: option_of(fd, c::SOL_SOCKET, c::SO_KEEPALIVE)?,
        idle_s: option_of(fd, c::IPPROTO_TCP, c::TCP_KEEPIDLE)?,
        interval_s: option_of(fd, c::IPPROTO_TCP, c::TCP_KEEPINTVL)?,
        user_timeout_ms: option_of(fd, c::IPPROTO_TCP, c::TCP_USER_TIMEOUT)?,
    })
}

fn ask_for(control: &SockControl, ask: Ask) -> io::Result<()> {
    match ask {
        Ask::AtOnce(at_once) => control.set_nodelay(at_once),
        Ask::KeepAlive(seconds) => control.set_keepalive(seconds),
        Ask::Options(options) => control.set_options(&options),
    }
}

/// Whether the system took what was asked for, or why nobody was asked.
fn takes<R: Wait>(rt: &R, handle: &mut Handle, ask: Ask) -> Result<bool, Fault> {
    handle.control(rt, |control| ask_for(control, ask).is_ok())
}

/// What the descriptor tells of small writes and of silent peers.
fn tells<R: Wait>(rt: &R, handle: &mut Handle) -> Option<(bool, Option<u32>)> {
    let told = handle.control(rt, |control| (control.nodelay(), control.keepalive()));
    match told {
        Ok((Ok(at_once), Ok(seconds))) => Some((at_once, seconds)),
        _ => None,
    }
}

/// What it has to tell of a socket that has this.
fn told_of(has: Has) -> Option<(bool, Option<u32>)> {
    let seconds = if has.asks == 0 {
        None
    } else {
        Some(has.idle_s)
    };
    Some((has.at_once != 0, seconds))
}

fn opened<R: Abort>(rt: &R, alloc: Global, sock: Sock) -> Handle {
    let (read, write) = sock.split(alloc).expect(rt, "halves");
    FdHandle::open(alloc, read, write, 1).expect(rt, "a descriptor")
}

/// Whether nothing is answered any more, by a handle that saw no close.
fn ends<R: Wait + Abort>(rt: &R, handle: Handle) -> bool {
    let mut handle = handle;
    let mut other = handle.share().expect(rt, "a share");
    handle.close(rt).is_ok() && takes(rt, &mut other, Ask::AtOnce(true)) == Err(Fault::Closed)
}

#[test]
fn a_descriptor_sets_the_options_of_its_tcp_socket(rt: HostRuntime) {
    let (near, _far) = socks(&rt);
    let number = match &near {
        Sock::Tcp(stream) => stream.as_raw_fd(),
        Sock::Unix(_) => -1,
    };
    let mut handle = opened(&rt, rt.alloc(), near);
    for Row(name, ask, is_taken, has) in &ROWS {
        holds(&rt, takes(&rt, &mut handle, *ask) == Ok(*is_taken), name);
        holds(&rt, seen(number) == Some(*has), name);
        holds(&rt, tells(&rt, &mut handle) == told_of(*has), name);
    }
    holds(&rt, ends(&rt, handle), "it is closed");
}

/// A path in the test's own folder.
fn own_path(rt: &HostRuntime) -> Option<ArrayString<100>> {
    let (folder, id) = (env::temp_dir(rt).ok()?, process::id(rt.process()));
    let mut path = ArrayString::new();
    write!(path, "{}/hobrintza-control-{id}", folder.as_str()).ok()?;
    Some(path)
}

/// Both ends of a connection over a Unix socket at this path, which goes again.
fn unix_socks<R: Net + Files + Clock + Abort>(rt: &R, path: ArrayString<100>) -> (Sock, Sock) {
    let addr = Addr::Unix(path);
    let mut listener = listen(rt, &addr).expect(rt, "listen");
    let near = connect(rt, &addr).expect(rt, "connect");
    holds(rt, fs::remove_file(rt, path.as_str()).is_ok(), "removed");
    (near, accept_soon(rt, &mut listener))
}

#[test]
fn a_descriptor_asks_for_nothing_of_its_unix_socket(rt: HostRuntime) {
    let path = own_path(&rt).expect(&rt, "a path");
    let (near, _far) = unix_socks(&rt, path);
    let mut handle = opened(&rt, rt.alloc(), near);
    for Row(name, ask, _, _) in &ROWS {
        holds(&rt, takes(&rt, &mut handle, *ask) == Ok(true), name);
        holds(&rt, tells(&rt, &mut handle) == Some((true, None)), name);
    }
    holds(&rt, ends(&rt, handle), "it is closed");
}
