//! Connections that aren't made: what they are told, with the system's number. And that the time of a
//! connect is none of the connection's.

use super::{millis, own_path, pause};
use libc::net as c;
use mio::net::{TcpListener, UnixListener};
use net::{Addr, Conn, Listener, Net, Runs, tcp};
use std::alloc::Global;
use std::io::{ErrorKind, Write};
use std::net::{Ipv4Addr, Net as Sockets, SocketAddr};
use std::os::fd::AsRawFd;
use std::process::Abort;
use std::thread::Threads;
use std::{fs, io};

/// How a connect or a bind failed.
fn told<T: Drop>(answer: io::Result<T>) -> Option<(ErrorKind, Option<i32>)> {
    match answer {
        Ok(_) => None,
        Err(error) => Some((error.kind(), error.raw_os_error())),
    }
}

#[test]
fn nobody_listens_there(rt: HostRuntime) {
    let net = Net::start(rt, rt.alloc()).expect(&rt, "net");
    let listener = Listener::bind(&net, &tcp(0)).expect(&rt, "bound");
    let addr = listener.local_addr().expect(&rt, "address");
    let taken = told(Listener::bind(&net, &addr));
    holds!(rt; taken == Some((ErrorKind::AddrInUse, Some(98))));
    drop(listener);
    let refused = told(Conn::connect(&net, &addr, millis(1_000)));
    holds!(rt; refused == Some((ErrorKind::ConnectionRefused, Some(111))));
    let nowhere = own_path(&rt, "nowhere").expect(&rt, "a path");
    let missing = told(Conn::connect(&net, &nowhere, millis(1_000)));
    holds!(rt; missing == Some((ErrorKind::NotFound, Some(2))));
    net.stop();
}

/// How the first connect fails, to a listener whose queue takes few.
fn first_refusal<R: Runs + Threads + Sockets + Abort>(
    rt: &R,
    alloc: Global,
    net: &Net<R>,
    addr: &Addr,
) -> Option<ErrorKind> {
    let mut queued = Vec::new(alloc);
    for _ in 0..8u8 {
        match Conn::connect(net, addr, millis(200)) {
            Ok(conn) => queued.push(conn).expect(rt, "memory"),
            Err(error) => return Some(error.kind()),
        }
    }
    None
}

#[test]
fn a_connect_gives_up_at_its_time(rt: HostRuntime) {
    let net = Net::start(rt, rt.alloc()).expect(&rt, "net");
    let any = SocketAddr::from((Ipv4Addr::LOCALHOST, 0));
    let listener = TcpListener::bind(&rt, any).expect(&rt, "bound");
    holds!(rt; c::listen(listener.as_raw_fd(), 0) == 0, "a short queue");
    let addr = tcp(listener.local_addr().expect(&rt, "address").port());
    let refused = first_refusal(&rt, rt.alloc(), &net, &addr);
    holds!(rt; refused == Some(ErrorKind::TimedOut));
    net.stop();
}

#[test]
fn a_full_queue_at_a_path_is_told(rt: HostRuntime) {
    let net = Net::start(rt, rt.alloc()).expect(&rt, "net");
    let addr = own_path(&rt, "queue").expect(&rt, "a path");
    let Addr::Unix(path) = addr else {
        return;
    };
    let listener = UnixListener::bind(&rt, path.as_str()).expect(&rt, "bound");
    holds!(rt; c::listen(listener.as_raw_fd(), 0) == 0, "a short queue");
    let refused = first_refusal(&rt, rt.alloc(), &net, &addr);
    holds!(rt; refused == Some(ErrorKind::WouldBlock));
    net.stop();
    holds!(rt; fs::remove_file(&rt, path.as_str()).is_ok());
}

/// A connection that was made within a few milliseconds, by one of many tries.
fn made_soon<R>(rt: &R, net: &Net<R>, addr: &Addr) -> Option<Conn<R>>
where
    R: Runs + Threads + Sockets,
{
    for _ in 0..100u8 {
        if let Ok(conn) = Conn::connect(net, addr, millis(20)) {
            return Some(conn);
        }
        pause(rt, 1);
    }
    None
}

#[test]
fn the_time_of_a_connect_is_none_of_the_connection(rt: HostRuntime) {
    let net = Net::start(rt, rt.alloc()).expect(&rt, "net");
    let listener = Listener::bind(&net, &tcp(0)).expect(&rt, "bound");
    let addr = listener.local_addr().expect(&rt, "address");
    let soon = made_soon(&rt, &net, &addr).expect(&rt, "made in time");
    let ever = Conn::connect(&net, &addr, None).expect(&rt, "made without a time");
    pause(&rt, 40);
    for mut conn in [soon, ever] {
        holds!(rt; conn.write_all(b"hello").is_ok(), "it has no time of its own");
    }
    net.stop();
}
