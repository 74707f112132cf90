//! What a connection asks the system for, as it then tells it: of TCP, over a Unix socket, after a
//! close, and while another clone waits.

use super::{kind_of, millis, own_path, pair, pause};
use net::{Addr, Conn, Net, Runs, tcp};
use std::fs::Files;
use std::io::{ErrorKind, Read, Write};
use std::net::Net as Sockets;
use std::process::Abort;
use std::thread::Threads;
use std::time::Duration;
use std::{io, thread};

/// What is asked for.
#[derive(Clone, Copy)]
enum Ask {
    Nothing,
    AtOnce(bool),
    /// Milliseconds; 0 is none.
    KeepAlive(u64),
}

/// Asked for in turn of one connection of TCP: how that fails, whether small writes are sent at once
/// then, and after how many seconds a silent peer is asked, with 0 for never.
const ROWS: &[(&str, Ask, Option<ErrorKind>, bool, u64)] = &[
    ("the start", Ask::Nothing, None, true, 0),
    ("held back", Ask::AtOnce(false), None, false, 0),
    ("no part of a second", Ask::KeepAlive(1), None, false, 1),
    ("a part more", Ask::KeepAlive(1_001), None, false, 2),
    ("whole seconds", Ask::KeepAlive(7_000), None, false, 7),
    ("sent at once", Ask::AtOnce(true), None, true, 7),
    ("nobody is asked", Ask::KeepAlive(0), None, true, 0),
    (
        "the longest",
        Ask::KeepAlive(32_767_000),
        None,
        true,
        32_767,
    ),
    (
        "too long",
        Ask::KeepAlive(32_767_001),
        Some(ErrorKind::InvalidInput),
        true,
        32_767,
    ),
    ("and none again", Ask::KeepAlive(0), None, true, 0),
];

fn asks<R: Runs>(conn: &mut Conn<R>, ask: Ask) -> io::Result<()> {
    match ask {
        Ask::Nothing => Ok(()),
        Ask::AtOnce(at_once) => conn.set_nodelay(at_once),
        Ask::KeepAlive(ms) => conn.set_keepalive(millis(ms)),
    }
}

/// Whether a connection tells this.
fn tells<R: Runs>(conn: &mut Conn<R>, at_once: bool, seconds: u64) -> io::Result<bool> {
    let every = conn.keepalive()?;
    Ok(conn.nodelay()? == at_once && every == millis(seconds.saturating_mul(1_000)))
}

#[test]
fn a_connection_has_what_it_asked_for_and_its_clone_tells_it(rt: HostRuntime) {
    let net = Net::start(rt, rt.alloc()).expect(&rt, "net");
    let (mut near, _far) = pair(&rt, &net, &tcp(0));
    let mut other = near.try_clone().expect(&rt, "cloned");
    for (name, ask, fails, at_once, seconds) in ROWS {
        holds!(rt; kind_of(asks(&mut near, *ask)) == *fails, name);
        holds!(rt; tells(&mut other, *at_once, *seconds).ok() == Some(true), name);
    }
    net.stop();
}

#[test]
fn over_a_path_nothing_is_asked_for_and_nothing_fails(rt: HostRuntime) {
    let net = Net::start(rt, rt.alloc()).expect(&rt, "net");
    let path = own_path(&rt, "options").expect(&rt, "a path");
    let (mut near, _far) = pair(&rt, &net, &path);
    for (name, ask, _, _, _) in ROWS {
        holds!(rt; asks(&mut near, *ask).is_ok(), name);
        holds!(rt; tells(&mut near, true, 0).ok() == Some(true), name);
    }
    net.stop();
}

/// Whether each call is told that the connection is closed.
fn asks_closed<R: Runs + Abort>(rt: &R, conn: &mut Conn<R>) {
    let gone = Some(ErrorKind::NotConnected);
    holds!(*rt; kind_of(conn.set_nodelay(true)) == gone, "set_nodelay");
    holds!(*rt; kind_of(conn.nodelay()) == gone, "nodelay");
    holds!(*rt; kind_of(conn.set_keepalive(millis(1_000))) == gone, "set_keepalive");
    holds!(*rt; kind_of(conn.keepalive()) == gone, "keepalive");
}

/// The same of both clones of a connection that one of them closed.
fn both_closed<R>(rt: &R, net: &Net<R>, addr: &Addr)
where
    R: Runs + Threads + Sockets + Files + Abort,
{
    let (mut near, _far) = pair(rt, net, addr);
    let mut other = near.try_clone().expect(rt, "cloned");
    holds!(*rt; near.close().is_ok(), "closed");
    asks_closed(rt, &mut near);
    asks_closed(rt, &mut other);
}

#[test]
fn after_a_close_nothing_is_asked_for(rt: HostRuntime) {
    let net = Net::start(rt, rt.alloc()).expect(&rt, "net");
    both_closed(&rt, &net, &tcp(0));
    both_closed(&rt, &net, &own_path(&rt, "asked").expect(&rt, "a path"));
    net.stop();
}

#[test]
fn asking_waits_for_no_read(rt: HostRuntime) {
    let net = Net::start(rt, rt.alloc()).expect(&rt, "net");
    let (mut near, mut far) = pair(&rt, &net, &tcp(0));
    let mut other = near.try_clone().expect(&rt, "cloned");
    let reading = thread::spawn(&rt, move || other.read(&mut [0; 8]).ok()).expect(&rt, "thread");
    pause(&rt, 20);
    for (name, ask, fails, at_once, seconds) in ROWS {
        holds!(rt; kind_of(asks(&mut near, *ask)) == *fails, name);
        holds!(rt; tells(&mut near, *at_once, *seconds).ok() == Some(true), name);
    }
    holds!(rt; near.set_keepalive(Some(Duration::from_secs(1))).is_ok());
    holds!(rt; far.write_all(b"late").is_ok());
    holds!(rt; reading.join(&rt) == Some(4), "the read has waited on");
    net.stop();
}
