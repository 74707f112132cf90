//! Connections that fail or are still being made, by their halves, and how sockets are set up.

use super::{TURNS, accept_soon, client_of, holds, listening, pause, socks};
use fd_descriptor::{DevKind, HalfClose, Outcome, TryRead, TryWrite};
use libc::net as c;
use readiness::{Addr, Listen, ReadHalf, Sock, WriteHalf, connect};
use std::alloc::Global;
use std::fs;
use std::fs::Files;
use std::net::Net;
use std::os::fd::AsRawFd;
use std::process::Abort;
use std::time::Clock;

const REFUSED: Outcome = Outcome::Broken(DevKind::Refused);

/// What the first read comes to that doesn't block.
fn reads_soon<R: Clock>(rt: &R, half: &mut ReadHalf) -> Outcome {
    for _ in 0..TURNS {
        match half.try_read(&mut [0; 8]) {
            Outcome::WouldBlock => pause(rt, 1),
            outcome => return outcome,
        }
    }
    Outcome::WouldBlock
}

/// Whether the connection isn't being made any more, before long.
fn is_made_soon<R: Clock>(rt: &R, half: &mut WriteHalf) -> bool {
    for _ in 0..TURNS {
        if !half.is_connecting() {
            return true;
        }
        pause(rt, 1);
    }
    false
}

/// The halves of a connection that nobody takes.
fn refused<R: Net + Files + Abort>(rt: &R, alloc: Global) -> (ReadHalf, WriteHalf) {
    let listener = listening(rt);
    let port = listener.port().expect(rt, "port");
    drop(listener);
    let sock = connect(rt, &Addr::Tcp(super::LOOPBACK, port)).expect(rt, "begun");
    sock.split(alloc).expect(rt, "halves")
}

#[test]
fn a_refused_connect_is_told_by_the_first_call_once(rt: HostRuntime) {
    let (mut read, mut write) = refused(&rt, rt.alloc());
    holds(&rt, reads_soon(&rt, &mut read) == REFUSED, "a read is told");
    holds(&rt, read.try_read(&mut [0; 8]) == Outcome::Count(0), "once");
    holds(&rt, !write.is_connecting(), "and it isn't being made");
    let (_read, mut write) = refused(&rt, rt.alloc());
    holds(
        &rt,
        is_made_soon(&rt, &mut write),
        "it isn't being made for long",
    );
    holds(
        &rt,
        write.connected() == Err(DevKind::Refused),
        "who waits for it is told",
    );
    holds(
        &rt,
        write.shut() == Err(DevKind::Refused),
        "and who shuts it",
    );
}

/// A listener whose queue takes two, and two who wait there.
fn full_queue<R: Net + Files + Abort>(rt: &R) -> (Listen, Sock, Sock) {
    let listener = listening(rt);
    if let Listen::Tcp(tcp) = &listener {
        holds(rt, c::listen(tcp.as_raw_fd(), 1) == 0, "a short queue");
    }
    let (first, second) = (client_of(rt, &listener), client_of(rt, &listener));
    (listener, first, second)
}

// The queue of the listener is full, so that the third client stays in SYN-SENT until somebody is
// accepted.
#[test]
fn a_connection_is_being_made_until_it_is_taken(rt: HostRuntime) {
    let (mut listener, _first, _second) = full_queue(&rt);
    let (_read, mut write) = client_of(&rt, &listener)
        .split(rt.alloc())
        .expect(&rt, "halves");
    holds(&rt, write.is_connecting(), "it is being made");
    holds(
        &rt,
        write.try_write(b"x") == Outcome::WouldBlock,
        "and takes no byte",
    );
    drop((
        accept_soon(&rt, &mut listener),
        accept_soon(&rt, &mut listener),
    ));
    let served = accept_soon(&rt, &mut listener);
    holds(&rt, is_made_soon(&rt, &mut write), "it is made");
    holds(&rt, write.shut().is_ok(), "it is shut");
    let (mut read, mut back) = served.split(rt.alloc()).expect(&rt, "halves");
    holds(
        &rt,
        reads_soon(&rt, &mut read) == Outcome::Count(0),
        "the shut comes",
    );
    holds(
        &rt,
        back.try_write(b"bye") == Outcome::Count(3),
        "the other way is open",
    );
}

/// Whether a socket sends small writes at once, is closed on exec, and never blocks.
fn is_set_up(rt: &HostRuntime, sock: &Sock) -> Option<bool> {
    let Sock::Tcp(stream) = sock else {
        return None;
    };
    let is_prompt = stream.nodelay().is_ok_and(|on| on);
    let path = format!(in rt.alloc(); "/proc/self/fdinfo/{}", stream.as_raw_fd()).ok()?;
    let told = fs::read_to_string(rt, path.as_str()).ok()?;
    Some(is_prompt && told.contains("flags:\t02004002\n"))
}

#[test]
fn sockets_are_closed_on_exec_and_never_block(rt: HostRuntime) {
    let (near, far) = socks(&rt);
    holds(&rt, is_set_up(&rt, &near) == Some(true), "who connects");
    holds(&rt, is_set_up(&rt, &far) == Some(true), "who is accepted");
}
