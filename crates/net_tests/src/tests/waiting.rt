//! What ends a call that waits in another thread.

use super::{kind_of, millis, pair, pause};
use net::{Conn, Listener, Net, Runs, tcp};
use std::fs::Files;
use std::io::{ErrorKind, Read, Write};
use std::net::Net as Sockets;
use std::process::Abort;
use std::thread;
use std::thread::{JoinHandle, Threads};

/// A call that waits.
#[derive(Clone, Copy)]
enum Waits {
    Reads,
    Writes,
    /// A read that queues behind another.
    ReadsNext,
}

/// What is done in another thread meanwhile.
#[derive(Clone, Copy)]
enum Ends {
    Close,
    Deadline,
    ReadTimeout,
    Stop,
}

const ROWS: &[(&str, Waits, Ends, ErrorKind)] = &[
    (
        "a close ends a read",
        Waits::Reads,
        Ends::Close,
        ErrorKind::NotConnected,
    ),
    (
        "a close ends a write",
        Waits::Writes,
        Ends::Close,
        ErrorKind::NotConnected,
    ),
    (
        "a close ends who queues",
        Waits::ReadsNext,
        Ends::Close,
        ErrorKind::NotConnected,
    ),
    (
        "a deadline ends a read",
        Waits::Reads,
        Ends::Deadline,
        ErrorKind::TimedOut,
    ),
    (
        "a deadline ends a write",
        Waits::Writes,
        Ends::Deadline,
        ErrorKind::TimedOut,
    ),
    (
        "a deadline ends who queues",
        Waits::ReadsNext,
        Ends::Deadline,
        ErrorKind::TimedOut,
    ),
    (
        "a time ends a read that waits",
        Waits::Reads,
        Ends::ReadTimeout,
        ErrorKind::TimedOut,
    ),
    (
        "a stop ends a read",
        Waits::Reads,
        Ends::Stop,
        ErrorKind::NotConnected,
    ),
    (
        "a stop ends a write",
        Waits::Writes,
        Ends::Stop,
        ErrorKind::NotConnected,
    ),
];

const LUMP: &[u8] = &[7; 65_536];

const MOST_LUMPS: u32 = 10_000;

fn writes_on<R: Runs>(conn: Conn<R>) -> Option<ErrorKind> {
    let mut conn = conn;
    for _ in 0..MOST_LUMPS {
        if let Err(error) = conn.write_all(LUMP) {
            return Some(error.kind());
        }
    }
    None
}

fn reads_once<R: Runs>(conn: Conn<R>) -> Option<ErrorKind> {
    let mut conn = conn;
    kind_of(conn.read(&mut [0; 8]))
}

fn comes_to<R: Runs>(conn: Conn<R>, how: Waits) -> Option<ErrorKind> {
    match how {
        Waits::Reads | Waits::ReadsNext => reads_once(conn),
        Waits::Writes => writes_on(conn),
    }
}

fn start<R>(rt: R, conn: &mut Conn<R>, how: Waits) -> JoinHandle<Option<ErrorKind>>
where
    R: Runs + Threads + Abort + Send + Sync + 'static,
{
    let other = conn.try_clone().expect(&rt, "cloned");
    thread::spawn(&rt, move || comes_to(other, how)).expect(&rt, "thread")
}

fn end_by<R: Runs + Threads>(
    net: &mut Option<Net<R>>,
    conn: &mut Conn<R>,
    how: Ends,
) -> Option<ErrorKind> {
    match how {
        Ends::Close => kind_of(conn.close()),
        Ends::Deadline => kind_of(conn.set_deadline(millis(20))),
        Ends::ReadTimeout => kind_of(conn.set_read_timeout(millis(20))),
        Ends::Stop => {
            *net = None;
            None
        }
    }
}

fn is_ended<R>(rt: R, net: Net<R>, how: Waits, by: Ends) -> Option<ErrorKind>
where
    R: Runs + Threads + Sockets + Files + Abort + Send + Sync + 'static,
{
    let (mut near, _far) = pair(&rt, &net, &tcp(0));
    let mut net = Some(net);
    let before = match how {
        Waits::ReadsNext => Some(start(rt, &mut near, Waits::Reads)),
        _ => None,
    };
    pause(&rt, 20);
    let waiting = start(rt, &mut near, how);
    pause(&rt, 20);
    holds!(rt; end_by(&mut net, &mut near, by).is_none(), "done");
    if let Some(first) = before {
        first.join(&rt);
    }
    waiting.join(&rt)
}

#[test]
fn a_call_that_waits_is_ended(rt: HostRuntime) {
    for (name, how, by, kind) in ROWS {
        let net = Net::start(rt, rt.alloc()).expect(&rt, "net");
        holds!(rt; is_ended(rt, net, *how, *by) == Some(*kind), name);
    }
}

#[test]
fn an_accept_that_waits_is_ended(rt: HostRuntime) {
    for stops in [false, true] {
        let net = Net::start(rt, rt.alloc()).expect(&rt, "net");
        let mut listener = Listener::bind(&net, &tcp(0)).expect(&rt, "bound");
        let mut other = listener.try_clone().expect(&rt, "cloned");
        let accepting = thread::spawn(&rt, move || kind_of(other.accept())).expect(&rt, "thread");
        pause(&rt, 20);
        if stops {
            net.stop();
        } else {
            holds!(rt; listener.close().is_ok());
        }
        holds!(rt; accepting.join(&rt) == Some(ErrorKind::NotConnected));
    }
}
