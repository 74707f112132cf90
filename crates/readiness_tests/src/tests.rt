//! What the tests have in common: what ends one that doesn't hold, how it waits, and connections.
//! No test waits for good: each wait for a thread or for the system ends after `TURNS` turns.

mod controls;
mod counting;
mod loop_rows;
mod loop_stage;
mod memory;
mod others;
mod polling;
mod sockets;
mod telling;

use fd_descriptor::{AcceptOutcome, TryAccept};
use readiness::{Addr, Listen, Sock, connect, listen};
use std::fs::Files;
use std::net::Net;
use std::process::Abort;
use std::sync::atomic::{AtomicU64, Ordering};
use std::thread;
use std::time::{Clock, Duration, Instant};

/// The most turns of one millisecond that a test waits.
const TURNS: u32 = 10_000;

/// 30 milliseconds, so long that a turn which doesn't sleep is over by then.
const AHEAD: u64 = 30_000_000;

/// A moment of a clock that doesn't begin with the test.
const LATER: u64 = 5_000_000_000;

/// Less than a turn sleeps that has no moment, in nanoseconds.
const LONGEST: u64 = 900_000_000;

/// How often a row is played until none of its turns takes too long. A busy machine makes one long
/// now and then; one that sleeps where it may not is long each time.
const TRIES: u32 = 8;

const LOOPBACK: [u8; 4] = [127, 0, 0, 1];

fn holds<R: Abort>(rt: &R, is: bool, what: &str) {
    assert!(rt; is, "{what}");
}

fn pause<R: Clock>(rt: &R, ms: u64) {
    thread::sleep(rt, Duration::from_millis(ms));
}

/// Waits until the count is at least so much, and says whether it came to that.
fn comes_to<R: Clock>(rt: &R, count: &AtomicU64, least: u64) -> bool {
    for _ in 0..TURNS {
        if count.load(Ordering::SeqCst) >= least {
            return true;
        }
        pause(rt, 1);
    }
    false
}

/// The nanoseconds since a moment, or the most there are where the clock fails.
fn nanos_since<R: Clock>(rt: &R, start: Instant) -> u64 {
    match start.elapsed(rt) {
        Ok(passed) => u64::try_from(passed.as_nanos()).unwrap_or(u64::MAX),
        Err(_) => u64::MAX,
    }
}

/// A listener at a port of loopback that was free.
fn listening<R: Net + Files + Abort>(rt: &R) -> Listen {
    listen(rt, &Addr::Tcp(LOOPBACK, 0)).expect(rt, "listen")
}

/// A client of a listener at a port of loopback.
fn client_of<R: Net + Abort>(rt: &R, listener: &Listen) -> Sock {
    let port = listener.port().expect(rt, "port");
    connect(rt, &Addr::Tcp(LOOPBACK, port)).expect(rt, "connect")
}

/// Accepts once there is a connection.
fn accept_soon<R: Clock + Abort>(rt: &R, listener: &mut Listen) -> Sock {
    let mut taken = None;
    for _ in 0..TURNS {
        if let AcceptOutcome::Took(sock) = listener.try_accept() {
            taken = Some(sock);
            break;
        }
        pause(rt, 1);
    }
    taken.expect(rt, "nobody came")
}

/// Both ends of a connection.
fn socks<R: Net + Files + Clock + Abort>(rt: &R) -> (Sock, Sock) {
    let mut listener = listening(rt);
    let near = client_of(rt, &listener);
    (near, accept_soon(rt, &mut listener))
}
