//! Both ends in one process. What can't be set up ends the test's process there, so that a test is
//! one straight line.

/// Ends the test's process where this doesn't hold, and says what should. A call costs the proof
/// of a test less than a branch does. `readiness_tests` and others have one too: no crate uses
/// another's tests.
macro_rules! holds {
    ($rt:expr; $is:expr) => {
        $crate::tests::holds(&$rt, $is, stringify!($is))
    };
    ($rt:expr; $is:expr, $what:expr) => {
        $crate::tests::holds(&$rt, $is, $what)
    };
}

mod accept_times;
mod addresses;
mod closers;
mod conn_options;
mod connecting;
mod dialing;
mod ending;
mod ends;
mod gentle;
mod groups;
mod line_reading;
mod line_tasks;
mod listening;
mod memory;
mod outgoing;
mod scenes;
mod serving;
mod tasks;
mod times;
mod waiting;
mod waking;

use net::{Addr, Conn, Listener, Net, Runs, tcp};
use std::fs::Files;
use std::io::ErrorKind;
use std::net::Net as Sockets;
use std::process::Abort;
use std::thread::Threads;
use std::time::{Clock, Duration};
use std::{env, fs, io, process, thread};

fn holds<R: Abort>(rt: &R, is: bool, what: &str) {
    assert!(rt; is, "{what}");
}

fn pause<R: Clock>(rt: &R, ms: u64) {
    thread::sleep(rt, Duration::from_millis(ms));
}

/// So many milliseconds, and none for 0.
fn millis(ms: u64) -> Option<Duration> {
    if ms == 0 {
        None
    } else {
        Some(Duration::from_millis(ms))
    }
}

fn kind_of<T: Drop>(answer: io::Result<T>) -> Option<ErrorKind> {
    match answer {
        Ok(_) => None,
        Err(error) => Some(error.kind()),
    }
}

/// A path in the test's own folder, with this name in it.
fn own_path(rt: &HostRuntime, name: &str) -> Option<Addr> {
    let id = process::id(rt.process());
    let file = format!(in rt.alloc(); "hobrintza-{id}-{name}").ok()?;
    let path = env::temp_dir(rt).ok()?.join(rt.alloc(), file.as_str());
    Some(Addr::Unix(path.ok()?.as_str().parse().ok()?))
}

/// Both ends of a connection at this net: the one that connects, and the one that is accepted.
fn pair<R: Runs + Threads + Sockets + Files + Abort>(
    rt: &R,
    net: &Net<R>,
    addr: &Addr,
) -> (Conn<R>, Conn<R>) {
    let mut listener = Listener::bind(net, addr).expect(rt, "bound");
    let addr = listener.local_addr().expect(rt, "address");
    let near = Conn::connect(net, &addr, millis(1_000)).expect(rt, "connected");
    let far = listener.accept().expect(rt, "accepted");
    (near, far)
}

/// The number of files that this process has open, and one for the look.
fn open_files(rt: &HostRuntime) -> Option<usize> {
    Some(fs::read_dir(rt, "/proc/self/fd").ok()?.count())
}
