//! Two readers of one connection with a time: the second's counts from when it has the connection
//! to itself, and doesn't move the first's. And a time that was lifted, which ends no read.

use super::{kind_of, millis, pair, pause};
use net::{Conn, Net, Runs, tcp};
use std::io::{ErrorKind, Read, Write};
use std::process::Abort;
use std::thread;
use std::thread::{JoinHandle, Threads};
use std::time::{Duration, Instant};

/// How a read ended, and how long after the start.
type Ended = (Option<ErrorKind>, Duration);

fn reads_until<R: Runs + Abort>(rt: R, conn: Conn<R>, start: Instant) -> Ended {
    let mut conn = conn;
    let kind = kind_of(conn.read(&mut [0; 8]));
    (kind, start.elapsed(&rt).expect(&rt, "clock"))
}

fn start_read<R>(rt: R, conn: &mut Conn<R>, start: Instant) -> JoinHandle<Ended>
where
    R: Runs + Threads + Abort + Send + Sync + 'static,
{
    let other = conn.try_clone().expect(&rt, "cloned");
    thread::spawn(&rt, move || reads_until(rt, other, start)).expect(&rt, "thread")
}

#[test]
fn a_second_reader_moves_no_ones_time(rt: HostRuntime) {
    let net = Net::start(rt, rt.alloc()).expect(&rt, "net");
    let (mut near, _far) = pair(&rt, &net, &tcp(0));
    holds!(rt; near.set_read_timeout(millis(200)).is_ok());
    let start = Instant::now(&rt).expect(&rt, "clock");
    let one = start_read(rt, &mut near, start);
    pause(&rt, 100);
    let other = start_read(rt, &mut near, start);
    let (one, other) = (one.join(&rt), other.join(&rt));
    let late = Some(ErrorKind::TimedOut);
    holds!(rt; one.0 == late && other.0 == late);
    // Whichever came first, the other began its time when that one had ended.
    let apart = one.1.max(other.1).saturating_sub(one.1.min(other.1));
    holds!(rt; apart >= Duration::from_millis(190), "one after the other");
    net.stop();
}

#[test]
fn a_time_that_was_lifted_ends_no_read(rt: HostRuntime) {
    let net = Net::start(rt, rt.alloc()).expect(&rt, "net");
    let (mut near, mut far) = pair(&rt, &net, &tcp(0));
    holds!(rt; near.set_read_timeout(millis(40)).is_ok());
    holds!(rt; near.set_read_timeout(None).is_ok());
    let start = Instant::now(&rt).expect(&rt, "clock");
    let reading = start_read(rt, &mut near, start);
    pause(&rt, 120);
    holds!(rt; far.write_all(b"late").is_ok());
    holds!(rt; reading.join(&rt).0.is_none(), "the read has waited on");
    net.stop();
}
