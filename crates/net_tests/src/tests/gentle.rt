//! A close that hears the peer out, by a thread and by a task.

use super::serving::{says, served_by};
use super::tasks::Does;
use super::{kind_of, millis, pair, pause};
use net::{Conn, Net, Runs, tcp};
use std::io::{ErrorKind, Read, Write};
use std::time::Duration;
use std::{io, thread};

/// The peer's part: what it hears before the end, and then its own words and its end.
fn hears_and_answers<R: Runs>(rt: R, conn: Conn<R>) -> io::Result<bool> {
    let mut conn = conn;
    let mut heard = [0; 5];
    conn.read_exact(&mut heard)?;
    let ended = conn.read(&mut [0; 8])? == 0;
    pause(&rt, 20);
    conn.write_all(b"and you")?;
    conn.close_write()?;
    Ok(ended && &heard == b"hello")
}

#[test]
fn who_closes_gently_hears_the_peer_out(rt: HostRuntime) {
    let net = Net::start(rt, rt.alloc()).expect(&rt, "net");
    let (mut near, far) = pair(&rt, &net, &tcp(0));
    let peer = thread::spawn(&rt, move || hears_and_answers(rt, far)).expect(&rt, "thread");
    holds!(rt; near.write_all(b"hello").is_ok(), "said");
    let dropped = near.close_gently(Duration::from_secs(60)).ok();
    holds!(rt; dropped == Some(7), "it waits for the end, and drops what comes before");
    holds!(rt; peer.join(&rt).ok() == Some(true), "the peer hears all, and the end");
    holds!(rt; kind_of(near.read(&mut [0; 8])) == Some(ErrorKind::NotConnected), "closed");
    holds!(rt; near.close_gently(Duration::from_secs(60)).is_err(), "and closed once");
    net.stop();
}

#[test]
fn a_gentle_close_ends_with_its_time(rt: HostRuntime) {
    let net = Net::start(rt, rt.alloc()).expect(&rt, "net");
    let (mut near, mut far) = pair(&rt, &net, &tcp(0));
    let late = kind_of(near.close_gently(Duration::from_millis(20)));
    holds!(rt; late == Some(ErrorKind::TimedOut), "the peer says nothing, and doesn't end");
    holds!(rt; kind_of(near.read(&mut [0; 8])) == Some(ErrorKind::NotConnected), "closed");
    holds!(rt; far.read(&mut [0; 8]).ok() == Some(0), "the peer hears the end");
    net.stop();
}

#[test]
fn a_task_that_closes_gently_is_over_with_its_time(rt: HostRuntime) {
    let mut both = served_by(rt, rt.alloc(), Does::ClosesGently(20));
    let mut conn = both.client(&rt);
    holds!(rt; says(&mut conn).is_ok(), "it is served");
    let service = both.served.take().expect(&rt, "served");
    // (were its task not over by itself, it would be cut off only then)
    let ended = service.shutdown(Duration::from_millis(600_000));
    holds!(rt; ended.cut_off() == 0, "the task is over by itself");
    holds!(rt; conn.set_read_timeout(millis(60_000)).is_ok(), "a time");
    holds!(rt; conn.read(&mut [0; 8]).ok() == Some(0), "the end");
}
