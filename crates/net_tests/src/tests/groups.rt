//! Connections of a group: their count, their end, and the wait until none is left.

use super::{kind_of, millis, pair, pause};
use net::{Conn, ConnGroup, Member, Net, Runs, tcp};
use std::fs::Files;
use std::io::{ErrorKind, Read};
use std::net::Net as Sockets;
use std::process::Abort;
use std::thread;
use std::thread::Threads;

/// Both ends of a connection, of which one is in a group.
#[derive(Drop)]
struct InGroup<R: Runs> {
    near: Conn<R>,
    far: Conn<R>,
    member: Member<R>,
}

fn joined<R>(rt: &R, net: &Net<R>, group: &ConnGroup<R>) -> InGroup<R>
where
    R: Runs + Threads + Sockets + Files + Abort,
{
    let (near, far) = pair(rt, net, &tcp(0));
    let member = group.join(&near).expect(rt, "joined");
    InGroup { near, far, member }
}

fn is_closed<R: Runs>(conn: &mut Conn<R>) -> bool {
    kind_of(conn.read(&mut [0; 8])) == Some(ErrorKind::NotConnected)
}

#[test]
fn a_group_counts_its_connections_and_ends_them(rt: HostRuntime) {
    let net = Net::start(rt, rt.alloc()).expect(&rt, "net");
    let group = ConnGroup::new(&net).expect(&rt, "a group");
    holds!(rt; group.count() == 0 && group.wait(None).is_some(), "nobody");
    let mut first = joined(&rt, &net, &group);
    let mut second = joined(&rt, &net, &group);
    let third = joined(&rt, &net, &group);
    holds!(rt; group.count() == 3, "all who joined");
    drop(third);
    holds!(rt; group.count() == 2, "who is let go leaves");
    holds!(rt; first.near.close().is_ok(), "one is closed before");
    let other = group.try_clone().expect(&rt, "a clone");
    holds!(rt; other.end() == 1, "one was open");
    holds!(rt; is_closed(&mut second.near), "it is closed");
    holds!(rt; second.far.read(&mut [0; 8]).ok() == Some(0), "its peer hears the end");
    let late = kind_of(group.join(&first.far));
    holds!(rt; late == Some(ErrorKind::NotConnected), "nobody joins any more");
    holds!(rt; group.count() == 2 && other.end() == 0, "and both are there until they are let go");
    net.stop();
}

fn lets_go_later<R: Runs>(rt: R, first: InGroup<R>, second: InGroup<R>) {
    pause(&rt, 20);
    drop(first);
    pause(&rt, 20);
    drop(second);
}

#[test]
fn who_waits_for_a_group_waits_until_none_is_left(rt: HostRuntime) {
    let net = Net::start(rt, rt.alloc()).expect(&rt, "net");
    let group = ConnGroup::new(&net).expect(&rt, "a group");
    let first = joined(&rt, &net, &group);
    let second = joined(&rt, &net, &group);
    holds!(rt; group.wait(millis(20)).is_none(), "the time is over first");
    let later = thread::spawn(&rt, move || lets_go_later(rt, first, second));
    holds!(rt; group.wait(millis(600_000)).is_some(), "none is left");
    holds!(rt; group.count() == 0, "as it says");
    later.expect(&rt, "thread").join(&rt);
    net.stop();
}
