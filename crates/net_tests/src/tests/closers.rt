//! Handles that close a listener or a connection which another thread has.

use super::{kind_of, pair, pause};
use net::{Listener, Net, tcp};
use std::io::{ErrorKind, Read};
use std::thread;

const GONE: Option<ErrorKind> = Some(ErrorKind::NotConnected);

#[test]
fn a_handle_closes_a_listener_that_accepts(rt: HostRuntime) {
    let net = Net::start(rt, rt.alloc()).expect(&rt, "net");
    let listener = Listener::bind(&net, &tcp(0)).expect(&rt, "bound");
    let closer = listener.closer().expect(&rt, "a handle");
    let other = closer.try_clone().expect(&rt, "another");
    let mut listener = listener;
    let accepting = thread::spawn(&rt, move || kind_of(listener.accept()));
    pause(&rt, 20);
    holds!(rt; closer.close().was_open(), "it closes");
    holds!(rt; accepting.expect(&rt, "thread").join(&rt) == GONE, "the accept ends");
    holds!(rt; !other.close().was_open(), "it was closed before");
    net.stop();
}

#[test]
fn a_handle_closes_a_connection_that_reads(rt: HostRuntime) {
    let net = Net::start(rt, rt.alloc()).expect(&rt, "net");
    let (near, mut far) = pair(&rt, &net, &tcp(0));
    let closer = near.socket_closer().expect(&rt, "a handle");
    let mut near = near;
    let reading = thread::spawn(&rt, move || kind_of(near.read(&mut [0; 8])));
    pause(&rt, 20);
    holds!(rt; closer.close().was_open(), "it closes");
    holds!(rt; reading.expect(&rt, "thread").join(&rt) == GONE, "the read ends");
    holds!(rt; far.read(&mut [0; 8]).ok() == Some(0), "the peer hears the end");
    net.stop();
}

#[test]
fn a_handle_keeps_nothing_open(rt: HostRuntime) {
    let net = Net::start(rt, rt.alloc()).expect(&rt, "net");
    let (near, mut far) = pair(&rt, &net, &tcp(0));
    let closer = near.socket_closer().expect(&rt, "a handle");
    drop(near);
    holds!(rt; far.read(&mut [0; 8]).ok() == Some(0), "the last clone closed it");
    holds!(rt; !closer.close().was_open(), "and so it was closed before");
    net.stop();
}
