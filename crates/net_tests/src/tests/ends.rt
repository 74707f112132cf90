//! What is left open: nothing, however connections and their net end.

use super::{open_files, pair};
use net::{Net, Runs, tcp};
use std::fs::Files;
use std::net::Net as Sockets;
use std::process::Abort;
use std::thread::Threads;

fn come_and_go<R: Runs + Threads + Sockets + Files + Abort>(rt: &R, net: &Net<R>) {
    let (mut near, mut far) = pair(rt, net, &tcp(0));
    let other = near.try_clone().expect(rt, "cloned");
    holds!(*rt; near.close().is_ok(), "closed");
    drop(near);
    drop(other);
    holds!(*rt; far.close_write().is_ok() || far.close().is_ok(), "the other end");
}

#[test]
fn no_file_is_left_open(rt: HostRuntime) {
    let before = open_files(&rt);
    let net = Net::start(rt, rt.alloc()).expect(&rt, "net");
    let with_net = open_files(&rt);
    for _ in 0..200u32 {
        come_and_go(&rt, &net);
    }
    holds!(rt; open_files(&rt) == with_net, "connections leave none");
    let (near, far) = pair(&rt, &net, &tcp(0));
    net.stop();
    drop(near);
    drop(far);
    holds!(rt; before.is_some() && open_files(&rt) == before, "the net leaves none");
}
