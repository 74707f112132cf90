//! A connection with both its ends held, and a thread that turns their poller.

use super::scene::End;
use super::stage::Stage;
use super::{TURNS, holds, pause};
use arrayvec::ArrayString;
use fd_descriptor::{AcceptOutcome, FdHandle, TryAccept};
use readiness::{Addr, Listen, Poller, Sock, SockRes, connect, listen};
use std::alloc::Global;
use std::fmt::Write;
use std::fs::Files;
use std::net::Net;
use std::process::Abort;
use std::sync::atomic::Ordering;
use std::sync::{Arc, Wait};
use std::thread::{JoinHandle, Threads};
use std::time::Clock;
use std::{env, fs, process, thread};

type Path = ArrayString<100>;

/// A path of the process with this number in a folder.
fn path_in(folder: &str, id: u32) -> Option<Path> {
    let mut path = Path::new();
    write!(path, "{folder}/hobrintza-conn-{id}").ok()?;
    Some(path)
}

/// A path in the test's own folder.
fn own_path(rt: &HostRuntime) -> Option<Path> {
    match env::temp_dir(rt) {
        Ok(folder) => path_in(folder.as_str(), process::id(rt.process())),
        Err(_) => None,
    }
}

/// Where connections are made: at any port of loopback that is free, and at the test's path.
pub(in crate::tests) fn addrs(rt: &HostRuntime) -> Option<[Addr; 2]> {
    let path = own_path(rt)?;
    Some([Addr::Tcp([127, 0, 0, 1], 0), Addr::Unix(path)])
}

/// Where clients connect to of a listener at this address, which has this port.
fn reach(addr: &Addr, port: Option<u16>) -> Addr {
    match (*addr, port) {
        (Addr::Tcp(bytes, _), Some(port)) => Addr::Tcp(bytes, port),
        (addr, _) => addr,
    }
}

/// Accepts once there is a connection.
fn accept_soon<R: Clock>(rt: &R, listener: &mut Listen) -> Option<Sock> {
    for _ in 0..TURNS {
        if let AcceptOutcome::Took(sock) = listener.try_accept() {
            return Some(sock);
        }
        pause(rt, 1);
    }
    None
}

/// Both ends of a connection that this listener takes.
fn ends<R: Net + Clock + Abort>(rt: &R, addr: &Addr, listener: Listen) -> (Sock, Sock) {
    let mut listener = listener;
    let near = connect(rt, &reach(addr, listener.port())).expect(rt, "connect");
    let far = accept_soon(rt, &mut listener).expect(rt, "accept");
    (near, far)
}

/// The path of a Unix listener goes again.
fn removes<R: Files>(rt: &R, addr: &Addr) -> bool {
    match addr {
        Addr::Tcp(_, _) | Addr::Tcp6(_, _, _) => true,
        Addr::Unix(path) => fs::remove_file(rt, path.as_str()).is_ok(),
    }
}

/// Both ends of a connection at this address.
fn socks<R: Net + Files + Clock + Abort>(rt: &R, addr: &Addr) -> (Sock, Sock) {
    let listener = listen(rt, addr).expect(rt, "listen");
    let socks = ends(rt, addr, listener);
    holds(rt, removes(rt, addr), "its path goes");
    socks
}

/// An end that is held, and the id of its entry in the poller's table.
#[derive(Drop)]
pub(in crate::tests) struct HeldEnd {
    pub(super) end: End,
    pub(super) id: u64,
    pub(in crate::tests) handle: FdHandle<SockRes>,
}

impl HeldEnd {
    /// The same by another handle.
    pub(in crate::tests) fn share<R: Abort>(&mut self, rt: &R) -> HeldEnd {
        HeldEnd {
            end: self.end,
            id: self.id,
            handle: self.handle.share().expect(rt, "a share"),
        }
    }
}

/// A connection, with a thread that turns its poller.
#[derive(Drop)]
pub(in crate::tests) struct World<R: Wait + Drop> {
    pub(super) stage: Arc<Stage<R>>,
    pub(in crate::tests) near: HeldEnd,
    pub(in crate::tests) far: HeldEnd,
    turning: JoinHandle<bool>,
}

/// Turns until it is told to stop, and says whether every turn was made.
fn turns<R: Wait + Clock + Copy + Drop>(rt: &R, stage: &Stage<R>, poller: &mut Poller) -> bool {
    for _ in rt.forever() {
        if stage.stop.load(Ordering::SeqCst) {
            return true;
        }
        let turned = poller.turn(rt, stage.now(rt), &stage.table, &*stage.timers);
        if turned.is_err() {
            return false;
        }
    }
    unreachable!()
}

/// Has a thread turn this poller.
fn start_turning<R>(rt: R, poller: Poller, stage: &Arc<Stage<R>>) -> JoinHandle<bool>
where
    R: Wait + Threads + Clock + Abort + Copy + Drop + Send + Sync + 'static,
{
    let mut poller = poller;
    let turned = Arc::try_clone(stage).expect(&rt, "the stage");
    thread::spawn(&rt, move || turns(&rt, &turned, &mut poller)).expect(&rt, "a thread")
}

/// Holds a socket, which `poller` tells from now on.
fn hold<R>(rt: R, alloc: Global, poller: &Poller, stage: &Stage<R>, end: (End, Sock)) -> HeldEnd
where
    R: Wait + Abort + Copy + Drop,
{
    let (end, sock) = end;
    let held = poller.hold(alloc, &mut *stage.table.lock(&rt), sock);
    let (id, handle) = held.expect(&rt, "held");
    HeldEnd { end, id, handle }
}

/// A connection at this address, held by a poller, which gets a thread.
pub(in crate::tests) fn open<R>(rt: R, alloc: Global, addr: &Addr) -> World<R>
where
    R: Wait + Threads + Net + Files + Clock + Abort + Copy + Drop + Send + Sync + 'static,
{
    let (near, far) = socks(&rt, addr);
    let poller = Poller::new(&rt, alloc).expect(&rt, "a poller");
    let stage = Arc::new(alloc, Stage::by(rt, alloc, &poller)).expect(&rt, "a stage");
    World {
        near: hold(rt, alloc, &poller, &stage, (End::Near, near)),
        far: hold(rt, alloc, &poller, &stage, (End::Far, far)),
        turning: start_turning(rt, poller, &stage),
        stage,
    }
}

impl<R: Wait + Drop> World<R> {
    /// Stops the poller's thread, in which every turn has to have been made.
    pub(in crate::tests) fn stop<T: Threads + Abort>(self, rt: &T) {
        self.stage.stop.store(true, Ordering::SeqCst);
        let _ = self.stage.waker.wake();
        holds(rt, self.turning.join(rt), "every turn was made");
    }
}
