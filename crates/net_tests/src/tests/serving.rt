//! Connections that are tasks of loops: what their clients hear, and what ends them.

use super::tasks::{Does, task_that};
use super::{millis, open_files, pause};
use net::{Addr, Conn, Listener, Net, Runs, Service, tcp};
use std::alloc::Global;
use std::fs::Files;
use std::io::{ErrorKind, Read, Write};
use std::net::Net as Sockets;
use std::process::Abort;
use std::thread::Threads;
use std::time::{Duration, Instant};
use std::{io, thread};

/// What is done while the client waits for the end.
#[derive(Clone, Copy)]
enum Ends {
    /// Nothing: the end comes by itself.
    Itself,
    /// It says something.
    Words,
    Stop,
    StopOfNet,
    /// A shutdown that gives the tasks so many milliseconds.
    Shutdown(u64),
    /// It says that it writes no more.
    CloseWrite,
}

/// A row: its name, what the task does, whether words come back before, what is done then, and
/// after how many milliseconds the end comes at the earliest.
const ROWS: &[(&str, Does, bool, Ends, u64)] = &[
    (
        "a time that is over ends a task",
        Does::Echoes(40),
        true,
        Ends::Itself,
        40,
    ),
    (
        "a deadline of its connection ends a task",
        Does::HasDeadline(40),
        false,
        Ends::Itself,
        40,
    ),
    (
        "a task that looks now and then hears the end",
        Does::LooksEach(5),
        true,
        Ends::CloseWrite,
        0,
    ),
    (
        "a task that fails is closed",
        Does::Fails,
        false,
        Ends::Words,
        0,
    ),
    (
        "a task that isn't begun is closed",
        Does::BeginsNone,
        false,
        Ends::Itself,
        0,
    ),
    (
        "a stop ends tasks that wait",
        Does::Echoes(600_000),
        true,
        Ends::Stop,
        0,
    ),
    (
        "a shutdown ends a task that goes on when its time is over",
        Does::Echoes(0),
        true,
        Ends::Shutdown(40),
        40,
    ),
    (
        "a stop of the net ends tasks that wait",
        Does::LooksEach(600_000),
        false,
        Ends::StopOfNet,
        0,
    ),
];

/// A round trip.
pub fn says<R: Runs>(conn: &mut Conn<R>) -> io::Result<()> {
    let mut heard = [0; 5];
    conn.write_all(b"hello")?;
    conn.read_exact(&mut heard)?;
    if &heard == b"hello" {
        Ok(())
    } else {
        Err(ErrorKind::InvalidData.into())
    }
}

/// Whether nothing more comes: the end, or a reset.
pub fn hears_end<R: Runs>(conn: &mut Conn<R>) -> bool {
    !matches!(conn.read(&mut [0; 8]), Ok(1..))
}

fn end_by<R: Runs + Threads>(
    served: &mut Option<Service<R>>,
    net: &mut Option<Net<R>>,
    conn: &mut Conn<R>,
    how: Ends,
) {
    match how {
        Ends::Itself => {}
        Ends::Words => {
            let _ = conn.write_all(b"hello");
        }
        Ends::Stop => *served = None,
        Ends::StopOfNet => *net = None,
        Ends::Shutdown(ms) => {
            if let Some(service) = served.take() {
                service.shutdown(Duration::from_millis(ms));
            }
        }
        Ends::CloseWrite => {
            let _ = conn.close_write();
        }
    }
}

/// A net of clients, and one that serves at this address by two loops.
#[derive(Drop)]
pub struct Both<R: Runs + Threads> {
    pub clients: Net<R>,
    pub net: Option<Net<R>>,
    pub served: Option<Service<R>>,
    pub addr: Addr,
}

pub fn served_by<R>(rt: R, alloc: Global, does: Does) -> Both<R>
where
    R: Runs + Threads + Sockets + Files + Abort + Send + Sync + 'static,
{
    let clients = Net::start(rt, alloc).expect(&rt, "net");
    let net = Net::start(rt, alloc).expect(&rt, "net");
    let listener = Listener::bind(&net, &tcp(0)).expect(&rt, "bound");
    let addr = listener.local_addr().expect(&rt, "address");
    let served = net
        .serve(listener, 2, task_that(does))
        .expect(&rt, "served");
    Both {
        clients,
        net: Some(net),
        served: Some(served),
        addr,
    }
}

impl<R: Runs + Threads + Sockets + Abort> Both<R> {
    pub fn client(&self, rt: &R) -> Conn<R> {
        let conn = Conn::connect(&self.clients, &self.addr, millis(60_000)).expect(rt, "connected");
        let mut conn = conn;
        holds!(*rt; conn.set_read_timeout(millis(60_000)).is_ok(), "a time");
        conn
    }
}

#[test]
fn a_task_ends_as_a_row_says_and_leaves_nothing_open(rt: HostRuntime) {
    let before = open_files(&rt);
    for (name, does, echoes, ends, ms) in ROWS {
        let mut both = served_by(rt, rt.alloc(), *does);
        // (a task may begin before its client goes on)
        let start = Instant::now(&rt).expect(&rt, "now");
        let mut conn = both.client(&rt);
        holds!(rt; !*echoes || says(&mut conn).is_ok(), name);
        end_by(&mut both.served, &mut both.net, &mut conn, *ends);
        holds!(rt; hears_end(&mut conn), name);
        let took = start.elapsed(&rt).expect(&rt, "now").as_millis();
        holds!(rt; took >= u128::from(*ms), name);
        drop(both);
        drop(conn);
        holds!(rt; before.is_some() && open_files(&rt) == before, name);
    }
}

/// A service by so many loops.
fn served_on<R>(rt: &R, net: &Net<R>, listener: Listener<R>, loops: usize) -> Service<R>
where
    R: Runs + Threads + Sockets + Abort + Send + Sync + 'static,
{
    net.serve(listener, loops, task_that(Does::Echoes(0)))
        .expect(rt, "served")
}

/// A client that has a round trip while the service goes on, and then closes its listener.
fn closes_later<R: Runs>(rt: R, conn: Conn<R>, listener: Listener<R>) -> io::Result<()> {
    let (mut conn, mut listener) = (conn, listener);
    pause(&rt, 20);
    let said = says(&mut conn);
    listener.close()?;
    said
}

#[test]
fn a_service_is_waited_for_until_its_listener_is_closed(rt: HostRuntime) {
    let net = Net::start(rt, rt.alloc()).expect(&rt, "net");
    let mut listener = Listener::bind(&net, &tcp(0)).expect(&rt, "bound");
    let addr = listener.local_addr().expect(&rt, "address");
    let theirs = listener.try_clone().expect(&rt, "cloned");
    let service = served_on(&rt, &net, theirs, 1);
    let conn = Conn::connect(&net, &addr, millis(60_000)).expect(&rt, "connected");
    let client = thread::spawn(&rt, move || closes_later(rt, conn, listener));
    service.wait();
    let said = client.expect(&rt, "thread").join(&rt);
    holds!(rt; said.is_ok(), "it served until then");
    net.stop();
}
