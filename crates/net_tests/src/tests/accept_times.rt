//! Accepts with a time: none gives up before it is over, a client in time is accepted, and a service
//! of the listener knows none of it.

use super::serving::says;
use super::tasks::{Does, task_that};
use super::{kind_of, millis, pause};
use net::{Addr, Conn, Listener, Net, Runs, tcp};
use std::fs::Files;
use std::io::ErrorKind;
use std::net::Net as Sockets;
use std::process::Abort;
use std::thread::{JoinHandle, Threads};
use std::time::{Duration, Instant};
use std::{io, thread};

/// What is done with a listener, or with a clone of it. A time of 0 is none.
#[derive(Clone, Copy)]
enum Call {
    Time(u64),
    TimeOfClone(u64),
    /// A client comes.
    Comes,
    /// An accept that takes so many milliseconds at least.
    Accepts(u64),
    CloneAccepts(u64),
    Close,
}

const LATE: Option<ErrorKind> = Some(ErrorKind::TimedOut);

const GONE: Option<ErrorKind> = Some(ErrorKind::NotConnected);

const ROWS: &[(&str, &[(Call, Option<ErrorKind>)])] = &[
    (
        "each accept has its whole time, for all clones",
        &[
            (Call::Time(40), None),
            (Call::Accepts(40), LATE),
            (Call::CloneAccepts(40), LATE),
            (Call::Accepts(40), LATE),
        ],
    ),
    (
        "a client is accepted in time, also after a late accept",
        &[
            (Call::TimeOfClone(20), None),
            (Call::Accepts(20), LATE),
            (Call::Comes, None),
            (Call::Accepts(0), None),
            (Call::CloneAccepts(20), LATE),
        ],
    ),
    (
        "a time that was lifted ends no accept",
        &[
            (Call::Time(20), None),
            (Call::Accepts(20), LATE),
            (Call::TimeOfClone(0), None),
            (Call::Comes, None),
            (Call::Accepts(0), None),
        ],
    ),
    (
        "after a close each call is told so",
        &[
            (Call::Time(20), None),
            (Call::Close, None),
            (Call::Accepts(0), GONE),
            (Call::CloneAccepts(0), GONE),
            (Call::Time(20), GONE),
            (Call::TimeOfClone(0), GONE),
        ],
    ),
];

/// The answer, whose value is let go.
fn done<T: Drop>(answer: io::Result<T>) -> io::Result<()> {
    match answer {
        Ok(_) => Ok(()),
        Err(error) => Err(error),
    }
}

fn accepts<R: Runs + Abort>(rt: &R, listener: &mut Listener<R>, ms: u64) -> io::Result<()> {
    let start = Instant::now(rt)?;
    let accepted = done(listener.accept());
    let took = start.elapsed(rt)?.as_millis();
    holds!(*rt; took >= u128::from(ms), "in its time");
    accepted
}

/// A listener, its clone, and who connects there.
#[derive(Drop)]
struct Both<'a, R: Runs + Threads> {
    net: &'a Net<R>,
    addr: Addr,
    listener: Listener<R>,
    clone: Listener<R>,
}

impl<R: Runs + Threads + Sockets + Abort> Both<'_, R> {
    fn does(&mut self, rt: &R, call: Call) -> io::Result<()> {
        match call {
            Call::Time(ms) => self.listener.set_accept_timeout(millis(ms)),
            Call::TimeOfClone(ms) => self.clone.set_accept_timeout(millis(ms)),
            Call::Comes => done(Conn::connect(self.net, &self.addr, millis(60_000))),
            Call::Accepts(ms) => accepts(rt, &mut self.listener, ms),
            Call::CloneAccepts(ms) => accepts(rt, &mut self.clone, ms),
            Call::Close => self.listener.close(),
        }
    }
}

/// A listener with its address.
fn bound<R>(rt: &R, net: &Net<R>) -> (Listener<R>, Addr)
where
    R: Runs + Threads + Sockets + Files + Abort,
{
    let listener = Listener::bind(net, &tcp(0)).expect(rt, "bound");
    let addr = listener.local_addr().expect(rt, "address");
    (listener, addr)
}

#[test]
fn accepts_keep_to_their_time_as_a_row_says(rt: HostRuntime) {
    let net = Net::start(rt, rt.alloc()).expect(&rt, "net");
    for (name, steps) in ROWS {
        let (mut listener, addr) = bound(&rt, &net);
        let clone = listener.try_clone().expect(&rt, "cloned");
        let net = &net;
        let mut both = Both {
            net,
            addr,
            listener,
            clone,
        };
        for (call, fails) in *steps {
            holds!(rt; kind_of(both.does(&rt, *call)) == *fails, name);
        }
    }
    net.stop();
}

/// How an accept ended, and how long after the start.
type Ended = (Option<ErrorKind>, Duration);

fn accepts_until<R: Runs + Abort>(rt: R, listener: Listener<R>, start: Instant) -> Ended {
    let mut listener = listener;
    let kind = kind_of(listener.accept());
    (kind, start.elapsed(&rt).expect(&rt, "clock"))
}

fn start_accept<R>(rt: R, listener: &mut Listener<R>, start: Instant) -> JoinHandle<Ended>
where
    R: Runs + Threads + Abort + Send + Sync + 'static,
{
    let other = listener.try_clone().expect(&rt, "cloned");
    thread::spawn(&rt, move || accepts_until(rt, other, start)).expect(&rt, "thread")
}

#[test]
fn a_second_accept_moves_no_ones_time(rt: HostRuntime) {
    let net = Net::start(rt, rt.alloc()).expect(&rt, "net");
    let (mut listener, _) = bound(&rt, &net);
    holds!(rt; listener.set_accept_timeout(millis(200)).is_ok());
    let start = Instant::now(&rt).expect(&rt, "clock");
    let one = start_accept(rt, &mut listener, start);
    pause(&rt, 100);
    let other = start_accept(rt, &mut listener, start);
    let (one, other) = (one.join(&rt), other.join(&rt));
    holds!(rt; one.0 == LATE && other.0 == LATE);
    // Whichever came first, the other began its time when that one had ended.
    let apart = one.1.max(other.1).saturating_sub(one.1.min(other.1));
    holds!(rt; apart >= Duration::from_millis(190), "one after the other");
    net.stop();
}

#[test]
fn an_accept_that_waits_has_its_time_from_when_it_is_set(rt: HostRuntime) {
    let net = Net::start(rt, rt.alloc()).expect(&rt, "net");
    let (mut listener, _) = bound(&rt, &net);
    let start = Instant::now(&rt).expect(&rt, "clock");
    let accepting = start_accept(rt, &mut listener, start);
    pause(&rt, 40);
    holds!(rt; listener.set_accept_timeout(millis(40)).is_ok());
    let (kind, took) = accepting.join(&rt);
    holds!(rt; kind == LATE && took >= Duration::from_millis(80));
    net.stop();
}

/// When a time is set: before the service begins, while it runs, or in both.
const TIMES: &[(&str, Option<u64>, Option<u64>)] = &[
    ("no time", None, None),
    ("a time from before", Some(20), None),
    ("a time of while it serves", None, Some(20)),
    ("no time at all for others", None, Some(0)),
    ("a long time of while it serves", Some(20), Some(600_000)),
];

/// Sets a time, where one is given.
fn sets<R: Runs>(listener: &mut Listener<R>, ms: Option<u64>) -> bool {
    match ms {
        Some(ms) => listener
            .set_accept_timeout(Some(Duration::from_millis(ms)))
            .is_ok(),
        None => true,
    }
}

#[test]
fn a_service_knows_no_time_of_its_listener_and_is_shut_down_beside_one(rt: HostRuntime) {
    let net = Net::start(rt, rt.alloc()).expect(&rt, "net");
    for (name, before, meanwhile) in TIMES {
        let (mut listener, addr) = bound(&rt, &net);
        let mut other = listener.try_clone().expect(&rt, "cloned");
        holds!(rt; sets(&mut other, *before), name);
        let served = net.serve(listener, 1, task_that(Does::Echoes(0)));
        let service = served.expect(&rt, name);
        pause(&rt, 10);
        holds!(rt; sets(&mut other, *meanwhile), name);
        pause(&rt, 60);
        let mut conn = Conn::connect(&net, &addr, millis(60_000)).expect(&rt, name);
        holds!(rt; says(&mut conn).is_ok(), name);
        holds!(rt; service.shutdown(Duration::from_millis(10)).cut_off() == 1, name);
        holds!(rt; kind_of(other.set_accept_timeout(None)) == GONE, name);
    }
    net.stop();
}

/// Accepts of a clone beside a service, each with a time, until they are told of the end.
fn accepts_beside<R: Runs>(listener: Listener<R>) -> Option<ErrorKind> {
    let mut listener = listener;
    for _ in 0..10_000u32 {
        let ended = kind_of(listener.accept());
        if ended.is_some() && ended != LATE {
            return ended;
        }
    }
    None
}

#[test]
fn a_shutdown_ends_the_accepts_of_clones_too(rt: HostRuntime) {
    for ms in [2, 600_000] {
        let net = Net::start(rt, rt.alloc()).expect(&rt, "net");
        let (mut listener, _) = bound(&rt, &net);
        holds!(rt; listener.set_accept_timeout(millis(ms)).is_ok());
        let other = listener.try_clone().expect(&rt, "cloned");
        let service = net.serve(listener, 1, task_that(Does::Echoes(0)));
        let service = service.expect(&rt, "served");
        let beside = thread::spawn(&rt, move || accepts_beside(other)).expect(&rt, "thread");
        pause(&rt, 40);
        service.shutdown(Duration::from_millis(10));
        holds!(rt; beside.join(&rt) == GONE, "it was told");
        net.stop();
    }
}
