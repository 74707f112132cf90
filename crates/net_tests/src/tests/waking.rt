//! A task that is woken by a clone of its connection, from another thread.

use super::{millis, pause};
use net::{Cause, Conn, Listener, Net, Next, Runs, Task, tcp};
use std::alloc::Global;
use std::io;
use std::sync::atomic::{AtomicU32, Ordering};
use std::sync::{Arc, Mutex};
use std::time::Duration;

/// The most turns of a millisecond until a step comes.
const TURNS: u32 = 10_000;

/// What the tasks of a service share with its test.
#[derive(Drop)]
struct Seen<R: Runs> {
    steps: AtomicU32,
    other: Mutex<Option<Conn<R>>>,
}

/// A task that leaves a clone of its connection, and counts its steps, of which one comes by itself.
#[derive(Drop)]
struct Sleeper<R: Runs> {
    seen: Arc<Seen<R>>,
}

impl<R: Runs> Task<R> for Sleeper<R> {
    fn begin(&self, _alloc: Global) -> io::Result<Sleeper<R>> {
        let seen = Arc::try_clone(&self.seen)?;
        Ok(Sleeper { seen })
    }

    fn step(&mut self, rt: &R, conn: &mut Conn<R>, _cause: Cause) -> Next {
        let other = conn.try_clone().ok();
        *self.seen.other.lock(rt) = other;
        self.seen.steps.fetch_add(1, Ordering::SeqCst);
        Next::After(Duration::from_secs(600))
    }
}

fn steps_come<R: Runs>(rt: &R, seen: &Seen<R>, steps: u32) -> bool {
    for _ in 0..TURNS {
        if seen.steps.load(Ordering::SeqCst) >= steps {
            return true;
        }
        pause(rt, 1);
    }
    false
}

/// Whether there is a task to wake at the other end.
fn wakes<R: Runs>(rt: &R, seen: &Seen<R>) -> bool {
    match &*seen.other.lock(rt) {
        Some(other) => other.wake(),
        None => false,
    }
}

#[test]
fn a_task_is_woken_by_a_clone(rt: HostRuntime) {
    let net = Net::start(rt, rt.alloc()).expect(&rt, "net");
    let listener = Listener::bind(&net, &tcp(0)).expect(&rt, "bound");
    let seen = Seen {
        steps: AtomicU32::new(0),
        other: Mutex::new(None),
    };
    let seen = Arc::new(rt.alloc(), seen).expect(&rt, "memory");
    let theirs = Arc::try_clone(&seen).expect(&rt, "another owner");
    let sleeper = Sleeper { seen: theirs };
    let service = net.serve(listener, 1, sleeper).expect(&rt, "served");
    let addr = service.local_addr().expect(&rt, "address");
    let conn = Conn::connect(&net, &addr, millis(60_000)).expect(&rt, "connected");
    holds!(rt; !conn.wake(), "who connects has no task");
    for steps in 1..4u32 {
        holds!(rt; steps_come(&rt, &*seen, steps), "a step for each time that it was woken");
        holds!(rt; wakes(&rt, &*seen), "who is served has one");
    }
    service.stop();
    net.stop();
}
