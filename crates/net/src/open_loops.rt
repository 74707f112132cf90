//! The loops of a service, from their sockets' pollers to their threads.

ghost use Rattle.std.specs.Prelude.{◌≡◌, ◌+◌, IfOk, OnOk, vec_len};

use crate::closer::ServiceCloser;
use crate::door::Door;
use crate::errors::told;
use crate::over::LoopEnd;
use crate::phase::Phase;
use crate::runs::Runs;
use crate::serve_loop::{LoopHost, run_to_end};
use crate::task::Task;
use readiness::{LoopDriver, RemoteAlarms};
use std::alloc::Global;
use std::net::Net as Sockets;
use std::sync::Arc;
use std::thread::{JoinHandle, Threads};
use std::{io, thread};

/// What a loop is made of.
#[derive(Drop)]
pub(crate) struct Opened {
    driver: LoopDriver,
    door: Arc<Door>,
}

/// So many loops that nobody runs yet.
pub(crate) fn open_loops<R: Sockets>(rt: &R, alloc: Global, loops: usize) -> io::Result<Vec<Opened>>
    ensures count { IfOk result (λ opened. vec_len opened ≡ loops) }
{
    let mut opened = Vec::with_capacity(alloc, loops)?;
    for _ in 0..loops {
        let driver = told(LoopDriver::new(rt, alloc), None)?;
        let door = Arc::new(alloc, Door::new(alloc, driver.remote()?))?;
        opened.push(Opened { driver, door })?;
    }
    Ok(opened)
}

/// The doors of all loops.
pub(crate) fn doors_of(alloc: Global, opened: &[Opened]) -> io::Result<Vec<Arc<Door>>> {
    let mut doors = Vec::new(alloc);
    for one in opened {
        doors.push(Arc::try_clone(&one.door)?)?;
    }
    Ok(doors)
}

// Starts a loop that begins its tasks of this one.
fn start_loop<T, R>(
    closer: &ServiceCloser<R>,
    opened: Opened,
    task: T,
) -> io::Result<JoinHandle<LoopEnd>>
where
    T: Task<R> + Send + 'static,
    R: Runs + Threads + Sockets + Send + Sync + 'static,
{
    let shared = &closer.ends.shared;
    let rt = shared.rt;
    let Opened { driver, door } = opened;
    let host = LoopHost {
        shared: Arc::try_clone(shared)?,
        remote: driver.remote()?,
        alarms: RemoteAlarms::new(rt, driver.remote()?),
        door,
        closer: closer.try_clone()?,
        phase: Phase::serving(),
        task,
    };
    Ok(thread::spawn(&rt, move || run_to_end(driver, host))?)
}

/// Starts the loops, those that were started among them where one isn't.
pub(crate) fn start_loops<T, R>(
    started: &mut Vec<JoinHandle<LoopEnd>>,
    closer: &ServiceCloser<R>,
    opened: Vec<Opened>,
    task: &T,
) -> io::Result<()>
where
    T: Task<R> + Send + 'static,
    R: Runs + Threads + Sockets + Send + Sync + 'static,
    ensures count { OnOk result (vec_len started.new ≡ vec_len started.old + vec_len opened) }
{
    let mut opened = opened;
    started.reserve(opened.len())?;
    while let Some(one) = opened.pop() {
        let own = task.begin(closer.ends.shared.alloc)?;
        let thread = start_loop(closer, one, own)?;
        started.push(thread)?;
    }
    Ok(())
}
