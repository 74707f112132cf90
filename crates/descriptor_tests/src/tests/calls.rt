//! The calls of scenes: by one `match`, in this thread or in one of their own.

use super::scene::{Answer, Asked, Call};
use super::scripted::Told;
use super::{Plain, Silent, comes_to};
use base_types::OutOfMemory;
use deadline_core::{Deadline, Dirs};
use fd_descriptor::Alarms;
use rwloops::{Fault, WriteFault};
use std::process::Abort;
use std::sync::atomic::Ordering;
use std::sync::{Arc, Mutex, Wait};
use std::thread;
use std::thread::{JoinHandle, Threads};
use std::time::Clock;

/// Alarms that keep what was asked of them last.
#[derive(Drop)]
pub(super) struct Noted<T: Wait + Drop> {
    pub(super) rt: T,
    pub(super) last: Mutex<Option<Asked>>,
}

impl<T: Wait + Drop> Alarms for Noted<T> {
    fn arm(&self, key: u64, dirs: Dirs, at: u64) -> Result<(), OutOfMemory> {
        *self.last.lock(&self.rt) = Some((key, dirs, Some(at)));
        Ok(())
    }

    fn disarm(&self, key: u64, dirs: Dirs) {
        *self.last.lock(&self.rt) = Some((key, dirs, None));
    }
}

/// Alarms that are always refused memory.
#[derive(Drop)]
struct Full;

impl Alarms for Full {
    fn arm(&self, _key: u64, _dirs: Dirs, _at: u64) -> Result<(), OutOfMemory> {
        Err(OutOfMemory)
    }

    fn disarm(&self, _key: u64, _dirs: Dirs) {}
}

fn set<T: Wait + Clock + Drop, L: Alarms>(
    rt: &T,
    handle: &mut Plain<T>,
    (dirs, deadline, now): (Dirs, Deadline, u64),
    alarms: &L,
) -> Result<(), Fault> {
    match dirs {
        Dirs::Read => handle.set_read_deadline(rt, deadline, now, alarms),
        Dirs::Write => handle.set_write_deadline(rt, deadline, now, alarms),
        Dirs::Both => handle.set_deadline(rt, deadline, now, alarms),
    }
}

/// What a call answers.
pub(super) fn answer<T: Wait + Clock + Drop, L: Alarms>(
    rt: &T,
    handle: &mut Plain<T>,
    told: &Told,
    alarms: &L,
    call: Call,
) -> Answer {
    match call {
        Call::Read => Answer::Took(handle.read(rt, &mut [0; 4])),
        Call::Write(bytes) => match handle.write(rt, bytes) {
            Ok(count) => Answer::Wrote(count),
            Err(WriteFault { fault, count }) => Answer::Cut(fault, count),
        },
        Call::Accept => Answer::Took(handle.accept(rt)),
        Call::Shut => Answer::Done(handle.close_write(rt)),
        Call::Set(dirs, at, now) => Answer::Done(set(rt, handle, (dirs, at, now), alarms)),
        Call::SetInVain(at) => Answer::Done(set(rt, handle, (Dirs::Both, at, 0), &Full)),
        Call::Drain => Answer::Done(handle.drain(rt)),
        Call::Ask => Answer::Asked(handle.control(rt, |asked| asked.fault)),
        Call::AskGated => Answer::Asked(handle.control(rt, |asked| {
            comes_to(rt, &told.gate, 1);
            asked.fault
        })),
        Call::Close => Answer::Done(handle.close(rt)),
        Call::Tell => Answer::Done(handle.close_telling(rt, told)),
    }
}

/// Starts a call by this handle in a thread of its own.
pub(super) fn start<T: Threads + Wait + Clock + Abort + Copy + Send + Drop + 'static>(
    rt: T,
    handle: Plain<T>,
    told: &Arc<Told>,
    call: Call,
) -> JoinHandle<Answer> {
    let told = Arc::try_clone(told).expect(&rt, "what is told");
    let mut handle = handle;
    let run = move || {
        let answer = answer(&rt, &mut handle, &told, &Silent, call);
        told.answered.fetch_add(1, Ordering::SeqCst);
        answer
    };
    thread::spawn(&rt, run).expect(&rt, "a thread")
}
