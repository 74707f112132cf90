//! The log's thread, from its start to its end.

ghost use Rattle.std.specs.Prelude.{◌≡◌, None, IfOk, false};
ghost use Rattle.log_writer.specs.Thread.{log_of};

use crate::log::Log;
use base_types::OutOfMemory;
use std::io::Write;
use std::sync::{Arc, Wait};
use std::thread;
use std::thread::{Builder, JoinHandle, Threads};
use std::time::{Clock, Duration, Instant};

/// How often `finish` looks whether the thread is over, `TURN_MS` apart.
pub const FINISH_TURNS: u32 = 1_000;

/// The milliseconds of a turn of `finish`.
pub const TURN_MS: u64 = 1;

/// The milliseconds after which `finish` looks no more, whatever its turns took.
pub const FINISH_MS: u64 = 1_000;

/// The stack of the thread, in bytes: the least that the system gives. Its buffers are on the heap.
const STACK_BYTES: usize = 131_072;

/// How a thread's end went.
#[derive(Clone, Copy, Debug, PartialEq, Eq, Drop)]
pub enum Finish {
    /// It is over, and was joined.
    Over,
    /// It wasn't over in time, as where its device neither takes bytes nor fails. It was left, and
    /// goes on until the process ends, which cuts it off.
    Left,
}

/// A thread that writes a log.
#[derive(Drop)]
pub struct LogThread {
    log: Arc<Log>,
    join: JoinHandle<()>,
}

impl LogThread {
    /// Starts the thread of this log, which writes to this writer. Refused where there is no memory
    /// for a thread.
    pub fn start<R, W>(rt: R, log: Arc<Log>, writer: W) -> Result<LogThread, OutOfMemory>
    where
        R: Wait + Threads + Clock + Copy + Send + 'static,
        W: Write + Drop + Send + 'static,
        ensures { IfOk result (λ thread. log_of thread ≡ log) }
    {
        let Ok(own) = Arc::try_clone(&log) else {
            return Err(OutOfMemory);
        };
        let job = move || {
            let mut writer = writer;
            own.run(&rt, &mut writer)
        };
        match Builder::new().stack_size(STACK_BYTES).spawn(&rt, job) {
            Ok(join) => Ok(LogThread { log, join }),
            Err(_) => Err(OutOfMemory),
        }
    }

    /// Asks for the end, and joins the thread once it is over. One that isn't after `FINISH_TURNS`
    /// turns, or after `FINISH_MS`, is left.
    pub fn finish<R: Wait + Threads + Clock>(self, rt: &R) -> Finish {
        let LogThread { log, join } = self;
        log.end(rt);
        let began = Instant::now(rt).ok();
        for _ in 0..FINISH_TURNS {
            if log.is_over() {
                join.join(rt);
                return Finish::Over;
            }
            if is_late(rt, began) {
                return Finish::Left;
            }
            thread::sleep(rt, Duration::from_millis(TURN_MS));
        }
        Finish::Left
    }
}

// Whether `FINISH_MS` have passed: on a busy machine a turn takes longer than it should. Where the
// clock can't be read, the number of turns alone decides.
fn is_late<R: Clock>(rt: &R, began: Option<Instant>) -> bool
    ensures { began ≡ None → result ≡ false }
{
    let Some(began) = began else {
        return false;
    };
    match began.elapsed(rt) {
        Ok(passed) => passed.as_millis() >= u128::from(FINISH_MS),
        Err(_) => false,
    }
}
