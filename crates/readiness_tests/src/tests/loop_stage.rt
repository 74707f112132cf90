//! A loop on which rows are played, step by step, on one thread. The clock that its turns are shown
//! stands still at the moment that a row says; how long they sleep the system's clock tells.

use super::counting::{Counting, CountingLoop, Heard, Ledger, Seen, WAITING};
use super::loop_rows::ROWS;
use super::{LONGEST, TRIES, nanos_since};
use fd_descriptor::{Alarms, Dirs};
use readiness::{EventLoop, LoopRemote, RemoteAlarms, Side};
use std::alloc::Global;
use std::net::Net;
use std::process::Abort;
use std::sync::{Arc, Wait};
use std::time::{Clock, Instant};

/// The most tasks of a row.
const TASKS: usize = 4;

/// A step, of the tasks by their numbers. The number after the last names nobody.
#[derive(Clone, Copy)]
pub(super) enum Step {
    /// A task more, which gives way so often.
    Put(u32),
    /// A task more, which ends when it is told.
    PutEnding,
    Again(usize),
    /// The task awaits this moment from now on, or none.
    Await(usize, Option<u64>),
    Tell(usize),
    Wake,
    Arm(usize, Side, Dirs, u64),
    Lift(usize, Side, Dirs),
    /// So many names that are nobody's, or so many timers for this moment.
    Nobody(u64, Option<u64>),
    /// The task is taken out.
    Take(usize),
    /// All tasks end, and this is heard.
    EndAll(&'static [Heard]),
    /// A turn at this moment that doesn't sleep, in which this is heard.
    Turn(u64, &'static [Heard]),
    /// A turn at the first moment that sleeps until the second, and no longer.
    Sleeps(u64, u64, &'static [Heard]),
    /// A turn that sleeps as long as it may.
    Rests,
}

/// A loop, and what its rows use.
#[derive(Drop)]
struct Stage<R: Wait + Clock + Copy + Drop> {
    rt: R,
    tasks: CountingLoop,
    ledger: Ledger,
    remote: Arc<LoopRemote>,
    alarms: RemoteAlarms<R>,
    /// The first token of each task.
    tokens: [u64; TASKS],
    count: usize,
    /// Whether a turn took longer than it may. A machine that is busy makes one so now and then.
    is_long: bool,
}

impl<R: Wait + Clock + Copy + Drop> Stage<R> {
    /// A loop without tasks.
    fn new(rt: R, alloc: Global) -> Stage<R>
    where
        R: Net + Abort,
    {
        let tasks: CountingLoop = EventLoop::new(&rt, alloc).expect(&rt, "a loop");
        let remote = tasks.remote().expect(&rt, "remote");
        let alarms = RemoteAlarms::new(rt, tasks.remote().expect(&rt, "remote"));
        let seen = Arc::new(alloc, Seen::new()).expect(&rt, "seen");
        Stage {
            rt,
            tasks,
            ledger: Ledger {
                wants: &[],
                at: 0,
                is_so: true,
                seen,
            },
            remote,
            alarms,
            tokens: [0; TASKS],
            count: 0,
            is_long: false,
        }
    }

    /// The token of a task on a side.
    fn token(&self, task: usize, side: Side) -> u64 {
        let first = self.tokens.get(task).copied().unwrap_or(0);
        match side {
            Side::First => first,
            Side::Second => first.saturating_add(1),
        }
    }

    fn puts(&mut self, yields: u32, ends_when_told: bool) -> bool {
        let task = Counting {
            number: self.count,
            yields,
            ends_when_told,
            ..WAITING
        };
        let Ok(place) = self.tasks.vacant() else {
            return false;
        };
        if let Some(token) = self.tokens.get_mut(self.count) {
            *token = place.first;
        }
        self.count = self.count.saturating_add(1);
        self.tasks.put(task).is_ok()
    }

    fn awaits(&mut self, task: usize, at: Option<u64>) -> bool {
        let token = self.token(task, Side::Second);
        let Some(named) = self.tasks.task_mut(token) else {
            return false;
        };
        named.awaits = at;
        self.tasks.keep_time(&self.ledger, token);
        true
    }

    fn comes_again(&mut self, task: usize) {
        let token = self.token(task, Side::First);
        self.tasks.again(token);
    }

    fn takes_out(&mut self, task: usize) -> bool {
        let token = self.token(task, Side::Second);
        self.tasks.take(token).is_some()
    }

    // No task has the serial of these tokens.
    fn names_nobody(&self, count: u64, at: Option<u64>) -> bool {
        let mut is_done = true;
        for token in 0..count {
            match at {
                Some(at) => is_done = self.alarms.arm(token, Dirs::Read, at).is_ok() && is_done,
                None => self.remote.tell(&self.rt, token),
            }
        }
        is_done
    }

    // From now on this is to be heard.
    fn wants(&mut self, wants: &'static [Heard]) {
        self.ledger.wants = wants;
        self.ledger.at = 0;
    }

    fn is_heard(&self) -> bool {
        self.ledger.is_so && self.ledger.at == self.ledger.wants.len()
    }

    // A turn at this moment that takes so many nanoseconds at least.
    fn turns(&mut self, now: u64, least: u64, wants: &'static [Heard]) -> bool {
        self.wants(wants);
        let Ok(start) = Instant::now(&self.rt) else {
            return false;
        };
        let is_made = self.tasks.turn(&self.rt, now, &mut self.ledger).is_ok();
        let time = nanos_since(&self.rt, start);
        self.is_long = self.is_long || (time >= LONGEST && least < LONGEST);
        is_made && time >= least && self.is_heard()
    }

    fn ends_all(&mut self, wants: &'static [Heard]) -> bool {
        self.wants(wants);
        self.tasks.end_all(&mut self.ledger);
        self.is_heard() && self.tasks.len() == 0
    }

    /// Takes a step, and says whether what came of it is what has to.
    fn takes(&mut self, step: Step) -> bool {
        match step {
            Step::Put(yields) => return self.puts(yields, false),
            Step::PutEnding => return self.puts(0, true),
            Step::Again(task) => self.comes_again(task),
            Step::Await(task, at) => return self.awaits(task, at),
            Step::Tell(task) => self.remote.tell(&self.rt, self.token(task, Side::First)),
            Step::Wake => self.remote.wake(),
            Step::Arm(task, side, dirs, at) => {
                return self.alarms.arm(self.token(task, side), dirs, at).is_ok();
            }
            Step::Lift(task, side, dirs) => self.alarms.disarm(self.token(task, side), dirs),
            Step::Nobody(count, at) => return self.names_nobody(count, at),
            Step::Take(task) => return self.takes_out(task),
            Step::EndAll(want) => return self.ends_all(want),
            Step::Turn(now, want) => return self.turns(now, 0, want),
            Step::Sleeps(now, at, want) => return self.turns(now, at.saturating_sub(now), want),
            Step::Rests => return self.turns(0, LONGEST, &[]),
        }
        true
    }
}

/// How many steps came to what they say, or none where a turn took too long.
fn played<R: Wait + Clock + Copy + Drop>(stage: &mut Stage<R>, steps: &[Step]) -> Option<usize> {
    for (at, step) in steps.iter().enumerate() {
        if !stage.takes(*step) {
            return Some(at);
        }
    }
    (!stage.is_long).then_some(steps.len())
}

/// Plays a row until no turn takes too long.
fn play<R>(rt: R, alloc: Global, steps: &[Step]) -> Option<usize>
where
    R: Wait + Net + Clock + Abort + Copy + Drop,
{
    for _ in 0..TRIES {
        let done = played(&mut Stage::new(rt, alloc), steps);
        if done.is_some() {
            return done;
        }
    }
    None
}

#[test]
fn a_loop_does_as_its_rows_say(rt: HostRuntime) {
    for (row, steps) in ROWS {
        let done = play(rt, rt.alloc(), steps);
        assert!(rt; done == Some(steps.len()), "{row}: {done:?}");
    }
}
