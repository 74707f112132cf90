//! A loop whose tasks other threads name, or set moments for, in any state of the loop: while it
//! sleeps, while it runs, and just before it sleeps. A wake-up that is lost costs a second.

use super::counting::{CountingLoop, Ledger, Seen, WAITING};
use super::{LONGEST, TRIES, comes_to, nanos_since, pause};
use fd_descriptor::{Alarms, Dirs};
use readiness::{EventLoop, LoopRemote, RemoteAlarms};
use std::alloc::Global;
use std::net::Net;
use std::process::Abort;
use std::sync::atomic::Ordering;
use std::sync::{Arc, Wait};
use std::thread;
use std::thread::{JoinHandle, Threads};
use std::time::{Clock, Instant};

/// A moment that never comes in a test.
const FAR: u64 = 1_000_000_000_000_000;

/// How many alarms come later than the first.
const LATER_ALARMS: u64 = 50;

/// How often a thread tells its task.
const ROUNDS: u64 = 400;

/// What another thread does.
#[derive(Clone, Copy)]
enum Role {
    /// It ends sleeps of the loop by each call, and then has no reason to.
    Wakes,
    /// It tells its task again and again, each time after the last was heard.
    Tells,
}

/// What may end a sleep.
#[derive(Clone, Copy)]
enum Call {
    Wake,
    Tell,
    /// An alarm of the task for this moment.
    Arm(u64),
}

/// What the other thread has of the loop and of its task.
#[derive(Drop)]
struct Other<R: Wait + Drop> {
    remote: Arc<LoopRemote>,
    alarms: RemoteAlarms<R>,
    token: u64,
    number: usize,
    seen: Arc<Seen>,
}

impl<R: Wait + Clock + Drop> Other<R> {
    fn makes(&self, rt: &R, call: Call) -> bool {
        match call {
            Call::Wake => self.remote.wake(),
            Call::Tell => self.remote.tell(rt, self.token),
            Call::Arm(at) => return self.alarms.arm(self.token, Dirs::Read, at).is_ok(),
        }
        true
    }

    // How long it takes until the turn ends that is under way as this call comes.
    fn time_of(&self, rt: &R, call: Call) -> u64 {
        let Ok(start) = Instant::now(rt) else {
            return u64::MAX;
        };
        let turns = self.seen.turns.load(Ordering::SeqCst);
        if self.makes(rt, call) && comes_to(rt, &self.seen.turns, turns.saturating_add(1)) {
            return nanos_since(rt, start);
        }
        u64::MAX
    }

    // Whether one of these calls ends a sleep before its time. The first comes at any time of a
    // sleep, and the others at the beginning of one: where the machine is busy, or the loop didn't
    // sleep yet, one takes long now and then; where nobody is woken each does.
    fn ends_a_sleep(&self, rt: &R, call: Call) -> bool {
        for time in 0..u64::from(TRIES) {
            let call = match call {
                Call::Arm(at) => Call::Arm(at.saturating_sub(time)),
                other => other,
            };
            if self.time_of(rt, call) < LONGEST && time > 0 {
                return true;
            }
            pause(rt, 10 * time + 1);
        }
        false
    }

    // Whether alarms that come later than the first leave the loop asleep: it makes the turns alone
    // that it would make without them.
    fn sleeps_on(&self, rt: &R) -> bool {
        let Ok(start) = Instant::now(rt) else {
            return false;
        };
        let turns = self.seen.turns.load(Ordering::SeqCst);
        for time in 0..LATER_ALARMS {
            if self
                .alarms
                .arm(self.token, Dirs::Write, FAR + time)
                .is_err()
            {
                return false;
            }
            pause(rt, 1);
        }
        let made = self.seen.turns.load(Ordering::SeqCst).saturating_sub(turns);
        made <= (nanos_since(rt, start) / LONGEST).saturating_add(2)
    }

    // What isn't so, or nothing.
    fn wakes(&self, rt: &R) -> &'static str {
        // A timer is armed first, so that none is armed into an empty list.
        if !self.makes(rt, Call::Arm(FAR)) {
            return "an alarm is armed";
        }
        if !self.ends_a_sleep(rt, Call::Wake) {
            return "a wake ends a sleep";
        }
        if !self.ends_a_sleep(rt, Call::Tell) {
            return "a name ends a sleep";
        }
        if !self.ends_a_sleep(rt, Call::Arm(FAR - 1)) {
            return "a moment before all others ends a sleep";
        }
        if !self.sleeps_on(rt) {
            return "an alarm that comes later wakes nobody";
        }
        ""
    }

    // Looks at the count so often before it waits by the millisecond, so that some rounds meet a
    // loop that runs or is about to sleep, and others one that sleeps.
    fn is_heard(&self, rt: &R, round: u64) -> bool {
        let Some(times) = self.seen.times.get(self.number) else {
            return false;
        };
        for _ in 0..(round % 8).saturating_mul(2_000) {
            if times.load(Ordering::SeqCst) >= round {
                return true;
            }
        }
        comes_to(rt, times, round)
    }

    // Tells the task, by its name in even rounds and by a moment that is past in odd ones.
    fn tells(&self, rt: &R) -> &'static str {
        for round in 1..ROUNDS + 1 {
            let call = if round % 2 == 0 {
                Call::Tell
            } else {
                Call::Arm(0)
            };
            if !self.makes(rt, call) || !self.is_heard(rt, round) {
                return "each name and each moment is heard";
            }
        }
        ""
    }

    fn plays(&self, rt: &R, role: Role) -> &'static str {
        let wrong = match role {
            Role::Wakes => self.wakes(rt),
            Role::Tells => self.tells(rt),
        };
        self.seen.ended.fetch_add(1, Ordering::SeqCst);
        self.remote.wake();
        wrong
    }
}

/// A task of a loop, and a thread that has it.
fn start<R>(
    rt: R,
    tasks: &mut CountingLoop,
    seen: &Arc<Seen>,
    (number, role): (usize, Role),
) -> JoinHandle<&'static str>
where
    R: Wait + Threads + Clock + Abort + Copy + Drop + Send + Sync + 'static,
{
    let other = Other {
        remote: tasks.remote().expect(&rt, "remote"),
        alarms: RemoteAlarms::new(rt, tasks.remote().expect(&rt, "remote")),
        token: tasks.vacant().expect(&rt, "a place").second,
        number,
        seen: Arc::try_clone(seen).expect(&rt, "seen"),
    };
    let mut task = WAITING;
    task.number = number;
    super::holds(&rt, tasks.put(task).is_ok(), "put");
    thread::spawn(&rt, move || other.plays(&rt, role)).expect(&rt, "thread")
}

/// Turns until so many threads have ended, and says whether each turn was made.
fn turns_on<R>(rt: &R, tasks: &mut CountingLoop, ledger: &mut Ledger, threads: u64) -> bool
where
    R: Wait + Clock,
{
    for _ in rt.forever() {
        if ledger.seen.ended.load(Ordering::SeqCst) >= threads {
            return true;
        }
        // A moment of 0 is past, and FAR is to come.
        if tasks.turn(rt, 1, ledger).is_err() {
            return false;
        }
        ledger.seen.turns.fetch_add(1, Ordering::SeqCst);
    }
    unreachable!()
}

/// Turns a loop beside threads that play these roles.
fn play<R>(rt: R, alloc: Global, roles: &[Role])
where
    R: Wait + Threads + Net + Clock + Abort + Copy + Drop + Send + Sync + 'static,
{
    let seen = Arc::new(alloc, Seen::new()).expect(&rt, "seen");
    let mut tasks: CountingLoop = EventLoop::new(&rt, alloc).expect(&rt, "a loop");
    let mut threads = Vec::new(alloc);
    for part in roles.iter().enumerate() {
        let (number, role) = part;
        let thread = start(rt, &mut tasks, &seen, (number, *role));
        threads.push(thread).expect(&rt, "room");
    }
    let mut ledger = Ledger {
        wants: &[],
        at: 0,
        is_so: true,
        seen,
    };
    let is_turned = turns_on(&rt, &mut tasks, &mut ledger, roles.len() as u64);
    for thread in threads {
        let wrong = thread.join(&rt);
        super::holds(&rt, is_turned && wrong == "", wrong);
    }
}

#[test]
fn a_loop_that_sleeps_is_woken_by_who_has_a_reason_and_by_nobody_else(rt: HostRuntime) {
    play(rt, rt.alloc(), &[Role::Wakes]);
}

#[test]
fn no_naming_and_no_moment_is_lost(rt: HostRuntime) {
    play(rt, rt.alloc(), &[Role::Tells, Role::Tells, Role::Tells]);
}
