//! A poller: how long its turns sleep, what ends them, who is ticked, and whom its waits take.

ghost use Rattle.std.specs.Prelude.{◌≡◌};
ghost use Rattle.std.specs.Arc.{arc_value};

use super::{AHEAD, LATER, LONGEST, TRIES, client_of, holds, listening, nanos_since, socks};
use fd_descriptor::{Alarms, Deadline, Dirs, Fault, FdHandle, PollCell, Resource, TaskReader};
use readiness::{ConnTable, HasCell, Holds, Poller, TimerAlarms, Timers};
use std::alloc::Global;
use std::io;
use std::net::Net;
use std::process::Abort;
use std::sync::{Arc, Mutex, Wait};
use std::time::{Clock, Instant};

/// What a table holds of a descriptor, of a connection or of a listener. The test alone has
/// handles.
#[derive(Drop)]
struct Entry {
    cell: Arc<PollCell>,
}

impl HasCell for Entry {
    ghost cell_in = { λ entry. arc_value entry.cell };

    fn cell(&self) -> &PollCell {
        &*self.cell
    }
}

impl<X: Resource> Holds<X> for Entry {
    fn holding(cell: Arc<PollCell>, _handle: FdHandle<X>) -> Entry
        ensures tells { arc_value result.cell ≡ arc_value cell }
    {
        Entry { cell }
    }
}

/// A step, of keys that nobody has.
#[derive(Clone, Copy)]
enum Step {
    Arm(Dirs, u64),
    Lift(Dirs),
    Wake,
    /// A wait without a table, of so many nanoseconds at least.
    WaitAny(u64),
    /// A turn at the first moment that sleeps until the second, and no longer.
    Turn(u64, u64),
    /// A turn that sleeps as long as it may.
    Rests,
    /// The moment of the first timer.
    Next(Option<u64>),
}

use Step::{Arm, Lift, Next, Rests, Turn, WaitAny, Wake};

const ROWS: &[(&str, &[Step])] = &[
    ("a wake ends a turn", &[Wake, Turn(0, 0), Wake, Turn(0, 0)]),
    (
        "a wake ends a wait without a table, which else rests",
        &[Wake, WaitAny(0), WaitAny(LONGEST)],
    ),
    (
        "a moment before all others wakes the poller, and no other does",
        &[
            Arm(Dirs::Write, LATER + 2 * AHEAD),
            Turn(0, 0),
            Arm(Dirs::Read, LATER + 2 * AHEAD),
            Turn(LATER + AHEAD, LATER + 2 * AHEAD),
            Arm(Dirs::Read, LATER + AHEAD),
            Turn(0, 0),
        ],
    ),
    (
        "a turn sleeps until the next moment and no longer, by the clock that it is shown",
        &[
            Arm(Dirs::Read, LATER + AHEAD),
            Turn(0, 0),
            Turn(LATER, LATER + AHEAD),
            Turn(LATER + AHEAD / 2, LATER + AHEAD),
        ],
    ),
    (
        "a turn that ticked what was due sleeps until the moment after it",
        &[
            Arm(Dirs::Read, LATER),
            Arm(Dirs::Write, LATER + AHEAD),
            Turn(0, 0),
            Turn(LATER, LATER + AHEAD),
            Next(Some(LATER + AHEAD)),
        ],
    ),
    (
        "a moment that is lifted leaves no timer, and one of the other direction stays",
        &[
            Arm(Dirs::Both, 100),
            Lift(Dirs::Read),
            Next(Some(100)),
            Lift(Dirs::Write),
            Next(None),
        ],
    ),
    ("a poller without moments rests", &[Rests]),
];

/// A poller with its table and its timers.
#[derive(Drop)]
struct Stage<R: Wait + Clock + Copy + Drop> {
    rt: R,
    poller: Poller,
    table: Mutex<ConnTable<Entry>>,
    timers: Arc<Mutex<Timers>>,
    alarms: TimerAlarms<R>,
    /// Whether a turn took longer than it may. A machine that is busy makes one so now and then.
    is_long: bool,
}

impl<R: Wait + Clock + Copy + Drop> Stage<R> {
    fn new(rt: R, alloc: Global) -> Stage<R>
    where
        R: Net + Abort,
    {
        let poller = Poller::new(&rt, alloc).expect(&rt, "poller");
        let timers = Arc::new(alloc, Mutex::new(Timers::new(alloc))).expect(&rt, "timers");
        let alarmed = Arc::try_clone(&timers).expect(&rt, "timers");
        let alarms = TimerAlarms::new(rt, alarmed, poller.waker().expect(&rt, "waker"));
        Stage {
            rt,
            poller,
            table: Mutex::new(ConnTable::new(alloc)),
            timers,
            alarms,
            is_long: false,
        }
    }

    // Whether so many nanoseconds at least have passed since this moment.
    fn took(&mut self, start: io::Result<Instant>, least: u64) -> bool {
        let Ok(start) = start else {
            return false;
        };
        let time = nanos_since(&self.rt, start);
        self.is_long = self.is_long || (time >= LONGEST && least < LONGEST);
        time >= least
    }

    // A turn at this moment that takes so many nanoseconds at least.
    fn turns(&mut self, now: u64, least: u64) -> bool {
        let start = Instant::now(&self.rt);
        let turned = self.poller.turn(&self.rt, now, &self.table, &*self.timers);
        self.took(start, least) && turned.is_ok()
    }

    fn waits(&mut self, least: u64) -> bool {
        let start = Instant::now(&self.rt);
        let waited = self.poller.wait_any();
        self.took(start, least) && waited.is_ok()
    }

    /// Takes a step, and says whether what came of it is what has to.
    fn takes(&mut self, step: Step) -> bool {
        match step {
            Arm(dirs, at) => self.alarms.arm(9, dirs, at).is_ok(),
            Lift(dirs) => {
                self.alarms.disarm(9, dirs);
                true
            }
            Wake => self.poller.waker().is_ok_and(|waker| waker.wake().is_ok()),
            WaitAny(least) => self.waits(least),
            Turn(now, until) => self.turns(now, until.saturating_sub(now)),
            Rests => self.turns(0, LONGEST),
            Next(want) => self.timers.lock(&self.rt).next() == want,
        }
    }

    /// How many steps came to what they say, or none where a turn took too long.
    fn plays(&mut self, steps: &[Step]) -> Option<usize> {
        for (at, step) in steps.iter().enumerate() {
            if !self.takes(*step) {
                return Some(at);
            }
        }
        (!self.is_long).then_some(steps.len())
    }
}

/// Plays a row until no turn takes too long.
fn play<R: Wait + Net + Clock + Abort + Copy + Drop>(
    rt: R,
    alloc: Global,
    steps: &[Step],
) -> Option<usize> {
    for _ in 0..TRIES {
        let done = Stage::new(rt, alloc).plays(steps);
        if done.is_some() {
            return done;
        }
    }
    None
}

#[test]
fn a_pollers_turns_sleep_as_their_rows_say(rt: HostRuntime) {
    for (row, steps) in ROWS {
        let done = play(rt, rt.alloc(), steps);
        assert!(rt; done == Some(steps.len()), "{row}: {done:?}");
    }
}

#[test]
fn a_turn_ticks_who_is_due_and_passes_over_a_key_without_an_entry(rt: HostRuntime) {
    let mut stage = Stage::new(rt, rt.alloc());
    let (near, far) = socks(&rt);
    let gone = stage
        .poller
        .hold(rt.alloc(), &mut *stage.table.lock(&rt), near);
    let held = stage
        .poller
        .hold(rt.alloc(), &mut *stage.table.lock(&rt), far);
    let ((_, mut gone), (_, mut handle)) = (gone.expect(&rt, "held"), held.expect(&rt, "held"));
    let set = gone
        .set_deadline(&rt, Deadline::At(100), 0, &stage.alarms)
        .is_ok()
        && handle
            .set_deadline(&rt, Deadline::At(100), 0, &stage.alarms)
            .is_ok();
    let is_removed = stage.table.lock(&rt).remove(1).is_ok();
    holds(
        &rt,
        set && is_removed && stage.turns(100, 0),
        "two are due, and one is gone",
    );
    let late = TaskReader::new(rt, handle).poll_read(&mut [0; 4]);
    holds(
        &rt,
        late == Some(Err(Fault::DeadlineExceeded)),
        "who stands there is late",
    );
    holds(
        &rt,
        stage.timers.lock(&rt).next().is_none(),
        "no timer is left",
    );
}

#[test]
fn a_turn_tells_a_listener_that_somebody_came(rt: HostRuntime) {
    let mut stage = Stage::new(rt, rt.alloc());
    let listener = listening(&rt);
    let _client = client_of(&rt, &listener);
    let held = stage
        .poller
        .hold_listener(rt.alloc(), &mut *stage.table.lock(&rt), listener);
    let (_, handle) = held.expect(&rt, "held");
    holds(
        &rt,
        stage.turns(0, 0) && !stage.is_long,
        "a turn ends at once",
    );
    let accepted = TaskReader::new(rt, handle).poll_accept();
    holds(&rt, matches!(accepted, Some(Ok(_))), "a client is taken");
}
