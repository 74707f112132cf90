//! What a loop shares with other threads: the list of the tasks that they name, its timers, and how
//! it is woken.
//!
//! No wake-up is lost. A task waits only after a try that would block, and each edge after that try
//! is told by the loop's next poll. Who acts from another thread acts first (it closes, sets a
//! deadline), then names the task, then swaps `sleeps`, and wakes the loop where it was set. A loop
//! that is about to wait sets `sleeps`, and then looks once more at `named`, which is set with each
//! naming, and at `first`, the least moment of the timers, which is stored under their lock with
//! each change. So of a naming and that last look one comes first. Comes the naming first, then the
//! loop sees it and doesn't wait. Comes the look first, then `sleeps` was set before the naming, and
//! whoever swaps it next, the namer or one who swapped before it and hasn't woken yet, wakes the
//! loop; or the loop has unset it, after its wait, and then it takes the list before it waits
//! again. It is the same for a moment and `first`. The loop unsets `named` before it takes the list:
//! a name that comes between is taken, or sets `named` again.
//!
//! What a program keeps of its own beside the loop, as a list of new connections or a word that it
//! is to stop, is looked at between two turns. Who wakes the loop for such a thing sets `woken`
//! before it swaps `sleeps`, and a loop that finds it set after it has set `sleeps` doesn't wait.
//! It is unset once the loop has waited, before the program looks: what was there before that is
//! seen by this look, and what comes later sets it again. All accesses of the flags and of `first`
//! are `SeqCst`. So a turn in which nothing is due and nobody was named takes no lock here.

ghost use Rattle.std.specs.Prelude.{◌≡◌, ◌<◌, ◌+◌, ◌*◌, ℕ, true, IfOk, IfSome};
ghost use Rattle.std.specs.Arc.{arc_value};
ghost use Rattle.readiness.specs.EventLoop.{remote_of, waker_behind};

use crate::due_timers::{DueTimers, TimersDone};
use crate::named_tasks::NamedTasks;
use crate::poll_timeout::sleep_ms;
use crate::timer_alarms::{arm_in, comes_first, disarm_in};
use base_types::OutOfMemory;
use deadline_core::{Dirs, Timers, earlier};
use fd_descriptor::Alarms;
use mio::Waker;
use std::alloc::{Allocator, Global};
use std::sync::atomic::{AtomicBool, AtomicU64, Ordering};
use std::sync::{Arc, Mutex, Wait};

/// The remote of a loop, by which other threads reach its tasks.
#[derive(Drop)]
pub struct LoopRemote<A: Allocator = Global> {
    waker: Arc<Waker, A>,
    timers: Mutex<Timers<A>>,
    // The least moment of the timers, or the last there is where none is armed.
    first: AtomicU64,
    told: Mutex<NamedTasks<A>>,
    // Whether a task was named since the loop took the names last.
    named: AtomicBool,
    sleeps: AtomicBool,
    woken: AtomicBool,
}

impl<A: Allocator> LoopRemote<A> {
    /// The remote of the loop with this waker. Its memory, but for the timers', is taken here.
    pub(crate) fn new(alloc: A, waker: Arc<Waker, A>) -> Result<LoopRemote<A>, OutOfMemory>
    where
        A: Copy,
        ensures waker { IfOk result (λ remote. waker_behind remote ≡ arc_value waker) }
    {
        let Ok(told) = NamedTasks::new(alloc) else {
            return Err(OutOfMemory);
        };
        Ok(LoopRemote {
            waker,
            timers: Mutex::new(Timers::new_in(alloc)),
            first: AtomicU64::new(u64::MAX),
            told: Mutex::new(told),
            named: AtomicBool::new(false),
            sleeps: AtomicBool::new(false),
            woken: AtomicBool::new(false),
        })
    }

    /// Has the loop resume the task of this token, with `Why::Named`: for who did something to it.
    /// A token that names no task is passed over. It takes no memory; where too many tasks are
    /// named between two looks, all of the loop's are resumed.
    pub fn tell<R: Wait>(&self, rt: &R, token: u64) {
        let mut told = self.told.lock(rt);
        told.tell(token);
        self.named.store(true, Ordering::SeqCst);
        drop(told);
        self.rouse();
    }

    /// Has the loop end its wait, or not wait in its next turn: for who left something where the
    /// program looks after each turn.
    pub fn wake(&self) {
        self.woken.store(true, Ordering::SeqCst);
        self.rouse();
    }

    // Wakes the loop if it sleeps or is about to.
    fn rouse(&self) {
        if self.sleeps.swap(false, Ordering::SeqCst) {
            // A poller that can't be woken wakes by itself within `MAX_WAIT_MS`.
            let _ = self.waker.wake();
        }
    }

    /// How long the loop may sleep, from the moment at which it was done with its timers. It is about
    /// to unless a task gave way, and its tasks have their first alarm at `own`.
    pub(crate) fn may_sleep(&self, done: &TimersDone, own: Option<u64>, gave_way: bool) -> u64
        ensures awake { gave_way ≡ true → result ≡ 0 }
        ensures in_time { IfSome own (λ at. (less : ℕ) → less < result
            → done.now.moment + 1000000 * less < at) }
    {
        self.sleeps.store(true, Ordering::SeqCst);
        let is_woken = self.woken.load(Ordering::SeqCst);
        let is_told = self.named.load(Ordering::SeqCst);
        let first = self.first.load(Ordering::SeqCst);
        let has_more = gave_way || is_woken || is_told;
        sleep_ms(done.moment(), earlier(own, Some(first)), has_more)
    }

    /// The loop has waited.
    pub(crate) fn has_slept(&self) {
        self.sleeps.store(false, Ordering::SeqCst);
        self.woken.store(false, Ordering::SeqCst);
    }

    /// Takes out what was told, in place of `taken`, and says whether all tasks are named.
    pub(crate) fn take_told<R: Wait>(&self, rt: &R, taken: &mut Vec<u64, A>) -> bool {
        if !self.named.load(Ordering::SeqCst) {
            taken.clear();
            return false;
        }
        self.named.store(false, Ordering::SeqCst);
        self.told.lock(rt).take(taken)
    }

    /// That no timer is due at `now`, where none is: then the lock isn't taken.
    pub(crate) fn none_due(&self, now: u64) -> Option<TimersDone>
        ensures { IfSome result (λ done. done.moment ≡ now) }
    {
        TimersDone::none_due(self.first.load(Ordering::SeqCst), now)
    }

    /// Takes out the timers that are due.
    pub(crate) fn due<R: Wait>(&self, rt: &R, now: u64) -> DueTimers
        ensures moment { result.moment ≡ now }
    {
        let mut timers = self.timers.lock(rt);
        let due = DueTimers::take(&mut *timers, now);
        self.note_first(&timers);
        due
    }

    // Notes the least moment of the timers, whose lock the caller holds.
    fn note_first(&self, timers: &Timers<A>) {
        let first = timers.next().unwrap_or(u64::MAX);
        self.first.store(first, Ordering::SeqCst);
    }
}

/// Alarms on the timers of a loop, for any thread: a due one resumes the task whose token is its
/// key.
#[derive(Drop)]
pub struct RemoteAlarms<R: Wait + Drop, A: Allocator = Global> {
    rt: R,
    remote: Arc<LoopRemote<A>, A>,
}

impl<R: Wait + Drop, A: Allocator> RemoteAlarms<R, A> {
    /// Alarms on the timers behind this remote.
    pub fn new(rt: R, remote: Arc<LoopRemote<A>, A>) -> RemoteAlarms<R, A>
        ensures { remote_of result ≡ arc_value remote }
    {
        RemoteAlarms { rt, remote }
    }
}

impl<R: Wait + Drop, A: Allocator + Copy> Alarms for RemoteAlarms<R, A> {
    // It wakes the loop with the timers' lock held, so that of two threads which arm, the one whose
    // moment is the earliest has woken it when it goes.
    fn arm(&self, key: u64, dirs: Dirs, at: u64) -> Result<(), OutOfMemory> {
        let mut timers = self.remote.timers.lock(&self.rt);
        let is_first = comes_first(&timers, at);
        arm_in(&mut *timers, key, dirs, at)?;
        self.remote.note_first(&timers);
        if is_first {
            self.remote.rouse();
        }
        Ok(())
    }

    fn disarm(&self, key: u64, dirs: Dirs) {
        let mut timers = self.remote.timers.lock(&self.rt);
        disarm_in(&mut *timers, key, dirs);
        self.remote.note_first(&timers);
    }
}
