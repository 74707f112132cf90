//! What the main thread's loop resumes its tasks with.

ghost use Rattle.std.specs.Prelude.{◌≡◌, ◌↔◌, ℕ, true, false, Some, None, IfSome};
ghost use Rattle.std.specs.Arc.{arc_value};
ghost use Rattle.readiness.specs.EventLoop.{remote_of};
ghost use Rattle.relay_main.specs.Checks.{moment_behind};
ghost use Rattle.relay_main.specs.Pauses.{IsPausedAt};

use crate::admin_socket::Caller;
use crate::main_task::MainTask;
use deadline_core::Dirs;
use fd_descriptor::{Alarms, PollCell};
use readiness::{Host, RemoteAlarms, Side, Turn, Why};
use relay_core::{MAX_SESSIONS, pause_end};
use relay_facts::clock::Moments;
use relay_shared::shared::Shared;
use std::alloc::Global;
use std::sync::{Arc, Wait};
use std::time::Clock;

// Whether a task that pauses until then, if it does, pauses still.
fn pauses_at(paused_until: Option<u64>, now: u64) -> bool
    ensures { result ≡ true ↔ IsPausedAt paused_until now }
{
    match paused_until {
        Some(until) => now < until,
        None => false,
    }
}

/// What the main thread has beside its tasks.
#[derive(Drop)]
pub struct MainHost<R: Wait + Copy, C: Moments> {
    pub rt: R,
    pub clock: C,
    pub shared: Arc<Shared>,
    /// The sockets that were accepted for sessions, which are begun between two turns.
    pub(crate) callers: Vec<Caller>,
    /// Which places have sessions that may go on between two turns.
    pub(crate) named: [bool; MAX_SESSIONS],
    /// The tokens of the checks that are to be dialled between two turns.
    pub(crate) due: Vec<u64>,
}

impl<R: Wait + Copy, C: Moments> MainHost<R, C> {
    /// No session stands, and no check is due.
    pub(crate) fn new(rt: R, alloc: Global, clock: C, shared: Arc<Shared>) -> MainHost<R, C>
        ensures shared { result.shared ≡ shared }
    {
        MainHost {
            rt,
            clock,
            shared,
            callers: Vec::new(alloc),
            named: [false; MAX_SESSIONS],
            due: Vec::new(alloc),
        }
    }

    /// The alarms of the main thread's loop. It takes no memory.
    pub(crate) fn alarms(&self) -> Option<RemoteAlarms<R>>
        ensures own { IfSome result (λ alarms.
            remote_of alarms ≡ arc_value (arc_value self.now.shared).main) }
    {
        let remote = Arc::try_clone(&self.shared.main).ok()?;
        Some(RemoteAlarms::new(self.rt, remote))
    }

    /// Has the loop resume a task at this moment, by one of its tokens; or says that memory was
    /// refused for it.
    pub(crate) fn arm(&self, token: u64, at: u64) -> bool {
        match self.alarms() {
            Some(alarms) => alarms.arm(token, Dirs::Read, at).is_ok(),
            None => false,
        }
    }

    /// Takes back what was armed by this token.
    pub(crate) fn disarm(&self, token: u64) {
        if let Some(alarms) = self.alarms() {
            alarms.disarm(token, Dirs::Read);
        }
    }

    /// Has a task pause.
    pub(crate) fn pause(&self, paused_until: &mut Option<u64>, ms: u64)
        ensures pauses { (now : ℕ) × (paused_until.new ≡ Some (moment_behind now ms)) }
    {
        *paused_until = Some(pause_end(self.clock.now(), ms));
    }

    /// Whether a task is in its pause still, which ends at this moment, if there is one. One that is over
    /// is lifted.
    pub(crate) fn is_paused(&self, paused_until: &mut Option<u64>) -> bool
        ensures now { (now : ℕ) × (result ≡ true ↔ IsPausedAt paused_until.old now) }
        ensures over { result ≡ false → paused_until.new ≡ None }
        ensures kept { result ≡ true → paused_until.new ≡ paused_until.old }
    {
        let now = self.clock.now();
        if pauses_at(*paused_until, now) {
            return true;
        }
        *paused_until = None;
        false
    }
}

impl<R, C> Host for MainHost<R, C>
where
    R: Wait + Clock + Copy,
    C: Moments,
{
    ghost use Rattle.relay_main.specs.MainTask.{awaited_by, cell_on};

    type Task = MainTask<R>;

    ghost awaited = { awaited_by };

    ghost has_cell = { λ _ task side cell. cell ≡ cell_on task side };

    fn cell<'a>(&self, task: &'a MainTask<R>, side: Side) -> Option<&'a PollCell> {
        match (task, side) {
            (MainTask::Rule(task), Side::First) => Some(&*task.listener.cell),
            _ => None,
        }
    }

    fn resume(&mut self, task: &mut MainTask<R>, why: Why) -> Turn {
        match task {
            MainTask::Rule(task) => self.resume_rule(task),
            MainTask::Admin(task) => self.accept_sessions(task),
            MainTask::Check(task) => self.resume_check(task, why),
            MainTask::Session(place) => {
                if *place < MAX_SESSIONS {
                    self.named[*place] = true;
                }
                Turn::Waits
            }
        }
    }

    fn until(&self, task: &MainTask<R>) -> Option<u64> {
        match task {
            MainTask::Rule(task) => task.paused_until,
            MainTask::Admin(task) => task.paused_until,
            MainTask::Check(task) => Some(task.until()),
            MainTask::Session(_) => None,
        }
    }

    fn over(&mut self, task: MainTask<R>) {
        match task {
            MainTask::Rule(task) => {
                let _ = self.close_rule(task);
            }
            MainTask::Admin(task) => drop(task),
            MainTask::Check(task) => drop(task),
            MainTask::Session(_) => {}
        }
    }
}
