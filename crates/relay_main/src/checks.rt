//! The checks of targets: a task for each target of a rule that has checks. The tasks follow the rules,
//! at the start and behind each reload. Where memory is refused for one, that is tried again.

ghost use Rattle.std.specs.Prelude.{◌≡◌, ◌<◌, ◌⊎◌, None, Some, [], IfErr, true, false, length};
ghost use Rattle.readiness.specs.EventLoop.{tasks_of};
ghost use Rattle.readiness.specs.Tasks.{task_in};
ghost use Rattle.relay_admin.specs.declared.serve_fault.ServeFault.{ServeFault};
ghost use Rattle.std.specs.IoError.{error_kind};
ghost use Rattle.relay_main.specs.Checks.{IsDialOf, IsSameCheck, IsToFollow, connect_cause, dial_in, dialled_of};
ghost use Rattle.relay_main.specs.Checks.{moment_behind, turn_of};

use crate::check_task::{CheckStep, CheckTask, Checked, Dial};
use crate::main_host::MainHost;
use crate::main_loop::MainLoop;
use crate::main_task::MainTask;
use crate::wanted_checks::{add_targets, place_among};
use readiness::{Poller, Turn, Why};
use relay_admin::{Addr, ServeFault};
use relay_core::{has_come, pause_end};
use relay_facts::clock::Moments;
use relay_facts::outcomes::{Came, note_outcome};
use relay_log::ended::Cause;
use relay_shared::shortage::is_shortage;
use relay_shared::socket_options::connect_out;
use std::alloc::Global;
use std::io;
use std::io::ErrorKind;
use std::net::{IpAddr, Net};
use std::sync::Wait;
use std::time::Clock;

/// How long after memory was refused for a task it is tried again.
const RETRY_MS: u64 = 1_000;

// Why a connect that failed at once did.
fn connect_cause(error: &io::Error) -> Cause
    ensures { result ≡ connect_cause (error_kind error.now) }
{
    match error.kind() {
        ErrorKind::ConnectionRefused => Cause::Refused,
        ErrorKind::TimedOut => Cause::Timeout,
        _ => Cause::Unreachable,
    }
}

// Begins a connection to a target, of whose socket the poller tells under this token.
fn dial<R: Net>(rt: &R, alloc: Global, poller: &Poller, dialled: &Dialled, token: u64) -> Dial
    ensures { IsDialOf dialled.now.at result }
{
    let mut sock = match connect_out(rt, &dialled.at, dialled.source) {
        Ok(sock) => sock,
        Err(error) if is_shortage(&error) => return Dial::Refused,
        Err(error) => return Dial::Failed(connect_cause(&error)),
    };
    if poller.register(&mut sock, token).is_err() {
        return Dial::Refused;
    }
    match sock.split(alloc) {
        Ok((_, half)) => Dial::Begun(half),
        Err(_) => Dial::Refused,
    }
}

// To where a check connects, and from where.
#[derive(Clone, Copy, Debug, PartialEq, Eq, Drop)]
struct Dialled {
    at: Addr,
    source: Option<IpAddr>,
}

// What the loop does with the task of a check after this step: where one is to be dialled, it doesn't
// sleep before that.
fn turn_after(step: CheckStep) -> Turn
    ensures { result ≡ turn_of step }
{
    match step {
        CheckStep::IsDue => Turn::Again,
        CheckStep::Waits | CheckStep::Ends(_) => Turn::Waits,
    }
}

impl<R: Wait + Clock + Copy, C: Moments> MainHost<R, C> {
    /// Has the task of a check go on.
    pub(crate) fn resume_check(&mut self, task: &mut CheckTask, why: Why) -> Turn
        ensures checked { task.new.checked ≡ task.old.checked }
        ensures place { task.new.place ≡ task.old.place }
    {
        let step = task.go_on(why);
        match step {
            CheckStep::Waits => {}
            CheckStep::IsDue => {
                // One that finds no room is due again once it would be late.
                let _ = self.due.push(task.place.first);
            }
            CheckStep::Ends(outcome) => {
                let came = Came::of_check(outcome, task.cause());
                self.note_check(&task.checked, &came);
            }
        }
        turn_after(step)
    }

    // Notes what came of a check.
    fn note_check(&self, checked: &Checked, came: &Came) {
        let rule = checked.served.rule(&self.rt);
        note_outcome(
            &self.rt,
            &self.shared.log,
            &rule,
            &checked.targets,
            checked.place,
            came,
        );
    }
}

impl CheckTask {
    // Goes on with one of these, which it takes, where that is the same check.
    fn takes_one(&mut self, wanted: &mut Vec<Checked>) -> bool
        ensures place { self.new.place ≡ self.old.place }
        ensures dial { dial_in self.new ≡ dial_in self.old }
        ensures other { result ≡ false → self.new ≡ self.old }
        ensures one { result ≡ true → 0 < length wanted.old.items }
        ensures same { result ≡ true → IsSameCheck self.new.checked self.old.checked true }
        ensures none { result ≡ false → wanted.new ≡ wanted.old }
    {
        match place_among(wanted.as_slice(), &self.checked) {
            Some(place) => {
                self.checked = wanted.swap_remove(place);
                true
            }
            None => false,
        }
    }
}

impl<R: Wait + Clock + Copy> MainLoop<R> {
    // All targets that are to be checked.
    fn wanted_checks(&self) -> Result<Vec<Checked>, ServeFault>
        ensures { IfErr result (λ fault. fault ≡ ServeFault.Memory) }
    {
        let rt = self.host.rt;
        let mut all = Vec::new(self.alloc);
        for served in self.host.shared.rules.lock(&rt).iter() {
            add_targets(&rt, &mut all, served)?;
        }
        Ok(all)
    }

    // Has the task with this token go on with one of these, which it takes, where that is the same
    // check. It may be of a new list of the rule's, and of a new account.
    fn takes_wanted(&mut self, token: u64, wanted: &mut Vec<Checked>) -> bool
        ensures kept { self.new.checking ≡ self.old.checking }
        ensures listening { self.new.listening ≡ self.old.listening }
        ensures paths { self.new.paths ≡ self.old.paths }
        ensures one { result ≡ true → 0 < length wanted.old.items }
        ensures none { result ≡ false → wanted.new ≡ wanted.old }
    {
        match self.tasks.task_mut(token) {
            Some(MainTask::Check(task)) => task.takes_one(wanted),
            _ => false,
        }
    }

    // Ends the checks that aren't among these, and takes those that are out of them.
    fn end_others(&mut self, wanted: &mut Vec<Checked>)
        ensures all { wanted.old.items ≡ [] → self.new.checking.items ≡ [] }
        ensures listening { self.new.listening ≡ self.old.listening }
        ensures paths { self.new.paths ≡ self.old.paths }
    {
        let mut at = 0;
        while at < self.checking.len() {
            let token = self.checking[at];
            if self.takes_wanted(token, wanted) {
                at += 1;
            } else {
                self.checking.swap_remove(at);
                drop(self.tasks.take(token));
            }
        }
    }

    // Has a task check this target from now on.
    fn hold_check(&mut self, checked: Checked, now: u64) -> Result<(), ServeFault>
        ensures { IfErr result (λ fault. fault ≡ ServeFault.Memory) }
    {
        let Ok(place) = self.tasks.vacant() else {
            return Err(ServeFault::Memory);
        };
        self.checking.push(place.first)?;
        match self
            .tasks
            .put(MainTask::Check(CheckTask::new(checked, place, now)))
        {
            Ok(_) => {
                self.tasks.keep_time(&self.host, place.first);
                Ok(())
            }
            Err(_) => Err(ServeFault::Memory),
        }
    }

    // Has the tasks follow the rules; or some of them, where memory is refused.
    fn try_follow(&mut self, now: u64) -> Result<(), ServeFault>
        ensures { IfErr result (λ fault. fault ≡ ServeFault.Memory) }
    {
        let mut wanted = self.wanted_checks()?;
        self.end_others(&mut wanted);
        for checked in wanted {
            self.hold_check(checked, now)?;
        }
        Ok(())
    }

    /// Has the tasks follow the rules, where these may have changed since.
    pub(crate) fn follow_checks(&mut self, now: u64)
        ensures early { (IsToFollow self.old.follow_at now → ⊥) → self.new ≡ self.old }
        ensures again { IsToFollow self.old.follow_at now → (self.new.follow_at ≡ None)
            ⊎ (self.new.follow_at ≡ Some (moment_behind now 1000)) }
    {
        if !has_come(self.follow_at, now) {
            return;
        }
        self.follow_at = match self.try_follow(now) {
            Ok(()) => None,
            Err(_) => Some(pause_end(now, RETRY_MS)),
        };
    }

    /// Ends all checks for good.
    pub(crate) fn end_checks(&mut self)
        ensures none { self.new.follow_at ≡ None }
        ensures all { self.new.checking.items ≡ [] }
        ensures listening { self.new.listening ≡ self.old.listening }
    {
        let mut none = Vec::new(self.alloc);
        self.end_others(&mut none);
        self.follow_at = None;
    }

    // To where the check that has this token connects, and from where.
    fn dialled_by(&self, token: u64) -> Option<Dialled>
        ensures { result ≡ dialled_of (task_in (tasks_of self.now.tasks) token) }
    {
        match self.tasks.task(token) {
            Some(MainTask::Check(task)) => Some(Dialled {
                at: task.checked.at,
                source: task.checked.source,
            }),
            _ => None,
        }
    }
}

impl<R: Wait + Net + Clock + Copy> MainLoop<R> {
    /// Dials the checks that are due.
    pub(crate) fn dial_checks(&mut self)
        ensures none { self.new.host.due.items ≡ [] }
    {
        while let Some(token) = self.host.due.pop() {
            self.dial_check(token);
        }
    }

    // Dials the check that has this token.
    fn dial_check(&mut self, token: u64)
        ensures kept { self.new.host ≡ self.old.host }
    {
        let Some(dialled) = self.dialled_by(token) else {
            return;
        };
        let poller = self.tasks.poller();
        let dial = dial(&self.host.rt, self.alloc, poller, &dialled, token);
        let Some(MainTask::Check(task)) = self.tasks.task_mut(token) else {
            return;
        };
        if let Some(outcome) = task.begin(dial) {
            let came = Came::of_check(outcome, task.cause());
            self.host.note_check(&task.checked, &came);
        }
        self.tasks.keep_time(&self.host, token);
    }
}
