//! A loop of a service: a thread that has a task for each of its connections.

ghost use Rattle.std.specs.Prelude.{◌≡◌, ℕ, None, IfSome};
ghost use Rattle.readiness.specs.EventLoop.{tasks_of};
ghost use Rattle.readiness.specs.Tasks.{task_in};
ghost use Rattle.net.specs.ServeLoop.{IsBegunIn};

use crate::closer::ServiceCloser;
use crate::door::{Door, Waiting};
use crate::home::{Home, TaskPlace};
use crate::over::LoopEnd;
use crate::phase::Phase;
use crate::runs::Runs;
use crate::served::Served;
use crate::shared::Shared;
use crate::stream::Conn;
use crate::task::Task;
use fd_descriptor::{Alarms, Deadline, Dirs, PollCell};
use readiness::{
    EventLoop, Host, LoopDriver, LoopRemote, MAX_NAMED, RemoteAlarms, Side, Sock, Turn, Why,
};
use std::sync::Arc;

/// The key of the alarm at the end of the time of all tasks: no task has this token, since its
/// serial is never given.
const END_KEY: u64 = u64::MAX - 1;

/// What a loop has beside its tasks.
#[derive(Drop)]
pub(crate) struct LoopHost<T: Task<R>, R: Runs> {
    pub(crate) shared: Arc<Shared<R>>,
    pub(crate) remote: Arc<LoopRemote>,
    pub(crate) alarms: RemoteAlarms<R>,
    pub(crate) door: Arc<Door>,
    pub(crate) closer: ServiceCloser<R>,
    /// How far its service had come when it looked last.
    pub(crate) phase: Phase,
    /// Of which the task of each connection begins.
    pub(crate) task: T,
}

impl<T: Task<R>, R: Runs> Host for LoopHost<T, R> {
    ghost use Rattle.std.specs.Prelude.{None};
    ghost use Rattle.net.specs.ServeLoop.{cell_on};

    type Task = Served<T, R>;

    // A task awaits no moment of its own.
    ghost awaited = { λ _. None };

    // The first token has the deadlines of the connection, the second the time of the task.
    ghost has_cell = { λ _ task side cell. cell ≡ cell_on task side };

    fn cell<'a>(&self, task: &'a Served<T, R>, side: Side) -> Option<&'a PollCell> {
        match side {
            Side::First => Some(&*task.cell),
            Side::Second => None,
        }
    }

    fn resume(&mut self, task: &mut Served<T, R>, why: Why) -> Turn {
        let ending = self.phase.is_ending();
        task.go_on(
            &self.shared.rt,
            self.shared.now(),
            &self.alarms,
            why,
            ending,
        )
    }

    fn until(&self, _task: &Served<T, R>) -> Option<u64> {
        None
    }

    fn over(&mut self, task: Served<T, R>) {
        let _ = task.close(&self.alarms);
    }
}

impl<T: Task<R>, R: Runs> LoopHost<T, R> {
    // Begins a task for a connection. Where anything is refused the connection is closed.
    fn set_up(&mut self, tasks: &mut EventLoop<Served<T, R>>, sock: Sock) -> Option<()>
        ensures begun { IfSome result (λ _. IsBegunIn T.begins self.old.task (tasks_of tasks.new)) }
    {
        let place = tasks.vacant().ok()?;
        let Ok(task) = self.task.begin(self.shared.alloc) else {
            return None;
        };
        let peer = sock.peer();
        let home = Home::Loop(TaskPlace {
            poller: tasks.poller(),
            remote: &self.remote,
            token: place.first,
            closer: &self.closer,
        });
        let conn = Conn::hold(&self.shared, sock, peer, &home).ok()?;
        let served = Served::new(task, conn, place)?;
        match tasks.put(served) {
            Ok(place) => {
                tasks.again(place.first);
                Some(())
            }
            Err(served) => {
                self.over(served);
                None
            }
        }
    }

    // Has the loop look again at the end of its time. Where the alarm is refused memory it looks
    // within a second all the same, for as long as a turn takes at most.
    fn set_end(&self, until: Deadline) {
        if let Deadline::At(at) = until {
            let _ = self.alarms.arm(END_KEY, Dirs::Read, at);
        }
    }

    // Has all tasks go on once: more are named than a loop lists, so it resumes all.
    fn name_all(&self) {
        for token in 0..=MAX_NAMED {
            self.remote.tell(&self.shared.rt, token as u64);
        }
    }

    // Hears how far its service has come.
    fn hear(&mut self, phase: Phase)
        ensures heard { self.new.phase ≡ phase }
    {
        if phase.until != self.phase.until {
            self.set_end(phase.until);
        }
        if phase.is_ending() && !self.phase.is_ending() {
            self.name_all();
        }
        self.phase = phase;
    }

    // Turns until the loop has done its part, the door is shut, or the poller fails.
    fn turn_until_over(&mut self, tasks: &mut EventLoop<Served<T, R>>) {
        let rt = self.shared.rt;
        for _ in rt.forever() {
            let now = self.shared.now();
            if tasks.turn(&rt, now, self).is_err() {
                return;
            }
            let Some(Waiting { socks, phase }) = self.door.take(&rt, self.shared.alloc) else {
                return;
            };
            self.hear(phase);
            for sock in socks {
                let _ = self.set_up(tasks, sock);
            }
            // (the clock is read anew, since the turn may have waited for this moment)
            if phase.is_ending() && phase.has_ended(self.shared.now(), tasks.len()) {
                return;
            }
        }
    }
}

/// A loop from its first turn to its end, at which it closes what it has, and gives what is left,
/// with the number of those that it closed then.
pub(crate) fn run<T: Task<R>, R: Runs>(
    driver: LoopDriver,
    host: LoopHost<T, R>,
) -> (EventLoop<Served<T, R>>, usize)
    ensures none { (token : ℕ) → task_in (tasks_of result.0) token ≡ None }
{
    let mut host = host;
    let mut tasks = EventLoop::on(driver);
    host.turn_until_over(&mut tasks);
    let rt = host.shared.rt;
    host.door.shut(&rt);
    let cut = tasks.len();
    tasks.end_all(&mut host);
    (tasks, cut)
}

/// The same for its thread, as the end that it gives.
pub(crate) fn run_to_end<T: Task<R>, R: Runs>(driver: LoopDriver, host: LoopHost<T, R>) -> LoopEnd {
    let (tasks, cut) = run(driver, host);
    LoopEnd::of(tasks, cut)
}
