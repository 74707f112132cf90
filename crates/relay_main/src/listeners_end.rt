//! How listeners end: those of some rules, and those of all tasks at the relay's end.

ghost use Rattle.std.specs.Prelude.{◌≡◌, ◌≢◌, ℕ, None};
ghost use Rattle.readiness.specs.EventLoop.{tasks_of};
ghost use Rattle.readiness.specs.LoopToken.{place_in};
ghost use Rattle.readiness.specs.Tasks.{task_in};
ghost use Rattle.relay_main.specs.ListenersEnd.{AreEnded};

use crate::main_host::MainHost;
use crate::main_loop::MainLoop;
use crate::main_task::MainTask;
use crate::rule_listeners::Listening;
use readiness::EventLoop;
use relay_facts::clock::Moments;
use std::sync::Wait;
use std::time::Clock;

/// What becomes of the clients that wait in the system's queue for a listener that ends.
#[derive(Clone, Copy, Debug, PartialEq, Eq, Drop)]
pub(crate) enum LastClients {
    /// They are accepted first.
    AreLetIn,
    /// The close resets them.
    AreReset,
}

/// That no accept is under way any more, and no rule listens: the end of all tasks alone makes one.
#[derive(Clone, Copy)]
pub struct AcceptsEnded {
    by_tasks: (),
}

/// Ends all tasks: the accepts that are under way end, and their listeners are closed.
pub(crate) fn end_tasks<R: Wait + Clock + Copy, C: Moments>(
    tasks: &mut EventLoop<MainTask<R>>,
    host: &mut MainHost<R, C>,
) -> AcceptsEnded
    ensures none { (token : ℕ) → task_in (tasks_of tasks.new) token ≡ None }
{
    tasks.end_all(host);
    AcceptsEnded { by_tasks: () }
}

impl<R: Wait + Clock + Copy> MainLoop<R> {
    /// Ends the rules' tasks that have these listeners, and closes these.
    pub(crate) fn end_rules(&mut self, listening: &[Listening], last: LastClients)
        ensures ended { AreEnded listening.now (tasks_of self.old.tasks) (tasks_of self.new.tasks) }
        ensures kept { self.new.listening ≡ self.old.listening }
        ensures paths { self.new.paths ≡ self.old.paths }
    {
        for one in listening {
            self.end_rule(one.token, last);
        }
    }

    /// Ends the rule's task that has this token, and closes its listener.
    pub(crate) fn end_rule(&mut self, token: u64, last: LastClients)
        ensures gone { task_in (tasks_of self.new.tasks) token ≡ None }
        ensures others { (other : ℕ) → place_in other ≢ place_in token →
            task_in (tasks_of self.new.tasks) other ≡ task_in (tasks_of self.old.tasks) other }
        ensures kept { self.new.listening ≡ self.old.listening }
        ensures paths { self.new.paths ≡ self.old.paths }
    {
        let Some(MainTask::Rule(task)) = self.tasks.take(token) else {
            return;
        };
        match last {
            LastClients::AreLetIn => self.host.let_last_in(task),
            LastClients::AreReset => {
                let _ = self.host.close_rule(task);
            }
        }
    }
}
