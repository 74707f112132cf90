//! Connections that seek a target: between two turns the next one of each is dialled, since no turn has
//! the poller to register its socket with.

ghost use Rattle.std.specs.Prelude.{◌≡◌, [], None, IfOk, IfSome};
ghost use Rattle.readiness.specs.EventLoop.{tasks_of};
ghost use Rattle.readiness.specs.Tasks.{OthersKept, task_in};
ghost use Rattle.relay_conn.specs.Others.{seekers_in};
ghost use Rattle.relay_conn.specs.Seeking.{token_of_next};
ghost use Rattle.relay_loops.specs.Turns.{StayArmed};

use crate::loop_task::LoopTask;
use crate::loops::{ConnLoop, LoopHost};
use relay_conn::seeking::NextTarget;
use relay_conn::trial::Trial;
use relay_facts::clock::Moments;
use relay_log::ended::Ended as How;
use std::net::Net;
use std::sync::Wait;
use std::sync::ledger::Ledger;
use std::time::Clock;

impl<U: Ledger, D: Ledger, R: Wait + Net + Clock + Copy> LoopHost<U, D, R> {
    /// Dials the next target of each connection that seeks one.
    pub(crate) fn dial_seekers(&mut self, tasks: &mut ConnLoop<U, D, R>)
        ensures none { seekers_in self.new.dials ≡ [] }
        ensures armed { StayArmed (tasks_of tasks.old) (tasks_of tasks.new) }
    {
        while let Some(token) = self.dials.next() {
            self.dial_next(tasks, token);
        }
    }

    // Dials the next target of the connection that this token names; or ends it, where there is none.
    fn dial_next(&mut self, tasks: &mut ConnLoop<U, D, R>, token: u64)
        ensures dials { self.new.dials ≡ self.old.dials }
        ensures others { OthersKept (tasks_of tasks.old) (tasks_of tasks.new) token }
        ensures armed { StayArmed (tasks_of tasks.old) (tasks_of tasks.new) }
    {
        match self.next_target(tasks, token) {
            Some(Ok(next)) => self.put_next(tasks, token, next),
            Some(Err(how)) => self.give_up(tasks, token, how),
            None => {}
        }
    }

    // The side of its next target, which has this token too, or how it ends; none where it seeks
    // none any more.
    fn next_target(
        &self,
        tasks: &mut ConnLoop<U, D, R>,
        token: u64,
    ) -> Option<Result<NextTarget<R>, How>>
        ensures token { IfSome result (λ next. IfOk next (λ next. token_of_next next ≡ token)) }
        ensures others { OthersKept (tasks_of tasks.old) (tasks_of tasks.new) token }
        ensures armed { StayArmed (tasks_of tasks.old) (tasks_of tasks.new) }
    {
        match self.begin_next(tasks, token)? {
            Ok(trial) => Some(self.registered(tasks, token, trial)),
            Err(how) => Some(Err(how)),
        }
    }

    // Begins a connection to its next target, or says how it ends.
    fn begin_next(&self, tasks: &mut ConnLoop<U, D, R>, token: u64) -> Option<Result<Trial, How>>
        ensures others { OthersKept (tasks_of tasks.old) (tasks_of tasks.new) token }
        ensures armed { StayArmed (tasks_of tasks.old) (tasks_of tasks.new) }
    {
        match tasks.task_mut(token) {
            Some(task) => task.next_trial(&self.context),
            None => None,
        }
    }

    // The side of what was begun, under this token, or how that ends.
    fn registered(
        &self,
        tasks: &ConnLoop<U, D, R>,
        token: u64,
        trial: Trial,
    ) -> Result<NextTarget<R>, How>
        ensures { IfOk result (λ next. token_of_next next ≡ token) }
    {
        match self
            .context
            .set_up(tasks.poller())
            .next_target(trial, token)
        {
            Ok(next) => Ok(next),
            Err(refused) => Err(refused.how()),
        }
    }

    // Has it dial its next target by this side.
    fn put_next(&mut self, tasks: &mut ConnLoop<U, D, R>, token: u64, next: NextTarget<R>)
        requires token { token_of_next next ≡ token }
        ensures dials { self.new.dials ≡ self.old.dials }
        ensures others { OthersKept (tasks_of tasks.old) (tasks_of tasks.new) token }
        ensures armed { StayArmed (tasks_of tasks.old) (tasks_of tasks.new) }
    {
        let now = self.context.clock.now();
        let Some(task) = tasks.task_mut(token) else {
            return;
        };
        task.dial_on(next, now);
        tasks.keep_time(&*self, token);
    }

    // Ends it so.
    fn give_up(&mut self, tasks: &mut ConnLoop<U, D, R>, token: u64, how: How)
        ensures gone { task_in (tasks_of tasks.new) token ≡ None }
        ensures dials { self.new.dials ≡ self.old.dials }
        ensures others { OthersKept (tasks_of tasks.old) (tasks_of tasks.new) token }
        ensures armed { StayArmed (tasks_of tasks.old) (tasks_of tasks.new) }
    {
        if let Some(task) = tasks.take(token) {
            let mut task = task;
            if let LoopTask::Connection(connection) = &mut task {
                connection.give_up(how);
            }
            self.end_task(task);
        }
    }
}
