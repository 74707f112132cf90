//! What a loop has for tasks, and what is asked of one that is a connection.

ghost use Rattle.std.specs.Prelude.{◌≡◌, ◌↔◌, true, Some, IfSome, OnOk};
ghost use Rattle.relay_loops.specs.LoopTask.{HasId, TaskDials, TaskTold, awaited_by_task};
ghost use Rattle.relay_loops.specs.LoopTask.{connection_as};
ghost use Rattle.relay_loops.specs.Requests.{TellsDeadline, TellsDrain};
ghost use Rattle.relay_shared.specs.declared.requests.Answer.{Answer};

use crate::loops::LoopContext;
use deadline_core::Deadline;
use readiness::Side;
use relay_conn::awaited::Awaiting;
use relay_conn::connection::Connection;
use relay_conn::seeking::NextTarget;
use relay_conn::trial::Trial;
use relay_log::ended::Ended as How;
use rwloops::Fault;
use std::net::Net;
use std::sync::Wait;
use std::sync::ledger::Ledger;
use std::time::Clock;

/// A task of a loop.
#[derive(Drop)]
pub(crate) enum LoopTask<U: Ledger, D: Ledger, R: Wait + Clock + Copy> {
    /// A client that is to say first who it is.
    Awaiting(Awaiting),
    /// A connection.
    Connection(Connection<U, D, R>),
}

impl<U: Ledger, D: Ledger, R: Wait + Clock + Copy> LoopTask<U, D, R> {
    /// Whether it is the connection with this id on that side.
    pub(crate) fn has_id(&self, side: Side, id: u64) -> bool
        ensures { result ≡ true ↔ HasId self.now side id }
    {
        match self {
            LoopTask::Awaiting(_) => false,
            LoopTask::Connection(connection) => connection.id(side) == id,
        }
    }

    /// Drains a side of it, if it is a connection.
    pub(crate) fn drain(&mut self, rt: &R, side: Side) -> Option<Result<(), Fault>>
        ensures told { TellsDrain (connection_as (Some self.old)) side (Answer.Drain result) }
        ensures awaits { awaited_by_task self.new ≡ awaited_by_task self.old }
    {
        match self {
            LoopTask::Awaiting(_) => None,
            LoopTask::Connection(connection) => Some(connection.drain(rt, side)),
        }
    }

    /// Sets the deadline of a side of it, if it is a connection. It is to be told of the moment next.
    pub(crate) fn set_deadline(
        &mut self,
        side: Side,
        deadline: Deadline,
    ) -> Option<Result<(), Fault>>
        ensures told { TellsDeadline (connection_as (Some self.old)) (Answer.Deadline result) }
        ensures set { IfSome result (λ done. OnOk done (TaskTold self.old self.new side deadline)) }
    {
        match self {
            LoopTask::Awaiting(_) => None,
            LoopTask::Connection(connection) => Some(connection.set_deadline(side, deadline)),
        }
    }

    /// Begins a connection to the next target of one that seeks one, or says how it ends.
    pub(crate) fn next_trial(&mut self, context: &LoopContext<R>) -> Option<Result<Trial, How>>
    where
        R: Net,
        ensures awaits { awaited_by_task self.new ≡ awaited_by_task self.old }
    {
        match self {
            LoopTask::Awaiting(_) => None,
            LoopTask::Connection(connection) => {
                connection.next_trial(&context.rt, &context.shared.log)
            }
        }
    }

    /// Has one that seeks a target dial it by this side.
    pub(crate) fn dial_on(&mut self, next: NextTarget<R>, now: u64)
        ensures { TaskDials self.old self.new next now }
    {
        match self {
            LoopTask::Awaiting(_) => drop(next),
            LoopTask::Connection(connection) => connection.dial_on(next, now),
        }
    }
}
