//! What admin sessions ask of a loop's connections: the loop carries it out on its own values,
//! between two of its turns, and answers.

ghost use Rattle.std.specs.Prelude.{◌≡◌, ◌≢◌, ◌↔◌, true, false, Some, None, IfSome};
ghost use Rattle.readiness.specs.EventLoop.{tasks_of};
ghost use Rattle.readiness.specs.LoopToken.{place_in, side_in};
ghost use Rattle.readiness.specs.TaskAlarms.{AreArmed, AreArmedBut, KeepsArmed};
ghost use Rattle.readiness.specs.Tasks.{task_in, OthersKept, SameTasks};
ghost use Rattle.readiness.specs.Tasks.{gave_way_in, ComesNext};
ghost use Rattle.readiness.specs.declared.tasks.Turn.{Turn};
ghost use Rattle.relay_loops.specs.LoopTask.{awaited_by_task, connection_at};
ghost use Rattle.relay_loops.specs.Requests.{IsHere, TellsDrain, TellsDeadline, TellsClose};
ghost use Rattle.relay_loops.specs.Turns.{StayArmed};
ghost use Rattle.relay_shared.specs.Requests.{IsCarriedOut, unknown_answer};
ghost use Rattle.relay_shared.specs.declared.requests.Asks.{Asks};

use crate::loop_task::LoopTask;
use crate::loops::{ConnLoop, LoopHost};
use deadline_core::Deadline;
use readiness::{Host, Turn, Why, side_of};
use relay_shared::requests::{Answer, Asks, Question, Request, Ticket};
use std::sync::Wait;
use std::sync::ledger::Ledger;
use std::time::Clock;

// What came of a request, with the answer that its session is still owed: the request was spent for it,
// so that no session is told before the deed.
struct CarriedOut {
    ticket: Ticket,
    answer: Answer,
}

// Whether the loop has the connection that is asked. (a token alone doesn't tell: that of a set-up
// which was refused is given again, an id never)
fn is_here<U: Ledger, D: Ledger, R: Wait + Clock + Copy>(
    tasks: &ConnLoop<U, D, R>,
    question: &Question,
) -> bool
    ensures { result ≡ true ↔ IsHere (tasks_of tasks.now) question.now }
{
    match tasks.task(question.token) {
        Some(task) => task.has_id(side_of(question.token), question.id),
        None => false,
    }
}

impl<U: Ledger, D: Ledger, R: Wait + Clock + Copy> LoopHost<U, D, R> {
    /// Carries a request out, and answers it then.
    pub(crate) fn serve(&mut self, tasks: &mut ConnLoop<U, D, R>, request: Request)
        ensures gone { (IsHere (tasks_of tasks.old) request.question → ⊥) → tasks.new ≡ tasks.old }
        ensures closed { IsHere (tasks_of tasks.old) request.question
            → request.question.asks ≡ Asks.Close
            → task_in (tasks_of tasks.new) request.question.token ≡ None }
        ensures others { OthersKept (tasks_of tasks.old) (tasks_of tasks.new)
            request.question.token }
        ensures armed { StayArmed (tasks_of tasks.old) (tasks_of tasks.new) }
    {
        let CarriedOut { ticket, answer } = self.fulfil(tasks, request);
        self.context.shared.answer(&self.context.rt, ticket, answer);
    }

    // Carries a request out, whose session is told next.
    fn fulfil(&mut self, tasks: &mut ConnLoop<U, D, R>, request: Request) -> CarriedOut
        ensures ticket { result.ticket ≡ request.ticket }
        ensures gone { (IsHere (tasks_of tasks.old) request.question → ⊥)
            → (result.answer ≡ unknown_answer request.question.asks) × (tasks.new ≡ tasks.old) }
        ensures done { IsHere (tasks_of tasks.old) request.question
            → IsCarriedOut request.question.asks result.answer }
        ensures closed { IsHere (tasks_of tasks.old) request.question
            → request.question.asks ≡ Asks.Close
            → task_in (tasks_of tasks.new) request.question.token ≡ None }
        ensures others { OthersKept (tasks_of tasks.old) (tasks_of tasks.new)
            request.question.token }
        ensures armed { StayArmed (tasks_of tasks.old) (tasks_of tasks.new) }
    {
        let Request { ticket, question } = request;
        let answer = self.carry_out(tasks, question);
        CarriedOut { ticket, answer }
    }

    // Carries out what is asked of a connection, unless it has ended.
    fn carry_out(&mut self, tasks: &mut ConnLoop<U, D, R>, question: Question) -> Answer
        ensures gone { (IsHere (tasks_of tasks.old) question → ⊥)
            → (result ≡ unknown_answer question.asks) × (tasks.new ≡ tasks.old) }
        ensures done { IsHere (tasks_of tasks.old) question → IsCarriedOut question.asks result }
        ensures closed { IsHere (tasks_of tasks.old) question → question.asks ≡ Asks.Close
            → task_in (tasks_of tasks.new) question.token ≡ None }
        ensures ended { IsHere (tasks_of tasks.old) question → question.asks ≡ Asks.Close
            → TellsClose (connection_at (tasks_of tasks.old) question.token) result }
        ensures others { OthersKept (tasks_of tasks.old) (tasks_of tasks.new) question.token }
        ensures armed { StayArmed (tasks_of tasks.old) (tasks_of tasks.new) }
    {
        if !is_here(tasks, &question) {
            return question.asks.unknown();
        }
        match question.asks {
            Asks::Close => self.close_asked(tasks, question.token),
            Asks::Drain => self.drain_asked(tasks, question.token),
            Asks::Deadline { deadline, now } => {
                self.set_asked(tasks, question.token, deadline, now)
            }
        }
    }

    // Ends the connection with this token.
    fn close_asked(&mut self, tasks: &mut ConnLoop<U, D, R>, token: u64) -> Answer
        ensures told { TellsClose (connection_at (tasks_of tasks.old) token) result }
        ensures closed { task_in (tasks_of tasks.new) token ≡ None }
        ensures others { OthersKept (tasks_of tasks.old) (tasks_of tasks.new) token }
        ensures armed { StayArmed (tasks_of tasks.old) (tasks_of tasks.new) }
    {
        match tasks.take(token) {
            Some(LoopTask::Connection(task)) => Answer::Close(Some(self.end(task))),
            Some(other) => {
                self.end_task(other);
                Answer::Close(None)
            }
            None => Answer::Close(None),
        }
    }

    // Drains a side of the connection with this token.
    fn drain_asked(&mut self, tasks: &mut ConnLoop<U, D, R>, token: u64) -> Answer
        ensures told { TellsDrain (connection_at (tasks_of tasks.old) token) (side_in token) result }
        ensures others { OthersKept (tasks_of tasks.old) (tasks_of tasks.new) token }
        ensures armed { StayArmed (tasks_of tasks.old) (tasks_of tasks.new) }
    {
        let rt = self.context.rt;
        match tasks.task_mut(token) {
            Some(task) => Answer::Drain(task.drain(&rt, side_of(token))),
            None => Answer::Drain(None),
        }
    }

    // Sets the deadline of a side of the connection with this token, which then goes on.
    fn set_asked(
        &mut self,
        tasks: &mut ConnLoop<U, D, R>,
        token: u64,
        deadline: Deadline,
        now: u64,
    ) -> Answer
        ensures told { TellsDeadline (connection_at (tasks_of tasks.old) token) result }
        ensures others { OthersKept (tasks_of tasks.old) (tasks_of tasks.new) token }
        ensures armed { StayArmed (tasks_of tasks.old) (tasks_of tasks.new) }
    {
        let Some(task) = tasks.task_mut(token) else {
            return Answer::Deadline(None);
        };
        let told = task.set_deadline(side_of(token), deadline);
        let turn = self.resume(task, Why::Time { now });
        self.follow(tasks, token, turn);
        Answer::Deadline(told)
    }

    // Has a task go on, or ends it, as it has said between two turns; one that stays is timed.
    fn follow(&mut self, tasks: &mut ConnLoop<U, D, R>, token: u64, turn: Turn)
        ensures over { turn ≡ Turn.Over → task_in (tasks_of tasks.new) token ≡ None }
        ensures stays { turn ≢ Turn.Over → SameTasks (tasks_of tasks.old) (tasks_of tasks.new) }
        ensures comes { turn ≡ Turn.Again → gave_way_in (tasks_of tasks.old) token ≡ Some false
            → ComesNext (tasks_of tasks.new) token }
        ensures others { OthersKept (tasks_of tasks.old) (tasks_of tasks.new) token }
        ensures armed { AreArmedBut awaited_by_task (Some (place_in token)) (tasks_of tasks.old)
            → AreArmed awaited_by_task (tasks_of tasks.new) }
    {
        self.carry_on(tasks, token, turn);
        tasks.keep_time(&*self, token);
    }

    // Has a task go on, or ends it, as it has said.
    fn carry_on(&mut self, tasks: &mut ConnLoop<U, D, R>, token: u64, turn: Turn)
        ensures over { turn ≡ Turn.Over → task_in (tasks_of tasks.new) token ≡ None }
        ensures stays { turn ≢ Turn.Over → SameTasks (tasks_of tasks.old) (tasks_of tasks.new) }
        ensures comes { turn ≡ Turn.Again → gave_way_in (tasks_of tasks.old) token ≡ Some false
            → ComesNext (tasks_of tasks.new) token }
        ensures others { OthersKept (tasks_of tasks.old) (tasks_of tasks.new) token }
        ensures armed { KeepsArmed (tasks_of tasks.old) (tasks_of tasks.new) }
    {
        match turn {
            Turn::Waits => {}
            Turn::Again => tasks.again(token),
            Turn::Over => {
                if let Some(task) = tasks.take(token) {
                    self.end_task(task);
                }
            }
        }
    }
}
