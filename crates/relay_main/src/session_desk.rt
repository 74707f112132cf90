//! What an admin session asks, over the relay's index and books.

ghost use Rattle.std.specs.Prelude.{◌≡◌, ◌<◌, AllPairs, None, IfOk, IfSome, option_and_then, option_copied};
ghost use Rattle.readiness.specs.EventLoop.{tasks_of};
ghost use Rattle.readiness.specs.Tasks.{task_in};
ghost use Rattle.relay_admin.specs.declared.admin.answers.CloseAnswer.{CloseAnswer};
ghost use Rattle.relay_admin.specs.declared.admin.answers.SteerAnswer.{SteerAnswer};
ghost use Rattle.relay_main.specs.Deadlines.{asked_deadline};
ghost use Rattle.relay_main.specs.RuleListeners.{token_with};
ghost use Rattle.relay_main.specs.RuleTask.{rule_task_in};
ghost use Rattle.relay_main.specs.SessionDesk.{IsNotSteered, closed_answer, late_answer};
ghost use Rattle.relay_main.specs.SessionDesk.{steered_answer};
ghost use Rattle.relay_main.specs.declared.session_desk.NotAsked.{NotAsked};

use crate::main_loop::MainLoop;
use crate::main_task::MainTask;
use crate::rule_task::RuleTask;
use deadline_core::Deadline;
use relay_admin::{
    CloseAnswer, LateAnswer, ReloadAnswer, SessionDesk, Shown, ShownTarget, SteerAnswer,
    TargetAnswer, TargetOrder, TotalBytes,
};
use relay_core::idle_deadline;
use relay_facts::clock::Moments;
use relay_facts::shown::shown_listener;
use relay_shared::inbox::Woken;
use relay_shared::loop_handle::totals_of;
use relay_shared::requests::{Answer, Asks, Question};
use relay_shared::standing::{Whereabouts, find_side, shown_of_side};
use rwloops::Fault;
use std::alloc::{AllocError, Global};
use std::fs::Files;
use std::net::Net;
use std::sync::Wait;
use std::time::Clock;

/// A desk for one session, on the main thread.
#[derive(Drop)]
pub(crate) struct RelayDesk<'a, R: Wait + Clock + Copy> {
    main: &'a mut MainLoop<R>,
    /// The session's place.
    place: usize,
}

// Why no loop could be asked.
#[derive(Clone, Copy, Debug, PartialEq, Eq, Drop)]
enum NotAsked {
    // No connection has this id.
    Unknown,
    // Memory was refused.
    NoMemory,
}

impl NotAsked {
    fn to_close(self) -> CloseAnswer
        ensures unknown { self ≡ NotAsked.Unknown → result ≡ CloseAnswer.Unknown }
        ensures no_memory { self ≡ NotAsked.NoMemory → result ≡ CloseAnswer.NoMemory }
    {
        match self {
            NotAsked::Unknown => CloseAnswer::Unknown,
            NotAsked::NoMemory => CloseAnswer::NoMemory,
        }
    }

    fn to_steer(self) -> SteerAnswer
        ensures unknown { self ≡ NotAsked.Unknown → result ≡ SteerAnswer.Unknown }
        ensures no_memory { self ≡ NotAsked.NoMemory → result ≡ SteerAnswer.NoMemory }
    {
        match self {
            NotAsked::Unknown => SteerAnswer::Unknown,
            NotAsked::NoMemory => SteerAnswer::NoMemory,
        }
    }
}

// What a close of a listener that ended so is to the session. A device's fault while the descriptor
// was destroyed doesn't change that it is closed.
fn closed_answer(done: Option<Result<(), Fault>>) -> CloseAnswer
    ensures { result ≡ closed_answer done }
{
    match done {
        None => CloseAnswer::Unknown,
        Some(Ok(())) | Some(Err(Fault::Device(_))) => CloseAnswer::Fine,
        Some(Err(Fault::TooMany)) => CloseAnswer::Busy,
        Some(Err(Fault::OutOfMemory)) => CloseAnswer::NoMemory,
        Some(Err(_)) => CloseAnswer::Closed,
    }
}

// What a drain or a deadline that ended so is to the session.
fn steered_answer(done: Option<Result<(), Fault>>) -> SteerAnswer
    ensures { result ≡ steered_answer done }
{
    match done {
        None => SteerAnswer::Unknown,
        Some(Ok(())) | Some(Err(Fault::Device(_))) => SteerAnswer::Fine,
        Some(Err(Fault::TooMany)) => SteerAnswer::Busy,
        Some(Err(Fault::OutOfMemory)) => SteerAnswer::NoMemory,
        Some(Err(Fault::Draining)) => SteerAnswer::Draining,
        Some(Err(_)) => SteerAnswer::Closed,
    }
}

/// What the answer of a loop is to the session that waits for it.
pub(crate) fn late_answer(answer: Answer) -> LateAnswer
    ensures { result ≡ late_answer answer }
{
    match answer {
        Answer::Close(Some(_)) => LateAnswer::Close(CloseAnswer::Fine),
        Answer::Close(None) => LateAnswer::Close(CloseAnswer::Unknown),
        Answer::Drain(done) => LateAnswer::Drain(steered_answer(done)),
        Answer::Deadline(done) => LateAnswer::Deadline(steered_answer(done)),
    }
}

// The deadline that a session asks for: so many milliseconds from now, or none.
fn asked_deadline(now: u64, after_ms: Option<u32>) -> Deadline
    ensures { result ≡ asked_deadline now after_ms }
{
    match after_ms {
        Some(ms) => Deadline::At(idle_deadline(now, ms)),
        None => Deadline::Never,
    }
}

impl<'a, R: Wait + Clock + Copy> RelayDesk<'a, R> {
    /// That of the session at this place.
    pub(crate) fn of(main: &'a mut MainLoop<R>, place: usize) -> RelayDesk<'a, R>
        ensures place { result.place ≡ place }
    {
        RelayDesk { main, place }
    }

    // All ids that stand, each once.
    fn all_ids(&self, alloc: Global) -> Result<Vec<u64>, AllocError>
        ensures rising { IfOk result (λ ids. AllPairs (λ id later. id < later) ids.items) }
    {
        let rt = self.main.host.rt;
        self.main.host.shared.index.lock(&rt).ids(alloc)
    }

    // The rule's task whose listener has this id.
    fn rule_task(&self, id: u64) -> Option<&RuleTask<R>>
        ensures { option_copied result ≡ rule_task_in (option_and_then
            (task_in (tasks_of self.now.main.now.tasks))
            (token_with id self.now.main.now.listening.items)) }
    {
        match self.main.tasks.task(self.main.listener_token(id)?) {
            Some(MainTask::Rule(task)) => Some(task),
            _ => None,
        }
    }

    fn seen(&self, id: u64) -> Option<Shown>
        ensures { IfSome result (λ seen. seen.id ≡ id) }
    {
        let rt = self.main.host.rt;
        let now = self.main.host.clock.now();
        if let Some(task) = self.rule_task(id) {
            return Some(shown_listener(&rt, &*task.served, id, task.listener.facts, now));
        }
        let index = self.main.host.shared.index.lock(&rt);
        shown_of_side(&*index, id, now)
    }

    // Asks the loop of the connection with this id: the session waits for its answer from then on.
    fn ask(&self, id: u64, asks: Asks) -> Result<Woken, NotAsked> {
        let host = &self.main.host;
        let found = {
            let index = host.shared.index.lock(&host.rt);
            find_side(&*index, id)
        };
        let Some(Whereabouts { loop_place, token }) = found else {
            return Err(NotAsked::Unknown);
        };
        let question = Question { id, token, asks };
        match host.shared.ask(&host.rt, self.place, loop_place, question) {
            Ok(woken) => Ok(woken),
            Err(_) => Err(NotAsked::NoMemory),
        }
    }

    // The same of a drain or a deadline: the answer where there is none to wait for.
    fn steer(&self, id: u64, asks: Asks) -> Option<SteerAnswer>
        ensures { IfSome result IsNotSteered }
    {
        match self.ask(id, asks) {
            Ok(_) => None,
            Err(refused) => Some(refused.to_steer()),
        }
    }
}

impl<'a, R> SessionDesk for RelayDesk<'a, R>
where
    R: Wait + Net + Files + Clock + Eprint + Copy,
{
    // What other threads do to the index and the books in between isn't known.
    ghost exchanges = { λ _. None };

    fn ids(&mut self, alloc: Global) -> Result<Vec<u64>, AllocError> {
        self.all_ids(alloc)
    }

    fn totals(&mut self) -> TotalBytes {
        totals_of(self.main.host.shared.loops.as_slice()).answer()
    }

    // What is asked of a listener the main thread does by itself, whose task it has; so also below.
    fn close(&mut self, id: u64) -> Option<CloseAnswer> {
        match self.main.listener_token(id) {
            Some(token) => Some(closed_answer(self.main.close_listener(token))),
            None => match self.ask(id, Asks::Close) {
                Ok(_) => None,
                Err(refused) => Some(refused.to_close()),
            },
        }
    }

    fn drain(&mut self, id: u64) -> Option<SteerAnswer> {
        match self.main.listener_token(id) {
            Some(token) => Some(steered_answer(self.main.drain_listener(token))),
            None => self.steer(id, Asks::Drain),
        }
    }

    fn deadline(&mut self, _alloc: Global, id: u64, after_ms: Option<u32>) -> Option<SteerAnswer> {
        let now = self.main.host.clock.now();
        let deadline = asked_deadline(now, after_ms);
        match self.main.listener_token(id) {
            Some(token) => {
                let done = self.main.set_listener_deadline(token, deadline, now);
                Some(steered_answer(done))
            }
            None => self.steer(id, Asks::Deadline { deadline, now }),
        }
    }

    fn show(&mut self, id: u64) -> Option<Shown> {
        self.seen(id)
    }

    fn ids_to_show(&mut self, alloc: Global) -> Result<Vec<u64>, AllocError> {
        self.all_ids(alloc)
    }

    fn look(&mut self, id: u64) -> Option<Shown> {
        self.seen(id)
    }

    fn reload(&mut self, _alloc: Global) -> ReloadAnswer {
        let rt = self.main.host.rt;
        let now = self.main.host.clock.now();
        self.main.reload(&rt, now)
    }

    fn finish(&mut self, after_ms: u64) {
        self.main.finish(after_ms);
    }

    fn targets_to_show(&mut self, alloc: Global) -> Result<Vec<u64>, AllocError> {
        self.main.target_numbers(alloc)
    }

    fn look_at_target(&mut self, number: u64) -> Option<ShownTarget> {
        self.main.shown_target(number)
    }

    fn set_target(&mut self, order: TargetOrder) -> TargetAnswer {
        self.main.set_target(&order)
    }
}
