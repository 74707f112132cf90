//! A rule's task of the main thread's loop: it accepts from the rule's listener, and delivers to the
//! loops.

ghost use Rattle.std.specs.Prelude.{◌≡◌, ◌↔◌, ⊤, true, None, Err, IfSome, IsNone, OnOk, option_map};
ghost use Rattle.readiness.specs.Sockets as sockets;
ghost use Rattle.readiness.specs.EventLoop.{tasks_of};
ghost use Rattle.readiness.specs.Tasks.{task_in};
ghost use Rattle.relay_main.specs.Closing.{WasClosed};
ghost use Rattle.relay_main.specs.RuleListeners.{token_with};
ghost use Rattle.relay_main.specs.RuleTask.{listener_in};
ghost use Rattle.relay_shared.specs.Addr.{rule_address};
ghost use Rattle.rwloops.specs.declared.fault.Fault.{Fault};
ghost use Rattle.fd_descriptor.specs.TaskHalf.{KeepsHalf, descriptor_of_half};
ghost use Rattle.relay_shared.specs.Drained.{WasDrained};
ghost use Rattle.std.specs.Arc.{arc_value};

use crate::main_loop::MainLoop;
use crate::main_task::MainTask;
use crate::rule_listeners::token_with;
use deadline_core::Deadline;
use fd_descriptor::{Alarms, PollCell, TaskReader};
use readiness::{ListenRes, Place, Sock};
use relay_core::{AcceptStep, Accepting, PollAcceptGate};
use relay_facts::clock::Moments;
use relay_facts::connection_facts::Acceptance;
use relay_facts::header::AcceptedAt;
use relay_facts::served_rule::ServedRule;
use relay_facts::shown::ListenerFacts;
use relay_shared::address::rule_address;
use relay_shared::shared::Shared;
use rwloops::Fault;
use std::sync::{Arc, Wait};
use std::time::Clock;

/// One of a rule's listeners, as its task has it.
#[derive(Drop)]
pub struct RuleListener<R: Wait + Copy> {
    pub(crate) id: u64,
    pub(crate) cell: Arc<PollCell>,
    pub(crate) half: TaskReader<ListenRes, R>,
    pub(crate) facts: ListenerFacts,
}

impl<R: Wait + Copy> RuleListener<R> {
    // Drains it: the accept that is under way may take one client more.
    fn drain(&mut self, rt: &R) -> Result<(), Fault>
        ensures half { KeepsHalf self.old.half self.new.half }
        ensures kept { self.new ≡ record self.old { half = self.new.half } }
        ensures drained { OnOk result (WasDrained (descriptor_of_half self.old.half)) }
    {
        let mut handle = self.half.share()?;
        handle.drain(rt)
    }

    // Sets the deadline of its accepts.
    fn set_deadline<A: Alarms>(
        &mut self,
        rt: &R,
        alarms: &A,
        deadline: Deadline,
        now: u64,
    ) -> Result<(), Fault>
        ensures half { KeepsHalf self.old.half self.new.half }
        ensures kept { self.new ≡ record self.old { half = self.new.half } }
    {
        let mut handle = self.half.share()?;
        handle.set_deadline(rt, deadline, now, alarms)
    }
}

/// Accepts by a rule from one of its listeners until that is closed or drained.
#[derive(Drop)]
pub struct RuleTask<R: Wait + Copy> {
    pub(crate) served: Arc<ServedRule>,
    /// Whether that counts it among the listeners that accept.
    pub(crate) is_counted: bool,
    pub(crate) place: Place,
    pub(crate) listener: RuleListener<R>,
    pub(crate) accepting: Accepting,
    /// The end of its pause, where it pauses.
    pub(crate) paused_until: Option<u64>,
}

impl<R: Wait + Copy> RuleTask<R> {
    /// One at this place that accepts by this account, which counts it, from this listener. No accept
    /// failed yet.
    pub(crate) fn new(
        served: Arc<ServedRule>,
        place: Place,
        listener: RuleListener<R>,
    ) -> RuleTask<R>
        ensures served { result.served ≡ served }
        ensures counted { result.is_counted ≡ true }
        ensures place { result.place ≡ place }
        ensures listener { result.listener ≡ listener }
        ensures goes_on { result.paused_until ≡ None }
    {
        RuleTask {
            served,
            is_counted: true,
            place,
            listener,
            accepting: Accepting::new(),
            paused_until: None,
        }
    }
}

// Accepts from a rule's listener, and delivers to the loops.
#[derive(Drop)]
struct RuleGate<'a, R: Wait + Copy, C> {
    rt: R,
    clock: &'a C,
    served: &'a Arc<ServedRule>,
    listener: &'a mut RuleListener<R>,
    shared: &'a Shared,
    // The last fault of an accept.
    fault: Option<Fault>,
}

impl<'a, R, C> RuleGate<'a, R, C>
where
    R: Wait + Copy,
    C: Moments,
{
    // What is known of a client that this listener gave just now: the listener's own rule serves
    // it.
    fn acceptance(&self, client: Option<relay_admin::Addr>, sock: &Sock) -> Option<Acceptance>
        ensures own { IfSome result (λ acceptance.
            arc_value acceptance.served ≡ arc_value self.now.served.now) }
        ensures client { IfSome result (λ acceptance. acceptance.client ≡ client) }
    {
        let served = Arc::try_clone(self.served).ok()?;
        let said = served.said(&self.rt)?;
        let accepted_at = said.header.and_then(|_| accepted_at(sock));
        Some(Acceptance {
            served,
            said,
            client,
            accepted_at,
            at: self.clock.now(),
        })
    }
}

impl<'a, R, C> PollAcceptGate for RuleGate<'a, R, C>
where
    R: Wait + Clock + Copy,
    C: Moments,
{
    type T = Sock;

    // What a listener gave can't be told.
    ghost tells = { λ _ _. ⊥ };

    ghost blocked = { λ _. ⊤ };

    fn poll_accept(&mut self) -> Option<Result<Sock, Fault>> {
        let accepted = self.listener.half.poll_accept();
        if let Some(Err(fault)) = &accepted {
            self.fault = Some(*fault);
        }
        accepted
    }

    fn deliver(&mut self, taken: Sock) {
        let Some(acceptance) = self.acceptance(peer_of(&taken), &taken) else {
            self.served.note_unknown();
            return;
        };
        self.listener.facts.last = acceptance.at;
        self.shared.deliver(&self.rt, taken, acceptance);
    }
}

// The client's address, in the terms of rules.
fn peer_of(sock: &Sock) -> Option<relay_admin::Addr>
    ensures { result ≡ option_map rule_address (sockets.peer_of sock.now) }
{
    match sock.peer() {
        Some(addr) => Some(rule_address(&addr)),
        None => None,
    }
}

// Where it was accepted over TCP: the system is asked, since the listener may be at all addresses.
fn accepted_at(sock: &Sock) -> Option<AcceptedAt>
    ensures { IfSome result (λ at. sockets.is_tcp sock.now ≡ true) }
{
    match sock.local() {
        Some(readiness::Addr::Tcp(bytes, port)) => Some(AcceptedAt::Tcp(bytes, port)),
        Some(readiness::Addr::Tcp6(ip, _, port)) => Some(AcceptedAt::Tcp6(ip, port)),
        _ => None,
    }
}

/// Has a task accept by its rule, and gives the last fault too.
pub(crate) fn accept_on<'a, R: Wait + Clock + Copy, C: Moments>(
    rt: R,
    clock: &'a C,
    shared: &'a Shared,
    task: &'a mut RuleTask<R>,
) -> (AcceptStep, Option<Fault>)
    ensures served { task.new.served ≡ task.old.served }
    ensures counted { task.new.is_counted ≡ task.old.is_counted }
    ensures place { task.new.place ≡ task.old.place }
    ensures paused { task.new.paused_until ≡ task.old.paused_until }
{
    let mut gate = RuleGate {
        rt,
        clock,
        served: &task.served,
        listener: &mut task.listener,
        shared,
        fault: None,
    };
    let step = task.accepting.resume(&mut gate);
    (step, gate.fault)
}

impl<R: Wait + Clock + Copy> MainLoop<R> {
    /// The token of the task whose listener stands under this id.
    pub(crate) fn listener_token(&self, id: u64) -> Option<u64>
        ensures { result ≡ token_with id self.now.listening.items }
    {
        token_with(self.listening.as_slice(), id)
    }

    /// Closes the listener whose task has this token, and ends the task; none where there is no such
    /// task.
    pub(crate) fn close_listener(&mut self, token: u64) -> Option<Result<(), Fault>>
        ensures gone { task_in (tasks_of self.new.tasks) token ≡ None }
        ensures none { IsNone result → IsNone (listener_in (task_in (tasks_of self.old.tasks) token)) }
        ensures closed { IfSome (listener_in (task_in (tasks_of self.old.tasks) token))
            (λ listener. IfSome result (λ done.
            OnOk done (WasClosed (descriptor_of_half listener.half)))) }
    {
        match self.tasks.take(token)? {
            MainTask::Rule(task) => Some(self.host.close_rule(task)),
            _ => None,
        }
    }

    /// Drains the listener of the rule's task that this token names; none where there is no such
    /// task.
    pub(crate) fn drain_listener(&mut self, token: u64) -> Option<Result<(), Fault>>
        ensures { IsNone result
            ↔ IsNone (listener_in (task_in (tasks_of self.old.tasks) token)) }
    {
        match self.tasks.task_mut(token) {
            Some(MainTask::Rule(task)) => Some(task.listener.drain(&self.host.rt)),
            _ => None,
        }
    }

    /// Sets the deadline of the same, and has its task look at that in the next turn.
    pub(crate) fn set_listener_deadline(
        &mut self,
        token: u64,
        deadline: Deadline,
        now: u64,
    ) -> Option<Result<(), Fault>>
        ensures none { IsNone result
            → IsNone (listener_in (task_in (tasks_of self.old.tasks) token)) }
        ensures unknown { IsNone (listener_in (task_in (tasks_of self.old.tasks) token))
            → IfSome result (λ done. done ≡ Err Fault.OutOfMemory) }
    {
        let Some(alarms) = self.host.alarms() else {
            return Some(Err(Fault::OutOfMemory));
        };
        let done = match self.tasks.task_mut(token) {
            Some(MainTask::Rule(task)) => {
                task.listener
                    .set_deadline(&self.host.rt, &alarms, deadline, now)
            }
            _ => return None,
        };
        self.tasks.again(token);
        Some(done)
    }
}
