//! Setting a connection up for an accepted socket.

ghost use Rattle.std.specs.Prelude.{◌≡◌, IfOk, IfErr, IfSome, OnOk, OnErr};
ghost use Rattle.std.specs.Arc.{arc_value};
ghost use Rattle.readiness.specs.EventLoop.{tasks_of};
ghost use Rattle.readiness.specs.Tasks.{HasPlace, IsPut, SameTasks, next_place};
ghost use Rattle.relay_conn.specs.Deadlines.{IsIdleEnd};
ghost use Rattle.relay_facts.specs.Acceptance.{IsSameClient};
ghost use Rattle.relay_facts.specs.Senders.{IsAwaited};
ghost use Rattle.relay_loops.specs.SetUp.{IsConnectionFor, IsFirstTrial, IsAwaitedOrTold, IsRefusedFor};
ghost use Rattle.relay_loops.specs.SetUp.{IsServed, IsServedOrGone};
ghost use Rattle.relay_ledger.specs.Book.{OpensOne};
ghost use Rattle.relay_loops.specs.Turns.{StayArmed};

use crate::loop_task::LoopTask;
use crate::loops::{ConnLoop, LoopContext, LoopHost};
use crate::taken::Delivered;
use readiness::{Poller, Sock};
use relay_conn::connection::Connection;
use relay_conn::refused::Refused;
use relay_conn::set_up::{Begins, SetUp};
use relay_conn::trial::{Trial, next_trial};
use relay_core::idle_deadline;
use relay_facts::clock::Moments;
use relay_facts::connection_facts::{Acceptance, ConnectionFacts};
use relay_shared::inbox::Counted;
use relay_shared::socket_options::set_options;
use std::net::Net;
use std::sync::ledger::Ledger;
use std::sync::{Arc, Wait};
use std::time::Clock;
use target_pick::Tried;

impl<R: Wait + Net + Clock + Copy> LoopContext<R> {
    // What a connection of its loop is set up by.
    pub(crate) fn set_up<'a>(&'a self, poller: &'a Poller) -> SetUp<'a, R>
        ensures poller { result.poller.now ≡ poller.now }
        ensures clock { result.clock ≡ self.now.clock }
    {
        SetUp {
            rt: self.rt,
            alloc: self.alloc,
            clock: self.clock,
            index: &self.shared.index,
            poller,
        }
    }

    // What is known of a connection with this client, whose target at this place is tried first.
    fn facts(&self, acceptance: &Acceptance, target: usize) -> Option<Arc<ConnectionFacts>>
        ensures same { IfSome result (λ facts.
            IsSameClient acceptance.now (arc_value facts).acceptance) }
        ensures place { IfSome result (λ facts. (arc_value facts).loop_place ≡ self.now.place) }
    {
        let facts = ConnectionFacts::new(acceptance.try_clone()?, self.place, target);
        Arc::new(self.alloc, facts).ok()
    }

    // The moment by which a target is to be connected that is dialled now, if it has a time.
    fn connect_by(&self) -> Option<u64>
        ensures { IsIdleEnd (arc_value self.now.shared).safeguards.connect_ms result }
    {
        let connect_ms = self.shared.safeguards.connect_ms?;
        Some(idle_deadline(self.clock.now(), connect_ms))
    }

    // Dials the first target of a client that was accepted, or else the next one.
    fn begins(
        &self,
        sock: Sock,
        acceptance: &Acceptance,
        counted: Counted,
    ) -> Result<Begins, Refused>
        ensures target { IfOk result (λ begins.
            IsFirstTrial (arc_value begins.facts).acceptance begins.target) }
        ensures same { IfOk result (λ begins.
            IsSameClient acceptance.now (arc_value begins.facts).acceptance) }
        ensures client { IfOk result (λ begins. begins.client ≡ sock) }
        ensures counted { IfOk result (λ begins. begins.counted ≡ counted) }
        ensures time { IfOk result (λ begins.
            IsIdleEnd (arc_value self.now.shared).safeguards.connect_ms begins.connect_by) }
        ensures refused { IfErr result (IsRefusedFor acceptance.now) }
    {
        match next_trial(&self.rt, &self.shared.log, acceptance, Tried::none()) {
            Ok(target) => self.begins_with(sock, acceptance, counted, target),
            Err(none) => Err(Refused::Target(none.last())),
        }
    }

    // What a connection begins with whose first target is dialled. The client's socket is set up as its
    // rule says.
    fn begins_with(
        &self,
        sock: Sock,
        acceptance: &Acceptance,
        counted: Counted,
        target: Trial,
    ) -> Result<Begins, Refused>
        requires { IsFirstTrial acceptance.now target }
        ensures target { IfOk result (λ begins.
            IsFirstTrial (arc_value begins.facts).acceptance begins.target) }
        ensures same { IfOk result (λ begins.
            IsSameClient acceptance.now (arc_value begins.facts).acceptance) }
        ensures client { IfOk result (λ begins. begins.client ≡ sock) }
        ensures counted { IfOk result (λ begins. begins.counted ≡ counted) }
        ensures time { IfOk result (λ begins.
            IsIdleEnd (arc_value self.now.shared).safeguards.connect_ms begins.connect_by) }
        ensures refused { IfErr result (IsRefusedFor acceptance.now) }
    {
        set_options(&sock, &acceptance.said.sockets);
        match self.facts(acceptance, target.place()) {
            Some(facts) => Ok(Begins {
                client: sock,
                target,
                facts,
                counted,
                connect_by: self.connect_by(),
            }),
            None => Err(Refused::Memory),
        }
    }
}

impl<U: Ledger, D: Ledger, R: Wait + Net + Clock + Copy> LoopHost<U, D, R> {
    // A connection for a client that was accepted, whose target is dialled; or what refused it.
    fn connection(
        &mut self,
        tasks: &mut ConnLoop<U, D, R>,
        sock: Sock,
        acceptance: &Acceptance,
        counted: Counted,
    ) -> Result<Connection<U, D, R>, Refused>
        ensures set_up { IfOk result (IsConnectionFor acceptance.now counted
            (arc_value self.old.context.shared).safeguards.connect_ms
            (next_place (tasks_of tasks.new))) }
        ensures placed { OnOk result (HasPlace (tasks_of tasks.new)) }
        ensures up { OnOk result (OpensOne self.old.books.up.book self.new.books.up.book) }
        ensures down { OnOk result (OpensOne self.old.books.down.book self.new.books.down.book) }
        ensures tasks { SameTasks (tasks_of tasks.old) (tasks_of tasks.new) }
        ensures armed { StayArmed (tasks_of tasks.old) (tasks_of tasks.new) }
    {
        let begins = self.context.begins(sock, acceptance, counted)?;
        match tasks.vacant() {
            Ok(place) => {
                self.context
                    .set_up(tasks.poller())
                    .connection(&mut self.books, begins, place)
            }
            Err(refusal) => Err(Refused::of_place(refusal)),
        }
    }

    /// Puts a task into its loop, which goes on by its first event or at its moment. Where there is no
    /// place for it, it ends.
    pub(crate) fn put(&mut self, tasks: &mut ConnLoop<U, D, R>, task: LoopTask<U, D, R>)
        ensures put { HasPlace (tasks_of tasks.old) → IsPut (tasks_of tasks.old) (tasks_of tasks.new)
            (next_place (tasks_of tasks.old)) task }
        ensures kept { HasPlace (tasks_of tasks.old) → self.new ≡ self.old }
        ensures armed { StayArmed (tasks_of tasks.old) (tasks_of tasks.new) }
    {
        match tasks.put(task) {
            Ok(place) => tasks.keep_time(&*self, place.first),
            Err(task) => self.end_task(task),
        }
    }

    // Has a client that was accepted be served by a task of its own; or says what refused it, and
    // then nothing is left of it.
    fn connect(
        &mut self,
        tasks: &mut ConnLoop<U, D, R>,
        sock: Sock,
        acceptance: &Acceptance,
        counted: Counted,
    ) -> Result<(), Refused>
        ensures served { OnOk result (IsServed (tasks_of tasks.old) (tasks_of tasks.new)
            acceptance.now counted (arc_value self.old.context.shared).safeguards.connect_ms) }
        ensures refused { OnErr result (SameTasks (tasks_of tasks.old) (tasks_of tasks.new)) }
        ensures armed { StayArmed (tasks_of tasks.old) (tasks_of tasks.new) }
    {
        let connection = self.connection(tasks, sock, acceptance, counted)?;
        self.put(tasks, LoopTask::Connection(connection));
        Ok(())
    }

    /// Sets a connection up; or awaits its client's header before, where the client is to say first who it
    /// is.
    pub(crate) fn set_up(&mut self, tasks: &mut ConnLoop<U, D, R>, delivered: Delivered)
        ensures served { (IsAwaited delivered.arrival.acceptance → ⊥)
            → IsServedOrGone (tasks_of tasks.old) (tasks_of tasks.new) delivered.arrival.acceptance
            delivered.counted (arc_value self.old.context.shared).safeguards.connect_ms }
        ensures awaited { IsAwaited delivered.arrival.acceptance
            → IsAwaitedOrTold (tasks_of tasks.old) (tasks_of tasks.new) delivered.arrival.acceptance
            delivered.counted (arc_value self.old.context.shared).safeguards.connect_ms }
        ensures armed { StayArmed (tasks_of tasks.old) (tasks_of tasks.new) }
    {
        if delivered.arrival.acceptance().is_awaited() {
            self.await_client(tasks, delivered);
        } else {
            self.serve_client(tasks, delivered);
        }
    }

    /// Sets a connection up. Where that is refused its socket is dropped, and its rule is told why.
    pub(crate) fn serve_client(&mut self, tasks: &mut ConnLoop<U, D, R>, delivered: Delivered)
        ensures served { IsServedOrGone (tasks_of tasks.old) (tasks_of tasks.new)
            delivered.arrival.acceptance delivered.counted
            (arc_value self.old.context.shared).safeguards.connect_ms }
        ensures armed { StayArmed (tasks_of tasks.old) (tasks_of tasks.new) }
    {
        let Delivered {
            sock,
            arrival,
            counted,
        } = delivered;
        match self.connect(tasks, sock, arrival.acceptance(), counted) {
            Ok(()) => arrival.served(&self.context),
            Err(why) => {
                let owed = arrival.refused(&self.context, why);
                owed.tell(&self.context.shared);
            }
        }
    }
}
