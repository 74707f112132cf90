//! Clients that are to say first who they are. One whose header is there already is served at once; any
//! other is a task, which is resumed by its bytes and at its moment. Between two turns those are served
//! whose header is whole, since no turn has the poller to register their connections with.

ghost use Rattle.std.specs.Prelude.{◌≡◌, [], OnErr, OnOk};
ghost use Rattle.std.specs.Arc.{arc_value};
ghost use Rattle.readiness.specs.EventLoop.{tasks_of};
ghost use Rattle.readiness.specs.Tasks.{HasPlace, SameTasks};
ghost use Rattle.relay_conn.specs.Awaiting.{awaited_until, client_awaited, counted_awaited};
ghost use Rattle.relay_loops.specs.SetUp.{IsAwaitedOrTold, IsServedSeated};
ghost use Rattle.relay_loops.specs.Turns.{IsAwaitTurn, StayArmed};

use crate::arrival::Arrival;
use crate::loop_task::LoopTask;
use crate::loops::{ConnLoop, LoopHost};
use crate::taken::Delivered;
use readiness::{Turn, Why};
use relay_conn::awaited::Awaiting;
use relay_conn::awaiting::{AwaitStep, ToldClient};
use relay_conn::judged::{Judged, SentHeader};
use relay_conn::refused::Refused;
use relay_conn::seated::Unseated;
use relay_facts::clock::Moments;
use std::mem;
use std::net::Net;
use std::sync::Wait;
use std::sync::ledger::Ledger;
use std::time::Clock;

impl<U: Ledger, D: Ledger, R: Wait + Clock + Copy> LoopHost<U, D, R> {
    /// Has a client go on that is awaited to say who it is, and says what follows for its loop. Where its
    /// header is whole, it is served before the loop's next turn.
    pub(crate) fn await_on(&mut self, client: &mut Awaiting, why: Why) -> Turn
        ensures timely { IsAwaitTurn client.old why self.old.heads.items self.new.heads.items result }
        ensures dials { self.new.dials ≡ self.old.dials }
        ensures acceptance { client_awaited client.new ≡ client_awaited client.old }
        ensures until { awaited_until client.new ≡ awaited_until client.old }
    {
        match client.go_on(why) {
            AwaitStep::Waits => Turn::Waits,
            AwaitStep::Fails => Turn::Over,
            AwaitStep::Whole => match self.heads.push(client.token()) {
                Ok(()) => Turn::Waits,
                Err(_) => {
                    client.lack_memory();
                    Turn::Over
                }
            },
        }
    }

    /// Ends a task.
    pub(crate) fn end_task(&mut self, task: LoopTask<U, D, R>)
        ensures dials { self.new.dials ≡ self.old.dials }
    {
        match task {
            LoopTask::Awaiting(client) => {
                let why = client.failure();
                self.turn_away(client, why);
            }
            LoopTask::Connection(connection) => drop(self.end(connection)),
        }
    }

    /// Closes a client that isn't served, and its rule is told why.
    pub(crate) fn turn_away(&self, client: Awaiting, why: Refused) {
        let arrival = Arrival::new(client.close());
        let owed = arrival.refused(&self.context, why);
        owed.tell(&self.context.shared);
    }
}

// Makes a place for a client that is awaited, of whose socket the poller tells then.
fn registered<U: Ledger, D: Ledger, R: Wait + Clock + Copy>(
    tasks: &mut ConnLoop<U, D, R>,
    client: &mut Awaiting,
) -> Result<(), Refused>
    ensures placed { OnOk result (HasPlace (tasks_of tasks.new)) }
    ensures tasks { SameTasks (tasks_of tasks.old) (tasks_of tasks.new) }
    ensures armed { StayArmed (tasks_of tasks.old) (tasks_of tasks.new) }
    ensures acceptance { client_awaited client.new ≡ client_awaited client.old }
    ensures counted { counted_awaited client.new ≡ counted_awaited client.old }
    ensures until { awaited_until client.new ≡ awaited_until client.old }
{
    match tasks.vacant() {
        Ok(place) => client.register(tasks.poller(), place.first),
        Err(refusal) => Err(Refused::of_place(refusal)),
    }
}

impl<U: Ledger, D: Ledger, R: Wait + Net + Clock + Copy> LoopHost<U, D, R> {
    /// Awaits the header of a client that was accepted.
    pub(crate) fn await_client(&mut self, tasks: &mut ConnLoop<U, D, R>, delivered: Delivered)
        ensures heard { IsAwaitedOrTold (tasks_of tasks.old) (tasks_of tasks.new)
            delivered.arrival.acceptance delivered.counted
            (arc_value self.old.context.shared).safeguards.connect_ms }
        ensures armed { StayArmed (tasks_of tasks.old) (tasks_of tasks.new) }
    {
        let Delivered {
            sock,
            arrival,
            counted,
        } = delivered;
        self.go_on_awaiting(tasks, Awaiting::new(sock, arrival.awaited(), counted));
    }

    // Goes on by the bytes of a client that wait: it is served by the header that begins them, is awaited,
    // or is turned away.
    fn go_on_awaiting(&mut self, tasks: &mut ConnLoop<U, D, R>, client: Awaiting)
        ensures heard { IsAwaitedOrTold (tasks_of tasks.old) (tasks_of tasks.new)
            (client_awaited client) (counted_awaited client) (arc_value self.old.context.shared).safeguards.connect_ms }
        ensures armed { StayArmed (tasks_of tasks.old) (tasks_of tasks.new) }
    {
        match client.look(false) {
            Judged::Waits => self.hold(tasks, client),
            Judged::Says(sent) => self.serve_told(tasks, client, sent),
            Judged::Fails(why) => self.turn_away(client, Refused::Header(why)),
        }
    }

    // Has a client be a task, which is resumed by its next bytes.
    fn hold(&mut self, tasks: &mut ConnLoop<U, D, R>, client: Awaiting)
        ensures heard { IsAwaitedOrTold (tasks_of tasks.old) (tasks_of tasks.new)
            (client_awaited client) (counted_awaited client) (arc_value self.old.context.shared).safeguards.connect_ms }
        ensures armed { StayArmed (tasks_of tasks.old) (tasks_of tasks.new) }
    {
        let mut client = client;
        match registered(tasks, &mut client) {
            Ok(()) => self.put(tasks, LoopTask::Awaiting(client)),
            Err(why) => self.turn_away(client, why),
        }
    }

    // Has a client be served as the one that the header which it sent tells.
    fn serve_told(&mut self, tasks: &mut ConnLoop<U, D, R>, client: Awaiting, sent: SentHeader)
        ensures heard { IsAwaitedOrTold (tasks_of tasks.old) (tasks_of tasks.new)
            (client_awaited client) (counted_awaited client) (arc_value self.old.context.shared).safeguards.connect_ms }
        ensures armed { StayArmed (tasks_of tasks.old) (tasks_of tasks.new) }
    {
        match client.told(sent) {
            Ok(told) => self.serve_seated(tasks, told),
            Err(client) => {
                let why = client.failure();
                self.turn_away(client, why);
            }
        }
    }

    // Serves a client that has said who it is, where its source has a seat for it.
    fn serve_seated(&mut self, tasks: &mut ConnLoop<U, D, R>, client: ToldClient)
        ensures served { IsServedSeated (tasks_of tasks.old) (tasks_of tasks.new)
            client.acceptance client.counted (arc_value self.old.context.shared).safeguards.connect_ms }
        ensures armed { StayArmed (tasks_of tasks.old) (tasks_of tasks.new) }
    {
        let now = self.context.clock.now();
        match client.seated(&self.context.rt, now) {
            Ok(client) => self.serve_client(tasks, Delivered::told(client)),
            Err(unseated) => {
                let Unseated { acceptance, why } = unseated;
                let owed = Arrival::new(acceptance).refused(&self.context, why);
                owed.tell(&self.context.shared);
            }
        }
    }

    /// Serves each client whose header is whole. (no task goes on meanwhile, so that nobody is noted)
    pub(crate) fn serve_heads(&mut self, tasks: &mut ConnLoop<U, D, R>)
        ensures none { self.new.heads.items ≡ [] }
        ensures armed { StayArmed (tasks_of tasks.old) (tasks_of tasks.new) }
    {
        let mut heads = mem::replace(&mut self.heads, Vec::new(self.context.alloc));
        while let Some(token) = heads.pop() {
            self.serve_head(tasks, token);
        }
        self.heads = heads;
    }

    // Serves the client whose task this token names, if that is there still.
    fn serve_head(&mut self, tasks: &mut ConnLoop<U, D, R>, token: u64)
        ensures armed { StayArmed (tasks_of tasks.old) (tasks_of tasks.new) }
    {
        match tasks.take(token) {
            Some(LoopTask::Awaiting(client)) => {
                let mut client = client;
                match client.deregister(tasks.poller()) {
                    Ok(()) => self.go_on_awaiting(tasks, client),
                    Err(why) => self.turn_away(client, why),
                }
            }
            Some(other) => self.end_task(other),
            None => {}
        }
    }
}
