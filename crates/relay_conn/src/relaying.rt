//! A connection whose target is connected: both its ways go on until each is over.

ghost use Rattle.std.specs.Prelude.{◌≡◌, ◌<◌, ◌↔◌, ◌⊎◌, ℕ, [], true, false, None, OnOk, OnErr, length};
ghost use Rattle.base_types.specs.declared.direction.Dir.{Dir};
ghost use Rattle.fd_descriptor.specs.TaskHalf.{KeepsHalf, descriptor_of_half};
ghost use Rattle.readiness.specs.declared.loop_token.Side.{Side};
ghost use Rattle.relay_conn.specs.Cause as spec;
ghost use Rattle.relay_conn.specs.Connection.{gives_up, first_given_up};
ghost use Rattle.relay_conn.specs.Deadlines.{HasCome, TellsCalls};
ghost use Rattle.relay_conn.specs.Heard.{stop_told};
ghost use Rattle.relay_conn.specs.Relaying.{Expires, GoneOn, begun_tasks};
ghost use Rattle.relay_core.specs.Passing.{Bytes};
ghost use Rattle.relay_facts.specs.Header.{first_bytes};
ghost use Rattle.relay_conn.specs.Flow.{heard, Went};
ghost use Rattle.relay_core.specs.PairTasks.{flow_state_of, flow_state_after, other_way};
ghost use Rattle.relay_core.specs.PairTasks.{HasToClose, MayGoOn, IsFailure};
ghost use Rattle.relay_core.specs.declared.pair_tasks.PairNext.{PairNext};
ghost use Rattle.relay_core.specs.declared.passing.Step.{Step};
ghost use Rattle.relay_core.specs.declared.ways.Way.{Way};
ghost use Rattle.relay_shared.specs.Drained.{WasDrained};

use crate::cause::{failure_after, given_up};
use crate::dialing::Dialing;
use crate::flow::Flow;
use crate::heard::{stop_ahead_of, ways_by};
use crate::side::{drain_side, takes_deadline};
use crate::task_gate::TaskGate;
use base_types::Dir;
use deadline_core::{Deadline, earlier};
use readiness::{Side, Why};
use relay_core::{Credits, FlowState, LoopMemory, PairNext, PairTasks, Step, Way, has_come};
use relay_facts::books::LoopBooks;
use relay_facts::connection_facts::Acceptance;
use relay_log::ended::Ended as How;
use rwloops::Fault;
use std::sync::Wait;
use std::sync::ledger::Ledger;
use std::time::Clock;

/// Both ways of a connection, how far they are, and how the way failed that did first, if one did.
#[derive(Drop)]
pub struct Relaying<U: Ledger, D: Ledger, R: Wait + Clock + Copy> {
    pub(crate) tasks: PairTasks,
    pub(crate) up: Flow<U, R>,
    pub(crate) down: Flow<D, R>,
    pub(crate) failure: Option<How>,
}

// How ways stand that begin, of which the way up has a header to write or not.
fn begun_tasks(tasks: PairTasks, heading: bool) -> PairTasks
    ensures { result ≡ begun_tasks tasks heading }
{
    if !heading {
        return tasks;
    }
    PairTasks {
        up: FlowState::Ready,
        down: tasks.down,
        failed: tasks.failed,
    }
}

impl<U: Ledger, D: Ledger, R: Wait + Clock + Copy> Relaying<U, D, R> {
    /// The ways of the connection of this client, whose target is connected now. What that gets first
    /// stands before all that is copied to it.
    pub(crate) fn of(
        rt: &R,
        acceptance: &Acceptance,
        dialing: Dialing<U, D, R>,
    ) -> Relaying<U, D, R>
        ensures client_feeds_up { result.up.gate.source ≡ dialing.client.reader }
        ensures up_feeds_target { KeepsHalf dialing.target.writer result.up.gate.target }
        ensures target_feeds_down { result.down.gate.source ≡ dialing.target.reader }
        ensures down_feeds_client { KeepsHalf dialing.client.writer result.down.gate.target }
        ensures up_state { result.up.gate.source_state ≡ dialing.client.state }
        ensures down_state { result.down.gate.source_state ≡ dialing.target.state }
        ensures up_time { result.up.gate.time ≡ dialing.up.time }
        ensures down_time { result.down.gate.time ≡ dialing.down.time }
        ensures up_first { result.up.copying ≡ Bytes (first_bytes acceptance.now) }
        ensures down_first { result.down.copying ≡ Bytes [] }
        ensures heading { result.up.heading ≡ true ↔ 0 < length (first_bytes acceptance.now) }
        ensures down_heading { result.down.heading ≡ false }
        ensures up_share { result.up.share ≡ dialing.up.share }
        ensures down_share { result.down.share ≡ dialing.down.share }
        ensures tasks { result.tasks ≡ begun_tasks dialing.tasks result.up.heading }
        ensures unfailed { result.failure ≡ None }
    {
        let Dialing {
            mut client,
            mut target,
            others: _,
            mut up,
            mut down,
            tasks,
            connect_by: _,
            failure: _,
        } = dialing;
        client.begin_writes(rt);
        target.begin_writes(rt);
        let first = acceptance.first_bytes();
        let heading = !first.is_empty();
        up.copying.begin_with(first.as_slice());
        down.copying.begin_with(&[]);
        Relaying {
            tasks: begun_tasks(tasks, heading),
            up: Flow {
                gate: TaskGate::new(up.time, client.reader, client.state, target.writer),
                copying: up.copying,
                heading,
                share: up.share,
                passed: 0,
            },
            down: Flow {
                gate: TaskGate::new(down.time, target.reader, target.state, client.writer),
                copying: down.copying,
                heading: false,
                share: down.share,
                passed: 0,
            },
            failure: None,
        }
    }

    /// Goes on by what its loop heard, and says what follows.
    pub(crate) fn go_on(
        &mut self,
        books: &mut LoopBooks<U, D>,
        why: Why,
        memory: &mut LoopMemory,
    ) -> PairNext
        ensures { GoneOn self.old self.new why result }
    {
        if let Why::Time { now } = why {
            return self.expire(now);
        }
        let ways = ways_by(&self.tasks, why);
        self.hear(why);
        self.up_on(&mut books.up, memory, ways.up);
        self.down_on(&mut books.down, memory, ways.down);
        self.tasks.next()
    }

    // Has both ways know what its loop heard of their sources, also one that doesn't go on by it.
    fn hear(&mut self, why: Why)
        ensures up { self.new.up ≡ heard self.old.up (stop_told why Way.Up) }
        ensures down { self.new.down ≡ heard self.old.down (stop_told why Way.Down) }
        ensures tasks { self.new.tasks ≡ self.old.tasks }
    {
        self.up.hear(stop_ahead_of(Way::Up, why));
        self.down.hear(stop_ahead_of(Way::Down, why));
    }

    // Has the way up go on, where it does.
    fn up_on<C: Credits<U>>(&mut self, book: &mut C, memory: &mut LoopMemory, goes: bool)
        ensures went { goes ≡ true → (step : Step) × (Went self.old.up self.new.up step)
            × (self.new.tasks.up ≡ flow_state_after step) }
        ensures stays { goes ≡ false → self.new ≡ self.old }
        ensures down { self.new.down ≡ self.old.down }
        ensures down_stands { self.new.tasks.down ≡ self.old.tasks.down }
    {
        if goes {
            let step = self.up.go_on(book, memory);
            self.note(Way::Up, &step);
        }
    }

    // Has the way down go on, where it does and nothing is to be closed.
    fn down_on<C: Credits<D>>(&mut self, book: &mut C, memory: &mut LoopMemory, goes: bool)
        ensures went { goes ≡ true → ((step : Step) × (Went self.old.down self.new.down step)
            × (self.new.tasks.down ≡ flow_state_after step))
            ⊎ (HasToClose self.new.tasks × (self.new ≡ self.old)) }
        ensures stays { goes ≡ false → self.new ≡ self.old }
        ensures after_end { HasToClose self.old.tasks → self.new ≡ self.old }
        ensures up { self.new.up ≡ self.old.up }
        ensures up_stands { self.new.tasks.up ≡ self.old.tasks.up }
    {
        if goes && self.tasks.next() != PairNext::Closes {
            let step = self.down.go_on(book, memory);
            self.note(Way::Down, &step);
        }
    }

    // Notes how far a way came, and the first end that is a failure.
    fn note(&mut self, way: Way, step: &Step)
        ensures noted { flow_state_of self.new.tasks way ≡ flow_state_after step.now }
        ensures kept { flow_state_of self.new.tasks (other_way way)
            ≡ flow_state_of self.old.tasks (other_way way) }
        ensures fails { self.new.tasks.failed ≡ true
            ↔ ((self.old.tasks.failed ≡ true) ⊎ IsFailure step.now) }
        ensures failure { self.new.failure ≡ spec.failure_after self.old.failure step.now }
        ensures up { self.new.up ≡ self.old.up }
        ensures down { self.new.down ≡ self.old.down }
    {
        self.failure = failure_after(self.failure, step);
        self.tasks.note(way, step);
    }

    // The moment at which a way gives up that stands so.
    fn moment(&self, way: Way) -> Option<u64>
        ensures { result ≡ gives_up self.now way }
    {
        match way {
            Way::Up => self.up.gives_up_at(self.tasks.up),
            Way::Down => self.down.gives_up_at(self.tasks.down),
        }
    }

    /// The moment at which the first of its ways gives up.
    pub(crate) fn until(&self) -> Option<u64>
        ensures { result ≡ first_given_up self.now }
    {
        earlier(self.moment(Way::Up), self.moment(Way::Down))
    }

    // Ends a way that has given up by this moment.
    fn expire_way(&mut self, way: Way, now: u64)
        ensures expires { Expires self.old self.new way now }
        ensures failed { self.old.tasks.failed ≡ true → self.new.tasks.failed ≡ true }
        ensures other { flow_state_of self.new.tasks (other_way way)
            ≡ flow_state_of self.old.tasks (other_way way) }
        ensures up { self.new.up ≡ self.old.up }
        ensures down { self.new.down ≡ self.old.down }
        ensures early { (HasCome (gives_up self.old way) now → ⊥) → self.new ≡ self.old }
    {
        let state = match way {
            Way::Up => self.tasks.up,
            Way::Down => self.tasks.down,
        };
        if !has_come(self.moment(way), now) {
            return;
        }
        if let FlowState::Waits(dir) = state {
            self.note(way, &given_up(dir));
        }
    }

    /// Ends the ways that have given up by this moment, and says what follows.
    pub(crate) fn expire(&mut self, now: u64) -> PairNext
        ensures expires { (way : Way) → Expires self.old self.new way now }
        ensures early { ((way : Way) → HasCome (gives_up self.old way) now → ⊥)
            → self.new ≡ self.old }
        ensures closes { result ≡ PairNext.Closes ↔ HasToClose self.new.tasks }
        ensures again { result ≡ PairNext.Again ↔ MayGoOn self.new.tasks }
    {
        self.expire_way(Way::Up, now);
        self.expire_way(Way::Down, now);
        self.tasks.next()
    }

    /// Drains a side.
    pub(crate) fn drain(&mut self, rt: &R, side: Side) -> Result<(), Fault>
        ensures client { side ≡ Side.First
            → OnOk result (WasDrained (descriptor_of_half self.old.up.gate.source)) }
        ensures target { side ≡ Side.Second
            → OnOk result (WasDrained (descriptor_of_half self.old.down.gate.source)) }
        ensures tasks { self.new.tasks ≡ self.old.tasks }
        ensures failure { self.new.failure ≡ self.old.failure }
        ensures up_time { self.new.up.gate.time ≡ self.old.up.gate.time }
        ensures down_time { self.new.down.gate.time ≡ self.old.down.gate.time }
    {
        match side {
            Side::First => drain_side(rt, &mut self.up.gate.source),
            Side::Second => drain_side(rt, &mut self.down.gate.source),
        }
    }

    /// Sets the deadline of a side, unless that takes none.
    pub(crate) fn set_deadline(&mut self, side: Side, deadline: Deadline) -> Result<(), Fault>
        ensures client_read { side ≡ Side.First → OnOk result (TellsCalls
            self.old.up.gate.time.deadlines self.new.up.gate.time.deadlines Dir.Read deadline) }
        ensures client_written { side ≡ Side.First → OnOk result (TellsCalls
            self.old.down.gate.time.deadlines self.new.down.gate.time.deadlines Dir.Write deadline) }
        ensures target_read { side ≡ Side.Second → OnOk result (TellsCalls
            self.old.down.gate.time.deadlines self.new.down.gate.time.deadlines Dir.Read deadline) }
        ensures target_written { side ≡ Side.Second → OnOk result (TellsCalls
            self.old.up.gate.time.deadlines self.new.up.gate.time.deadlines Dir.Write deadline) }
        ensures refused_up { OnErr result (self.new.up.gate.time ≡ self.old.up.gate.time) }
        ensures refused_down { OnErr result (self.new.down.gate.time ≡ self.old.down.gate.time) }
        ensures tasks { self.new.tasks ≡ self.old.tasks }
    {
        match side {
            Side::First => takes_deadline(&mut self.up.gate.source)?,
            Side::Second => takes_deadline(&mut self.down.gate.source)?,
        }
        self.tell(side, deadline);
        Ok(())
    }

    // A session says when the calls of a side give up.
    fn tell(&mut self, side: Side, deadline: Deadline)
        ensures client_read { side ≡ Side.First → TellsCalls self.old.up.gate.time.deadlines
            self.new.up.gate.time.deadlines Dir.Read deadline }
        ensures client_written { side ≡ Side.First → TellsCalls self.old.down.gate.time.deadlines
            self.new.down.gate.time.deadlines Dir.Write deadline }
        ensures target_read { side ≡ Side.Second → TellsCalls self.old.down.gate.time.deadlines
            self.new.down.gate.time.deadlines Dir.Read deadline }
        ensures target_written { side ≡ Side.Second → TellsCalls self.old.up.gate.time.deadlines
            self.new.up.gate.time.deadlines Dir.Write deadline }
        ensures tasks { self.new.tasks ≡ self.old.tasks }
    {
        match side {
            Side::First => {
                self.up.gate.time.tell(Dir::Read, deadline);
                self.down.gate.time.tell(Dir::Write, deadline);
            }
            Side::Second => {
                self.down.gate.time.tell(Dir::Read, deadline);
                self.up.gate.time.tell(Dir::Write, deadline);
            }
        }
    }
}
