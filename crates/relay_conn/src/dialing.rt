//! A connection whose target isn't connected yet. No side is read meanwhile: what is told of one is
//! kept, and the ways begin with it.

ghost use Rattle.std.specs.Prelude.{◌≡◌, ◌↔◌, ◌⊎◌, true, Some, None, IsSome};
ghost use Rattle.base_types.specs.declared.direction.Dir.{Dir};
ghost use Rattle.deadline_core.specs.Moments.{earlier_of};
ghost use Rattle.relay_conn.specs.Cause as spec;
ghost use Rattle.relay_conn.specs.Connection.{given_up_at};
ghost use Rattle.relay_conn.specs.Dialing.{KeepsDial, MayFail, is_device};
ghost use Rattle.relay_conn.specs.Heard.{KeepsWhatIsTold, IsTime, stop_told};
ghost use Rattle.relay_conn.specs.Others.{IsNoted, moves_on_in};
ghost use Rattle.relay_conn.specs.declared.dialing.DialStep.{DialStep};
ghost use Rattle.relay_core.specs.SourceState.{resumed};
ghost use Rattle.relay_core.specs.declared.ways.Way.{Way};
ghost use Rattle.relay_log.specs.declared.ended.Cause.{Cause};
ghost use Rattle.relay_log.specs.declared.ended.Ended.{Ended as How};

use crate::cause::how_undialled;
use crate::flow::OwnShare;
use crate::heard::{after_telling, stop_ahead_of};
use crate::others::{Dials, Others};
use crate::side::OpenSide;
use crate::way_time::WayTime;
use base_types::Dir;
use deadline_core::earlier;
use readiness::Why;
use relay_core::{Copying, Ended, PairTasks, Way, has_come};
use relay_facts::clock::RelayClock;
use relay_facts::how_ended::how_of;
use relay_log::ended::{Cause, Ended as How};
use rwloops::Fault;
use std::sync::Wait;
use std::sync::ledger::Ledger;
use std::time::Clock;

/// A way that hasn't begun: what it will copy by, which takes no memory any more.
#[derive(Drop)]
pub(crate) struct NewWay<L: Ledger, R: Wait + Clock + Copy> {
    pub(crate) copying: Copying,
    pub(crate) share: OwnShare<L>,
    pub(crate) time: WayTime<RelayClock<R>>,
}

/// A connection whose target isn't connected yet.
#[derive(Drop)]
pub struct Dialing<U: Ledger, D: Ledger, R: Wait + Clock + Copy> {
    /// The client, of which nothing is read.
    pub(crate) client: OpenSide<R>,
    /// The target that is tried. What it gets first is made once it is connected.
    pub(crate) target: OpenSide<R>,
    /// The targets that may be tried in its place, if any is left.
    pub(crate) others: Option<Others>,
    pub(crate) up: NewWay<U, R>,
    pub(crate) down: NewWay<D, R>,
    /// How the ways begin: each waits for its source, unless the poller has told of that.
    pub(crate) tasks: PairTasks,
    /// A target is to be connected by this moment, whichever it is, if that has a time.
    pub(crate) connect_by: Option<u64>,
    /// Why it isn't to be connected any more, if so.
    pub(crate) failure: Option<How>,
}

/// What a turn of such a connection came to.
#[derive(Clone, Copy, Debug, PartialEq, Eq, Drop)]
pub(crate) enum DialStep {
    /// Its target isn't connected yet.
    Waits,
    /// It is, and its ways may begin.
    Connected,
    /// Its target can't be connected, or not soon enough, and another one is to be tried.
    Seeks,
    /// Its target can't be connected, and it ends.
    Failed,
    /// Its client has gone.
    Gone,
    /// Its moment has come.
    Late,
}

// Whether a fault of a dial is its target's: not where the descriptor or its lock word refused.
fn blames_target(fault: Fault) -> bool
    ensures { result ≡ is_device fault }
{
    match fault {
        Fault::Device(_) => true,
        _ => false,
    }
}

impl<U: Ledger, D: Ledger, R: Wait + Clock + Copy> Dialing<U, D, R> {
    /// The moment at which it is given up: when a target is to be connected, or a side's read gives
    /// up, whichever comes first.
    pub(crate) fn given_up_at(&self) -> Option<u64>
        ensures { result ≡ given_up_at self.now }
    {
        let reads = earlier(
            self.up.time.moment(Dir::Read),
            self.down.time.moment(Dir::Read),
        );
        earlier(self.connect_by, reads)
    }

    // The moment at which another target is tried, if one is left.
    fn moves_on_at(&self) -> Option<u64>
        ensures { result ≡ moves_on_in self.now.others }
    {
        match &self.others {
            Some(others) => others.moves_on_at,
            None => None,
        }
    }

    /// The moment that it awaits: when another target is tried, or when it is given up.
    pub(crate) fn until(&self) -> Option<u64>
        ensures { result ≡ earlier_of (moves_on_in self.now.others) (given_up_at self.now) }
    {
        earlier(self.moves_on_at(), self.given_up_at())
    }

    /// Goes on by what its loop heard. A target that is connected, or has failed, before the moment
    /// comes is told so, also where this is late.
    pub(crate) fn go_on(&mut self, dials: &mut Dials<R>, why: Why) -> DialStep
        ensures kept { KeepsDial self.old self.new why }
        ensures waits { result ≡ DialStep.Waits → self.new.failure ≡ self.old.failure }
        ensures timely { result ≡ DialStep.Waits → IsTime why (given_up_at self.old) → ⊥ }
        ensures moves { result ≡ DialStep.Waits → IsTime why (moves_on_in self.old.others) → ⊥ }
        ensures late { result ≡ DialStep.Late → IsTime why (given_up_at self.old) }
        ensures timeout { result ≡ DialStep.Late
            → self.new.failure ≡ Some (How.NoTarget Cause.Timeout) }
        ensures failed { result ≡ DialStep.Failed → IsSome self.new.failure }
        ensures last { result ≡ DialStep.Failed → MayFail self.old why self.new.failure }
        ensures gone { result ≡ DialStep.Gone → IsSome self.new.failure }
        ensures told { result ≡ DialStep.Gone → stop_told why Way.Up ≡ true }
        ensures seeks { result ≡ DialStep.Seeks → IsSome self.new.failure }
        ensures over { result ≡ DialStep.Seeks → IsTime why (given_up_at self.old) → ⊥ }
        ensures noted { result ≡ DialStep.Seeks
            → IsNoted self.old.others dials.old dials.new }
    {
        self.hear(why);
        match self.ask_sides(dials, why) {
            DialStep::Waits => self.look_at_time(dials, why),
            other => other,
        }
    }

    // Keeps what its loop heard of both sides.
    fn hear(&mut self, why: Why)
        ensures kept { self.new ≡ record self.old {
          client = record self.old.client { state = self.new.client.state };
          target = record self.old.target { state = self.new.target.state };
          tasks = self.new.tasks;
        } }
        ensures up { self.new.client.state ≡ resumed self.old.client.state (stop_told why Way.Up) }
        ensures down { self.new.target.state
            ≡ resumed self.old.target.state (stop_told why Way.Down) }
        ensures told { KeepsWhatIsTold self.old.tasks self.new.tasks why }
    {
        self.client.state.resume(stop_ahead_of(Way::Up, why));
        self.target.state.resume(stop_ahead_of(Way::Down, why));
        self.tasks = after_telling(&self.tasks, why);
    }

    // What came of the target, or of the client.
    fn ask_sides(&mut self, dials: &mut Dials<R>, why: Why) -> DialStep
        ensures kept { self.new ≡ record self.old {
          client = record self.old.client { writer = self.new.client.writer };
          target = record self.old.target { writer = self.new.target.writer };
          failure = self.new.failure;
        } }
        ensures timed { result ≡ DialStep.Late → ⊥ }
        ensures waits { result ≡ DialStep.Waits → self.new.failure ≡ self.old.failure }
        ensures failed { result ≡ DialStep.Failed → IsSome self.new.failure }
        ensures last { result ≡ DialStep.Failed → MayFail self.old why self.new.failure }
        ensures gone { result ≡ DialStep.Gone → IsSome self.new.failure }
        ensures told { result ≡ DialStep.Gone → stop_told why Way.Up ≡ true }
        ensures seeks { result ≡ DialStep.Seeks → IsSome self.new.failure }
        ensures over { result ≡ DialStep.Seeks → IsTime why (given_up_at self.old) → ⊥ }
        ensures noted { result ≡ DialStep.Seeks
            → IsNoted self.old.others dials.old dials.new }
        ensures unnoted { result ≡ DialStep.Waits → dials.new ≡ dials.old }
    {
        match self.target.connected(&dials.rt) {
            Some(Ok(())) => DialStep::Connected,
            Some(Err(fault)) => self.target_failed(dials, why, fault),
            None => self.ask_client(&dials.rt, why),
        }
    }

    // Whether this tells that its time is over.
    fn is_over(&self, why: Why) -> bool
        ensures { result ≡ true ↔ IsTime why (given_up_at self.now) }
    {
        match why {
            Why::Time { now } => has_come(self.given_up_at(), now),
            _ => false,
        }
    }

    // Its target can't be connected: another one is tried, if it was the target's fault and there is
    // time left.
    fn target_failed(&mut self, dials: &mut Dials<R>, why: Why, fault: Fault) -> DialStep
        ensures kept { self.new ≡ record self.old { failure = self.new.failure } }
        ensures step { (result ≡ DialStep.Seeks) ⊎ (result ≡ DialStep.Failed) }
        ensures either { (self.new.failure ≡ Some (spec.how_undialled fault))
            ⊎ (self.new.failure ≡ Some How.NoMemory) }
        ensures failed { IsSome self.new.failure }
        ensures last { result ≡ DialStep.Failed → MayFail self.old why self.new.failure }
        ensures over { result ≡ DialStep.Seeks → IsTime why (given_up_at self.old) → ⊥ }
        ensures noted { result ≡ DialStep.Seeks
            → IsNoted self.old.others dials.old dials.new }
    {
        let how = how_undialled(fault);
        if blames_target(fault) && !self.is_over(why) {
            return self.move_on(dials, how);
        }
        self.failure = Some(how);
        DialStep::Failed
    }

    // Has another target be tried, after this failure of its own; or ends, where none is left, or
    // where there is no memory to note that.
    fn move_on(&mut self, dials: &mut Dials<R>, how: How) -> DialStep
        ensures kept { self.new ≡ record self.old { failure = self.new.failure } }
        ensures step { (result ≡ DialStep.Seeks) ⊎ (result ≡ DialStep.Failed) }
        ensures seeks { result ≡ DialStep.Seeks → self.new.failure ≡ Some how }
        ensures either { (self.new.failure ≡ Some how) ⊎ (self.new.failure ≡ Some How.NoMemory) }
        ensures failed { IsSome self.new.failure }
        ensures last { result ≡ DialStep.Failed → (self.old.others ≡ None)
            ⊎ (self.new.failure ≡ Some How.NoMemory) }
        ensures noted { result ≡ DialStep.Seeks
            → IsNoted self.old.others dials.old dials.new }
    {
        self.failure = Some(how);
        let Some(others) = self.others else {
            return DialStep::Failed;
        };
        if dials.note(others.token) {
            return DialStep::Seeks;
        }
        self.failure = Some(How::NoMemory);
        DialStep::Failed
    }

    // Whether its client is there still, where something was told of it.
    fn ask_client(&mut self, rt: &R, why: Why) -> DialStep
        ensures kept { self.new ≡ record self.old {
          client = record self.old.client { writer = self.new.client.writer };
          failure = self.new.failure;
        } }
        ensures step { (result ≡ DialStep.Waits) ⊎ (result ≡ DialStep.Gone) }
        ensures waits { result ≡ DialStep.Waits → self.new.failure ≡ self.old.failure }
        ensures gone { result ≡ DialStep.Gone → IsSome self.new.failure }
        ensures told { result ≡ DialStep.Gone → stop_told why Way.Up ≡ true }
    {
        if !stop_ahead_of(Way::Up, why) {
            return DialStep::Waits;
        }
        match self.client.connected(rt) {
            Some(Err(Fault::Device(kind))) => {
                self.failure = Some(how_of(&Ended::ReadFault(Fault::Device(kind))));
                DialStep::Gone
            }
            _ => DialStep::Waits,
        }
    }

    // Gives its target up, or has another one be tried, if this tells that the moment for it has
    // come.
    fn look_at_time(&mut self, dials: &mut Dials<R>, why: Why) -> DialStep
        ensures late { result ≡ DialStep.Late → IsTime why (given_up_at self.old) }
        ensures timely { result ≡ DialStep.Waits → IsTime why (given_up_at self.old) → ⊥ }
        ensures moves { result ≡ DialStep.Waits → IsTime why (moves_on_in self.old.others) → ⊥ }
        ensures timeout { result ≡ DialStep.Late
            → self.new.failure ≡ Some (How.NoTarget Cause.Timeout) }
        ensures moved { result ≡ DialStep.Seeks
            → self.new.failure ≡ Some (How.NoTarget Cause.Timeout) }
        ensures others { (result ≡ DialStep.Connected → ⊥) × (result ≡ DialStep.Gone → ⊥) }
        ensures failed { result ≡ DialStep.Failed → IsSome self.new.failure }
        ensures last { result ≡ DialStep.Failed → MayFail self.old why self.new.failure }
        ensures seeks { result ≡ DialStep.Seeks → IsSome self.new.failure }
        ensures over { result ≡ DialStep.Seeks → IsTime why (given_up_at self.old) → ⊥ }
        ensures noted { result ≡ DialStep.Seeks
            → IsNoted self.old.others dials.old dials.new }
        ensures waits { result ≡ DialStep.Waits → self.new.failure ≡ self.old.failure }
        ensures kept { self.new ≡ record self.old { failure = self.new.failure } }
    {
        if self.is_over(why) {
            self.failure = Some(How::NoTarget(Cause::Timeout));
            return DialStep::Late;
        }
        match why {
            Why::Time { now } if has_come(self.moves_on_at(), now) => {
                self.move_on(dials, How::NoTarget(Cause::Timeout))
            }
            _ => DialStep::Waits,
        }
    }
}
