//! A connection between two targets: the one before was let go, and the next one is dialled before its
//! loop's next turn. Nothing of its client is read meanwhile.

ghost use Rattle.std.specs.Prelude.{◌≡◌, IfOk, IfErr, IfSome, OnOk, OnErr};
ghost use Rattle.base_types.specs.declared.direction.Dir.{Dir};
ghost use Rattle.fd_descriptor.specs.TaskHalf.{descriptor_of_half};
ghost use Rattle.readiness.specs.declared.loop_token.Side.{Side};
ghost use Rattle.relay_conn.specs.Connection.{seeks_until};
ghost use Rattle.relay_conn.specs.Deadlines.{TellsCalls};
ghost use Rattle.relay_conn.specs.Dialing.{DialsNext, KeepsSeeking, LetsGo};
ghost use Rattle.relay_conn.specs.Seeking.{IsClientGone, IsNotTried, IsTriedNext, how_untried};
ghost use Rattle.relay_shared.specs.Drained.{WasDrained};

use crate::dialing::{Dialing, NewWay};
use crate::heard::{after_telling, stop_ahead_of};
use crate::others::{Others, others_of};
use crate::side::{LeftSide, OpenSide, drain_side, takes_deadline};
use crate::trial::{NoTrial, Trial, Unreached, next_trial};
use base_types::Dir;
use deadline_core::{Deadline, earlier};
use log_writer::Log;
use readiness::{Side, Why};
use relay_core::{Ended, FlowState, PairTasks, Way};
use relay_facts::connection_facts::ConnectionFacts;
use relay_facts::how_ended::how_of;
use relay_facts::target_list::Picked;
use relay_log::ended::{Cause, Ended as How};
use rwloops::{DevKind, Fault};
use std::net::Net;
use std::sync::ledger::Ledger;
use std::sync::{Arc, Wait};
use std::time::Clock;

/// A connection whose target before was let go.
#[derive(Drop)]
pub struct Seeking<U: Ledger, D: Ledger, R: Wait + Clock + Copy> {
    pub(crate) client: OpenSide<R>,
    pub(crate) up: NewWay<U, R>,
    pub(crate) down: NewWay<D, R>,
    pub(crate) tasks: PairTasks,
    pub(crate) connect_by: Option<u64>,
    pub(crate) others: Option<Others>,
    /// Why the target before wasn't reached.
    pub(crate) last: Option<How>,
    /// Why it isn't to be connected any more, if so.
    pub(crate) failure: Option<How>,
}

/// The next target's side, of whose socket the poller tells under this token, and how it was picked.
#[derive(Drop)]
pub struct NextTarget<R: Wait + Copy> {
    pub(crate) side: OpenSide<R>,
    pub(crate) picked: Picked,
    pub(crate) token: u64,
}

// How a connection ends for which no target is tried any more: by what came of the last one.
fn how_untried(last: Option<Unreached>, before: Option<How>) -> How
    ensures { result ≡ how_untried last before }
{
    match last {
        Some(last) => How::NoTarget(last.cause),
        None => before.unwrap_or(How::NoTarget(Cause::Unreachable)),
    }
}

impl<U: Ledger, D: Ledger, R: Wait + Clock + Copy> Seeking<U, D, R> {
    /// A connection whose target failed. That is closed here, before the next one is dialled: so its
    /// token never tells of two sockets. What was told of it isn't kept.
    pub(crate) fn of(rt: &R, dialing: Dialing<U, D, R>) -> Seeking<U, D, R>
        ensures { LetsGo dialing result }
    {
        let Dialing {
            client,
            target,
            others,
            up,
            down,
            tasks,
            connect_by,
            failure,
        } = dialing;
        LeftSide::of(target.reader, target.writer).close(rt);
        Seeking {
            client,
            up,
            down,
            tasks: PairTasks {
                up: tasks.up,
                down: FlowState::Waits(Dir::Read),
                failed: tasks.failed,
            },
            connect_by,
            others,
            last: failure,
            failure: None,
        }
    }

    /// The moment at which it is given up.
    pub(crate) fn until(&self) -> Option<u64>
        ensures { result ≡ seeks_until self.now }
    {
        let reads = earlier(
            self.up.time.moment(Dir::Read),
            self.down.time.moment(Dir::Read),
        );
        earlier(self.connect_by, reads)
    }

    /// Keeps what its loop heard of its client.
    pub(crate) fn hear(&mut self, why: Why)
        ensures kept { KeepsSeeking self.old self.new why }
    {
        self.client.state.resume(stop_ahead_of(Way::Up, why));
        self.tasks = after_telling(&self.tasks, why);
    }

    // How its client has gone, if it has. (no accepted socket is refused)
    fn client_gone(&mut self, rt: &R) -> Option<How>
        ensures kept { self.new ≡ record self.old {
          client = record self.old.client { writer = self.new.client.writer };
        } }
        ensures gone { IfSome result IsClientGone }
    {
        match self.client.connected(rt) {
            Some(Err(Fault::Device(kind))) if kind != DevKind::Refused => {
                Some(how_of(&Ended::ReadFault(Fault::Device(kind))))
            }
            _ => None,
        }
    }

    /// Begins a connection to the next target, which its facts name from then on; or says how it
    /// ends, where its client has gone, no target is left, or there is no descriptor.
    pub(crate) fn next_trial(
        &mut self,
        rt: &R,
        log: &Option<Arc<Log>>,
        facts: &ConnectionFacts,
    ) -> Result<Trial, How>
    where
        R: Net,
        ensures kept { self.new ≡ record self.old {
          client = record self.old.client { writer = self.new.client.writer };
        } }
        ensures trial { IfOk result (IsTriedNext facts.now.acceptance self.old) }
        ensures none { IfErr result (IsNotTried facts.now.acceptance self.old) }
    {
        if let Some(how) = self.client_gone(rt) {
            return Err(how);
        }
        let Some(others) = self.others else {
            return Err(how_untried(None, self.last));
        };
        match next_trial(rt, log, &facts.acceptance, others.tried) {
            Ok(trial) => {
                facts.try_target(trial.place());
                facts.note_dial(trial.dialled.began);
                Ok(trial)
            }
            Err(none) => {
                note_last(facts, &none);
                Err(how_untried(none.last, self.last))
            }
        }
    }

    /// Dials the next target by this side.
    pub(crate) fn dial_on(self, next: NextTarget<R>, now: u64) -> Dialing<U, D, R>
        ensures { DialsNext self result next now }
    {
        let until = self.until();
        let Seeking {
            client,
            up,
            down,
            tasks,
            connect_by,
            others: _,
            last: _,
            failure: _,
        } = self;
        let NextTarget {
            side,
            picked,
            token,
        } = next;
        Dialing {
            client,
            target: side,
            others: others_of(&picked, token, now, until),
            up,
            down,
            tasks,
            connect_by,
            failure: None,
        }
    }

    /// Drains its client's side. Its target's is closed by now.
    pub(crate) fn drain(&mut self, rt: &R, side: Side) -> Result<(), Fault>
        ensures client { side ≡ Side.First
            → OnOk result (WasDrained (descriptor_of_half self.old.client.reader)) }
        ensures target { side ≡ Side.Second → OnOk result ⊥ }
        ensures kept { self.new ≡ record self.old {
          client = record self.old.client { reader = self.new.client.reader };
        } }
    {
        match side {
            Side::First => drain_side(rt, &mut self.client.reader),
            Side::Second => Err(Fault::Closed),
        }
    }

    /// Sets the deadline of its client's side, unless that takes none. Its target's is closed by now.
    pub(crate) fn set_deadline(&mut self, side: Side, deadline: Deadline) -> Result<(), Fault>
        ensures client { side ≡ Side.First → OnOk result (TellsCalls self.old.up.time.deadlines
            self.new.up.time.deadlines Dir.Read deadline) }
        ensures client_written { side ≡ Side.First → OnOk result (TellsCalls
            self.old.down.time.deadlines self.new.down.time.deadlines Dir.Write deadline) }
        ensures target { side ≡ Side.Second → OnOk result ⊥ }
        ensures refused_up { OnErr result (self.new.up ≡ self.old.up) }
        ensures refused_down { OnErr result (self.new.down ≡ self.old.down) }
        ensures connect_by { self.new.connect_by ≡ self.old.connect_by }
    {
        match side {
            Side::First => takes_deadline(&mut self.client.reader)?,
            Side::Second => return Err(Fault::Closed),
        }
        self.up.time.tell(Dir::Read, deadline);
        self.down.time.tell(Dir::Write, deadline);
        Ok(())
    }
}

// Has the facts name the target that was dialled last, if one was.
fn note_last(facts: &ConnectionFacts, none: &NoTrial) {
    if let Some(last) = none.last {
        facts.try_target(last.place);
    }
}
