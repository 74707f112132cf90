//! How a connection comes from one target to the next, between two turns of its loop: the next one
//! is begun, registered under the same token, and dialled in place of the one before.

ghost use Rattle.std.specs.Prelude.{◌≡◌, Some, IfOk, IfErr, IfSome, IfNone};
ghost use Rattle.relay_conn.specs.Asked.{KeepsConnection};
ghost use Rattle.relay_conn.specs.Connection.{awaited_by, IfDialing, IfSeeking, IsDialing, IsSeeking};
ghost use Rattle.relay_conn.specs.Dialing.{DialsNext};
ghost use Rattle.relay_conn.specs.Seeking.{IsNotTried, IsTriedNext};
ghost use Rattle.relay_conn.specs.Side.{IsWhole, key_of_side};
ghost use Rattle.std.specs.Arc.{arc_value};

use crate::connection::{Connection, Phase};
use crate::refused::Refused;
use crate::seeking::NextTarget;
use crate::set_up::SetUp;
use crate::trial::Trial;
use log_writer::Log;
use relay_log::ended::Ended as How;
use std::net::Net;
use std::sync::ledger::Ledger;
use std::sync::{Arc, Wait};
use std::time::Clock;

impl<U: Ledger, D: Ledger, R: Wait + Clock + Copy> Connection<U, D, R> {
    /// Begins a connection to its next target, or says how it ends; none where it seeks no target.
    pub fn next_trial(&mut self, rt: &R, log: &Option<Arc<Log>>) -> Option<Result<Trial, How>>
    where
        R: Net,
        ensures seeks { IfNone result (IsSeeking self.old.phase → ⊥) }
        ensures trial { IfSome result (λ next. IfOk next (λ trial. IfSeeking self.old.phase (λ old.
            IsTriedNext (arc_value self.old.facts).acceptance old trial))) }
        ensures none { IfSome result (λ next. IfErr next (λ how. IfSeeking self.old.phase (λ old.
            IsNotTried (arc_value self.old.facts).acceptance old how))) }
        ensures awaits { awaited_by self.new ≡ awaited_by self.old }
        ensures kept { KeepsConnection self.old self.new }
    {
        match &mut self.phase {
            Some(Phase::Seeking(seeking)) => Some(seeking.next_trial(rt, log, &self.facts)),
            _ => None,
        }
    }

    /// Dials its next target, if it seeks one.
    pub fn dial_on(&mut self, next: NextTarget<R>, now: u64)
        ensures is { IsSeeking self.old.phase → IsDialing self.new.phase }
        ensures dials { IfSeeking self.old.phase (λ old. IfDialing self.new.phase (λ new.
            DialsNext old new next now)) }
        ensures kept { KeepsConnection self.old self.new }
    {
        match self.phase.take() {
            Some(Phase::Seeking(seeking)) => {
                self.phase = Some(Phase::Dialing(seeking.dial_on(next, now)));
            }
            Some(Phase::Dialing(dialing)) => self.phase = Some(Phase::Dialing(dialing)),
            Some(Phase::Relaying(relaying)) => self.phase = Some(Phase::Relaying(relaying)),
            None => unreachable!(),
        }
    }

    /// It is to end so, if it seeks a target.
    pub fn give_up(&mut self, how: How)
        ensures ends { IfSeeking self.old.phase (λ old. IfSeeking self.new.phase (λ new.
            new ≡ record old { failure = Some how })) }
        ensures seeks { IfSeeking self.old.phase (λ _. IsSeeking self.new.phase) }
        ensures kept { KeepsConnection self.old self.new }
    {
        if let Some(Phase::Seeking(seeking)) = &mut self.phase {
            seeking.failure = Some(how);
        }
    }
}

impl<'a, R: Wait + Clock + Copy> SetUp<'a, R> {
    /// A connection's next target, by its socket, under the token that the one before had; or what
    /// refused it, and then its socket is dropped.
    pub fn next_target(&self, trial: Trial, token: u64) -> Result<NextTarget<R>, Refused>
        ensures key { IfOk result (λ next. key_of_side next.side ≡ token) }
        ensures whole { IfOk result (λ next. IsWhole next.side) }
        ensures picked { IfOk result (λ next. next.picked ≡ trial.picked) }
        ensures token { IfOk result (λ next. next.token ≡ token) }
    {
        let Trial { dialled, picked } = trial;
        let side = self.side(dialled.into_sock(), token)?;
        Ok(NextTarget {
            side,
            picked,
            token,
        })
    }
}
