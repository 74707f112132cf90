//! The walk over a rule's targets: the next one is dialled, and the one after it where that fails at
//! once, until a connection is begun.

ghost use Rattle.std.specs.Prelude.{◌≡◌, ◌↔◌, true, false, Some, None, IfOk, IfErr, IfSome, IfNone};
ghost use Rattle.std.specs.Prelude.{IsSomeAnd};
ghost use Rattle.relay_conn.specs.Trial.{IsNoTrial, IsTrial, LacksDescriptors, cause_of_none, last_of};
ghost use Rattle.relay_conn.specs.Trial.{place_tried};
ghost use Rattle.relay_facts.specs.Acceptance.{IsPicked, checked_in, list_in, source_of, targets_in};
ghost use Rattle.relay_facts.specs.Targets.{IsNext, IsNoneLeft};
ghost use Rattle.relay_facts.specs.declared.outcomes.Came.{Came};
ghost use Rattle.target_pick.specs.declared.health.Outcome.{Outcome};

use crate::dialled::{Dialled, NotDialled, dial};
use log_writer::Log;
use relay_facts::connection_facts::Acceptance;
use relay_facts::outcomes::Came;
use relay_facts::target_list::Picked;
use relay_log::ended::Cause;
use std::net::Net;
use std::sync::{Arc, Wait};
use std::time::Clock;
use target_pick::{Outcome, Tried};

/// A connection that was begun to a target of a client's rule. `next_trial` alone makes it.
#[derive(Drop)]
pub struct Trial {
    pub(crate) dialled: Dialled,
    pub(crate) picked: Picked,
}

impl Trial {
    /// The place of its target among the rule's.
    pub fn place(&self) -> usize
        ensures { result ≡ place_tried self.now }
    {
        self.picked.place
    }
}

/// A target to which no connection can be begun: its place among the rule's, and why.
#[derive(Clone, Copy, Debug, PartialEq, Eq, Drop)]
pub struct Unreached {
    pub place: usize,
    pub cause: Cause,
}

/// No connection is begun: the target that was dialled last, if one was, all that were tried, and
/// whether one that wasn't is down.
#[derive(Clone, Copy, Debug, PartialEq, Eq, Drop)]
pub struct NoTrial {
    pub last: Option<Unreached>,
    pub tried: Tried,
    pub down: bool,
}

/// Begins a connection for this client, for whom those targets were tried before. None is begun
/// where no target is left that is up, or where there is no descriptor: that is no target's fault.
/// One that fails at once is noted as failed.
pub fn next_trial<R: Wait + Net + Clock>(
    rt: &R,
    log: &Option<Arc<Log>>,
    acceptance: &Acceptance,
    tried: Tried,
) -> Result<Trial, NoTrial>
    ensures trial { IfOk result (IsTrial acceptance.now tried) }
    ensures none { IfErr result (IsNoTrial acceptance.now) }
{
    let mut walk = NoTrial {
        last: None,
        tried,
        down: false,
    };
    while let Some(picked) = walk.next(acceptance) {
        match dial(rt, &picked.at, &acceptance.said.sockets) {
            Ok(dialled) => return Ok(Trial { dialled, picked }),
            Err(why) => {
                note_failure(rt, log, acceptance, &picked, &why);
                walk = walk.without(&picked, why.cause);
            }
        }
        if walk.lacks_descriptors() {
            return Err(walk);
        }
    }
    Err(walk)
}

// What a dial says of its target that failed at once, where that was the target's fault.
fn came_at_once(why: &NotDialled) -> Option<Came>
    ensures shortage { why.now.is_shortage ≡ true → result ≡ None }
    ensures failed { why.now.is_shortage ≡ false → IsSomeAnd result (λ (came : Came).
        (came.outcome ≡ Outcome.Failed) × (came.cause ≡ why.now.cause)) }
{
    if why.is_shortage {
        return None;
    }
    Some(Came::of_connect(Outcome::Failed, why.cause))
}

// Notes that a target failed at once, where that was its fault.
fn note_failure<R: Wait + Clock>(
    rt: &R,
    log: &Option<Arc<Log>>,
    acceptance: &Acceptance,
    picked: &Picked,
    why: &NotDialled,
) {
    if let Some(came) = came_at_once(why) {
        acceptance.note_outcome(rt, log, picked.place, &came);
    }
}

// Why no target of a rule is dialled: one is down, or they get nobody.
fn cause_of_none(down: bool) -> Cause
    ensures { result ≡ cause_of_none down }
{
    if down {
        Cause::Down
    } else {
        Cause::Unreachable
    }
}

impl NoTrial {
    /// The target that was dialled last; of a rule whose targets are down or get nobody its first
    /// one.
    pub fn last(&self) -> Unreached
        ensures { result ≡ last_of self.now }
    {
        self.last.unwrap_or(Unreached {
            place: 0,
            cause: cause_of_none(self.down),
        })
    }

    // The next target for the client, for whom its own were tried. Where none is left it knows
    // whether one is down.
    fn next(&mut self, acceptance: &Acceptance) -> Option<Picked>
        ensures none { IfNone result (IsNoneLeft (checked_in acceptance.now)
            (targets_in acceptance.now) self.old.tried self.new.down) }
        ensures next { IfSome result
            (IsNext (checked_in acceptance.now) (targets_in acceptance.now) self.old.tried) }
        ensures picked { IfSome (list_in acceptance.now) (λ list. IfSome result (λ picked.
            IsPicked list self.old.tried (source_of acceptance.now.client) picked.place)) }
        ensures kept { self.new ≡ record self.old { down = self.new.down } }
    {
        match acceptance.next_target(self.tried) {
            Ok(picked) => Some(picked),
            Err(none) => {
                self.down = none.down;
                None
            }
        }
    }

    // The same after one more that can't be dialled.
    fn without(self, picked: &Picked, cause: Cause) -> NoTrial
        ensures tried { result.tried ≡ picked.now.tried }
        ensures last { result.last ≡ Some record { place = picked.now.place; cause = cause } }
    {
        NoTrial {
            last: Some(Unreached {
                place: picked.place,
                cause,
            }),
            tried: picked.tried,
            down: self.down,
        }
    }

    // Whether there was no descriptor for the last.
    fn lacks_descriptors(&self) -> bool
        ensures { result ≡ true ↔ LacksDescriptors self.now.last }
    {
        match self.last {
            Some(last) => last.cause == Cause::Descriptors,
            None => false,
        }
    }
}
