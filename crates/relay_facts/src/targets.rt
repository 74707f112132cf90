//! A rule's targets: how many connections stand at each, which are up or drained, and which one is a
//! client's next.

ghost use Rattle.std.specs.Prelude.{◌≡◌, ◌≤◌, ◌<◌, Bool, true, false, length, slice_get};
ghost use Rattle.std.specs.Prelude.{None, IfOk, IfErr, IfSome, option_map};
ghost use Rattle.std.specs.List.{list_any};
ghost use Rattle.std.specs.Arc.{arc_value};
ghost use Rattle.relay_admin.specs.rules.Addr.{address_of, same_address};
ghost use Rattle.relay_facts.specs.SharedHealth.{TellsChange};
ghost use Rattle.relay_facts.specs.Targets.{AreSeen, HasHealthAt, IsNext, IsNoneLeft, IsPick, IsSeenAs};
ghost use Rattle.relay_facts.specs.Targets.{are_checked, is_repeated, is_seen_down, targets_of};
ghost use Rattle.target_pick.specs.Tried.{was_tried};

use crate::known_targets::{counts_at, health_at};
use crate::outcomes::Came;
use crate::set_order::{is_drained_by, is_up_by};
use crate::shared_health::Change;
use crate::target_list::{CountedTarget, NoneLeft, Picked, Targets};
use arrayvec::ArrayVec;
use base_types::OutOfMemory;
use relay_admin::{Addr, is_same_addr};
use relay_settings::{Checks, MAX_TARGETS, Target};
use std::alloc::Global;
use std::sync::Arc;
use target_pick::{Balance, Seen, Tried, pick, takers};

/// Whether a target is up by its health.
pub(crate) fn is_healthy(counted: &CountedTarget) -> bool
    ensures { counted.now.health ≡ None → result ≡ true }
{
    match &counted.health {
        Some(health) => health.is_up(),
        None => true,
    }
}

// Whether one is seen healthy, of a rule whose targets are checked or not.
fn is_seen_healthy(counted: &CountedTarget, is_checked: bool) -> bool
    ensures { is_checked ≡ false → result ≡ true }
{
    !is_checked || is_healthy(counted)
}

// What is known of a target, of a rule whose targets are checked or not.
fn seen_as(counted: &CountedTarget, is_checked: bool, was_tried: bool) -> Seen
    ensures { IsSeenAs is_checked was_tried counted.now.target result }
{
    let order = counted.counts.order.get();
    let is_healthy = is_seen_healthy(counted, is_checked);
    Seen {
        weight: counted.target.weight,
        is_backup: counted.target.is_backup,
        is_up: is_up_by(order, is_healthy),
        is_drained: is_drained_by(order),
        was_tried,
        connections: u32::try_from(counted.counts.standing()).unwrap_or(u32::MAX),
    }
}

// Whether a target would take a client if it weren't down or drained.
fn is_seen_down(target: &Seen) -> bool
    ensures { result ≡ is_seen_down target.now }
{
    (!target.is_up || target.is_drained) && !target.was_tried && target.weight > 0
}

// Whether one of these would.
fn some_down(seen: &[Seen]) -> bool
    ensures { result ≡ list_any is_seen_down seen.now }
{
    seen.iter().any(|one| is_seen_down(one))
}

// Whether one of these is at this address.
fn some_at(all: &[CountedTarget], at: &Addr) -> bool
    ensures { result ≡ list_any
        (λ one. same_address (address_of one.target.at) (address_of at.now)) all.now }
{
    all.iter().any(|one| is_same_addr(&one.target.at, at))
}

impl Targets {
    /// These targets, in this order, which are checked so. One at whose address connections stand by a
    /// list before has them still, its counts, what is set of it and the health that it had.
    pub fn new(
        alloc: Global,
        balance: Balance,
        checks: Option<Checks>,
        said: &[Target],
        before: Option<&Targets>,
    ) -> Result<Arc<Targets>, OutOfMemory>
        requires some { 0 < length said.now }
        requires few { length said.now ≤ MAX_TARGETS }
        ensures balance { IfOk result (λ made. (arc_value made).balance ≡ balance) }
        ensures checks { IfOk result (λ made. (arc_value made).checks ≡ checks) }
        ensures targets { IfOk result (λ made. targets_of (arc_value made) ≡ said.now) }
    {
        let mut all = Vec::new(alloc);
        for target in said {
            let counts = counts_at(alloc, &target.at, all.as_slice(), before)?;
            let health = health_at(alloc, &target.at, checks, all.as_slice(), before)?;
            all.push(CountedTarget {
                target: *target,
                counts,
                health,
            })?;
        }
        Ok(Arc::new(
            alloc,
            Targets {
                balance,
                checks,
                all,
            },
        )?)
    }

    /// How they are checked, if they are.
    pub fn checks(&self) -> Option<Checks>
        ensures { result ≡ self.now.checks }
    {
        self.checks
    }

    /// How many there are.
    pub fn len(&self) -> usize
        ensures { result ≡ length (targets_of self.now) }
    {
        self.all.len()
    }

    fn is_checked(&self) -> bool
        ensures { result ≡ are_checked self.now }
    {
        self.checks.is_some()
    }

    // What is known of each, by its place.
    fn seen(&self, tried: Tried) -> ArrayVec<Seen, MAX_TARGETS>
        ensures { AreSeen (are_checked self.now) (targets_of self.now) tried result.items }
    {
        let is_checked = self.is_checked();
        let mut seen = ArrayVec::new();
        for place in 0..self.all.len() {
            seen.push(seen_as(&self.all[place], is_checked, tried.has(place)));
        }
        seen
    }

    // The place of the next target, as `next` picks it.
    fn place(&self, tried: Tried, turn: u64, source: u64) -> Result<usize, NoneLeft>
        ensures none { IfErr result (λ none.
            IsNoneLeft (are_checked self.now) (targets_of self.now) tried none.down) }
        ensures picked { IfOk result (IsPick self.now tried turn source) }
        ensures within { IfOk result (λ place. place < length self.now.all.items) }
        ensures untried { IfOk result (λ place. was_tried tried place ≡ false) }
    {
        let seen = self.seen(tried);
        match pick(self.balance, seen.as_slice(), turn, source) {
            Some(place) => Ok(place),
            None => Err(NoneLeft {
                down: some_down(seen.as_slice()),
            }),
        }
    }

    // How many targets may take a client for whom these were tried.
    fn takers(&self, tried: Tried) -> u32
        ensures { result ≡ 0 → (down : Bool)
            × IsNoneLeft (are_checked self.now) (targets_of self.now) tried down }
    {
        takers(self.seen(tried).as_slice()) as u32
    }

    /// The next target for a client of this number, for whom these were tried, by the turn with this
    /// number.
    pub fn next(&self, tried: Tried, turn: u64, source: u64) -> Result<Picked, NoneLeft>
        ensures none { IfErr result (λ none.
            IsNoneLeft (are_checked self.now) (targets_of self.now) tried none.down) }
        ensures next { IfOk result (IsNext (are_checked self.now) (targets_of self.now) tried) }
        ensures picked { IfOk result (λ picked. IsPick self.now tried turn source picked.place) }
    {
        let place = self.place(tried, turn, source)?;
        let tried = tried.with(place);
        Ok(Picked {
            place,
            at: self.all[place].target.at,
            tried,
            others: self.takers(tried),
        })
    }

    /// The address of the target at this place.
    pub fn address(&self, place: usize) -> Option<Addr>
        ensures { result ≡ option_map (λ target. target.at) (slice_get (targets_of self.now) place) }
    {
        Some(self.all.get(place)?.target.at)
    }

    /// Whether a target ahead of this place has its address: they are one, which is told of once.
    pub fn is_repeated(&self, place: usize) -> bool
        ensures { result ≡ is_repeated (targets_of self.now) place }
    {
        let Some(counted) = self.all.get(place) else {
            return false;
        };
        some_at(&self.all.as_slice()[..place], &counted.target.at)
    }

    /// One connection more stands at the target of this place. Each is left once.
    pub(crate) fn enter(&self, place: usize) {
        if let Some(counted) = self.all.get(place) {
            counted.counts.enter();
        }
    }

    /// One that stood there is over, or tries another target.
    pub(crate) fn leave(&self, place: usize) {
        if let Some(counted) = self.all.get(place) {
            counted.counts.leave();
        }
    }

    /// Notes what came of a check of the target at this place, or of a client's connect, and says how
    /// that has changed its health, if it has. One that isn't checked has none.
    pub(crate) fn note(&self, place: usize, came: &Came) -> Option<Change>
        ensures change { IfSome result (TellsChange came.now.outcome) }
        ensures checked { IfSome result (λ _. HasHealthAt self.now place) }
    {
        let counted = self.all.get(place)?;
        counted.counts.note(came);
        match &counted.health {
            Some(health) => health.note(came.outcome),
            None => None,
        }
    }
}
