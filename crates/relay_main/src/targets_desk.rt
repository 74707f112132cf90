//! What admin sessions ask of targets, which the main thread answers at once by the lists of the rules that
//! are served.
//!
//! A target has a number by which it is looked at: 64 times that of its rule's account, and its place. An
//! account gets its number when it is first listed, and keeps it over reloads; none is given again.

ghost use Rattle.std.specs.Prelude.{◌≡◌, ◌⊎◌, ◌<◌, ◌≤◌, ◌^◌, IfOk, IfErr, IfSome};
ghost use Rattle.std.specs.Arc.{arc_value};
ghost use Rattle.relay_admin.specs.declared.admin.answers.TargetAnswer.{TargetAnswer};
ghost use Rattle.relay_main.specs.More.{HasMore};
ghost use Rattle.relay_main.specs.TargetsDesk as spec;

use crate::main_loop::MainLoop;
use relay_admin::{ShownTarget, TargetAnswer, TargetOrder};
use relay_facts::clock::Moments;
use relay_facts::log_lines::calendar_ms;
use relay_facts::served_rule::{Said, ServedRule};
use relay_facts::shown_targets::ShownAt;
use relay_facts::target_list::Targets;
use relay_settings::MAX_TARGETS;
use std::alloc::{AllocError, Global};
use std::sync::{Arc, Wait};
use std::time::Clock;

/// How many numbers the targets of an account have.
const NUMBERS: u64 = MAX_TARGETS as u64;

const NS_PER_MS: u64 = 1_000_000;

// The number of the target at this place of the account with this number.
fn target_number(account: u64, place: usize) -> u64
    requires { place < 64 }
    ensures { account < 2 ^ 57 → result ≡ spec.target_number account place }
{
    account.saturating_mul(NUMBERS).saturating_add(place as u64)
}

// The account and the place that a number has.
fn parts_of(number: u64) -> (u64, usize)
    ensures { result ≡ spec.parts_of number }
{
    (number / NUMBERS, (number % NUMBERS) as usize)
}

// Puts the numbers of the targets of an account behind these, each address once.
fn add_numbers(numbers: &mut Vec<u64>, account: u64, targets: &Targets) -> Result<(), AllocError>
    ensures { HasMore (spec.IsNumberIn account targets.now)
        numbers.old.items numbers.new.items }
{
    for place in 0..targets.len().min(MAX_TARGETS) {
        if !targets.is_repeated(place) {
            numbers.push(target_number(account, place))?;
        }
    }
    Ok(())
}

// Sets this of the target that the words name, of a rule that says this.
fn set_of(said: &Said, order: &TargetOrder, now: u64) -> TargetAnswer
    ensures either { (result ≡ TargetAnswer.Fine) ⊎ (result ≡ TargetAnswer.UnknownTarget) }
    ensures set { result ≡ TargetAnswer.Fine → spec.NamesTarget order.now said.now }
    ensures unknown { result ≡ TargetAnswer.UnknownTarget → spec.NamesTarget order.now said.now
        → ⊥ }
{
    let Some(targets) = &said.targets else {
        return TargetAnswer::UnknownTarget;
    };
    match targets.place_named(order.target()) {
        Some(place) => {
            targets.set(place, order.order, now);
            TargetAnswer::Fine
        }
        None => TargetAnswer::UnknownTarget,
    }
}

impl<R: Wait + Clock + Copy> MainLoop<R> {
    // Gives each account of the rules that are served a number, if it has none.
    fn number_accounts(&mut self)
        ensures rises { self.old.numbered ≤ self.new.numbered }
        ensures kept { self.new ≡ record self.old { numbered = self.new.numbered } }
    {
        let rt = self.host.rt;
        let mut numbered = self.numbered;
        for served in self.host.shared.rules.lock(&rt).iter() {
            if served.number() == 0 {
                numbered = numbered.saturating_add(1);
                served.set_number(numbered);
            }
        }
        self.numbered = numbered;
    }

    /// The numbers of all targets of the rules that are served, by rules in their order, each address
    /// of a rule once.
    pub(crate) fn target_numbers(&mut self, alloc: Global) -> Result<Vec<u64>, AllocError>
        ensures rises { self.old.numbered ≤ self.new.numbered }
        ensures kept { self.new ≡ record self.old { numbered = self.new.numbered } }
    {
        self.number_accounts();
        let rt = self.host.rt;
        let mut numbers = Vec::new(alloc);
        for served in self.host.shared.rules.lock(&rt).iter() {
            let Some(said) = served.said(&rt) else {
                return Err(AllocError);
            };
            if let Some(targets) = &said.targets {
                add_numbers(&mut numbers, served.number(), targets)?;
            }
        }
        Ok(numbers)
    }

    // What the rule says now whose account has this number.
    fn said_by_number(&self, account: u64) -> Option<Arc<Said>> {
        let rt = self.host.rt;
        for served in self.host.shared.rules.lock(&rt).iter() {
            if served.number() == account {
                return served.said(&rt);
            }
        }
        None
    }

    /// What is shown now of the target with this number, if there is one.
    pub(crate) fn shown_target(&self, number: u64) -> Option<ShownTarget>
        ensures { IfSome result (λ seen. seen.number ≡ number) }
    {
        let (account, place) = parts_of(number);
        let said = self.said_by_number(account)?;
        let now = ShownAt {
            calendar_ms: calendar_ms(&self.host.rt),
            running_ms: self.host.clock.now() / NS_PER_MS,
        };
        let targets = said.targets.as_ref()?;
        if targets.is_repeated(place) {
            return None;
        }
        targets.shown(said.rule.name, place, number, now)
    }

    // What the rule with this name says now; or why it can't be told.
    fn said_by_name(&self, name: &[u8]) -> Result<Arc<Said>, TargetAnswer>
        ensures said { IfOk result (λ said. (arc_value said).rule.name.bytes ≡ name.now) }
        ensures refused { IfErr result spec.IsRuleRefused }
    {
        let rt = self.host.rt;
        for served in self.host.shared.rules.lock(&rt).iter() {
            let Some(said) = served.said(&rt) else {
                return Err(TargetAnswer::NoMemory);
            };
            if said.rule.name.as_bytes() == name {
                return Ok(said);
            }
        }
        Err(TargetAnswer::UnknownRule)
    }

    /// Sets of a target of a rule that is served whether it gets clients.
    pub(crate) fn set_target(&mut self, order: &TargetOrder) -> TargetAnswer
        ensures set { result ≡ TargetAnswer.Fine → spec.IsTargetKnown order.now }
        ensures kept { self.new ≡ self.old }
    {
        let now = calendar_ms(&self.host.rt);
        match self.said_by_name(order.rule()) {
            Ok(said) => set_of(&*said, order, now),
            Err(refused) => refused,
        }
    }

    /// The lists of these accounts are in force from now on.
    pub(crate) fn begin_targets(&self, accounts: &[Arc<ServedRule>]) {
        let rt = self.host.rt;
        let now = calendar_ms(&rt);
        for served in accounts {
            let Some(said) = served.said(&rt) else {
                continue;
            };
            if let Some(targets) = &said.targets {
                targets.follow(None, now);
            }
        }
    }
}
