//! The targets of a rule that names hosts: in the place of each such target stand those at the addresses
//! of its host, once it was looked up.

ghost use Rattle.std.specs.Prelude.{◌≡◌, ◌≤◌, ◌<◌, ◌++◌, ◌∷◌, [], IfOk, OnOk, length, map, option_copied, take};
ghost use Rattle.std.specs.Arc.{arc_value};
ghost use Rattle.relay_facts.specs.Config.{IsFoundBy};
ghost use Rattle.relay_facts.specs.NamedTargets as spec;
ghost use Rattle.relay_facts.specs.NamedTargets.{looked_up, targets_at};

use crate::host_answers::Answers;
use crate::named_list::NamedTargets;
use crate::target_list::Targets;
use base_types::OutOfMemory;
use relay_admin::Addr;
use relay_settings::{MAX_TARGETS, Named, SaidRule, Target};
use std::alloc::Global;
use std::sync::Arc;

// An address of a host, with a port.
fn with_port(at: &Addr, port: u16) -> Addr
    ensures { result ≡ spec.with_port at.now port }
{
    match at {
        Addr::Tcp(bytes, _) => Addr::Tcp(*bytes, port),
        Addr::Tcp6(ip, scope, _) => Addr::Tcp6(*ip, *scope, port),
        Addr::Unix(path) => Addr::Unix(*path),
    }
}

// A target that names its host, at an address of that.
fn found_target(named: &Named, at: &Addr) -> Target
    ensures { result ≡ spec.found_target named.now at.now }
{
    Target {
        at: with_port(at, named.port),
        weight: named.weight,
        is_backup: named.is_backup,
    }
}

// What a target at this place says of its host, where it names one.
fn named_at(names: &[Named], place: usize) -> Option<&Named>
    ensures { option_copied result ≡ spec.named_at names.now place }
{
    names.iter().find(|one| one.place == place)
}

// Puts the targets at these addresses of a host behind these.
fn add_each(all: &mut Vec<Target>, named: &Named, found: &[Addr]) -> Result<(), OutOfMemory>
    ensures { OnOk result (all.new.items
        ≡ all.old.items ++ map (spec.found_target named.now) found.now) }
{
    for at in found {
        all.push(found_target(named, at))?;
    }
    Ok(())
}

// The same, or the target itself where there is no address.
#[tactic(auto, using(crate::proofs::NamedLemmas::none_at, crate::proofs::NamedLemmas::some_at))]
fn add_found(
    all: &mut Vec<Target>,
    target: &Target,
    named: &Named,
    found: &[Addr],
) -> Result<(), OutOfMemory>
    ensures { OnOk result (all.new.items
        ≡ all.old.items ++ spec.found_at named.now target.now found.now) }
{
    if found.is_empty() {
        all.push(*target)?;
        return Ok(());
    }
    add_each(all, named, found)
}

// Puts behind these what stands in the place of the target at this place.
fn add_at(
    all: &mut Vec<Target>,
    target: &Target,
    place: usize,
    names: &[Named],
    answers: &Answers,
) -> Result<(), OutOfMemory>
    ensures { OnOk result (all.new.items ≡ all.old.items
        ++ targets_at answers.now.all.items names.now place target.now) }
{
    match named_at(names, place) {
        Some(named) => add_found(all, target, named, answers.addresses(&named.host)),
        None => {
            all.push(*target)?;
            Ok(())
        }
    }
}

/// The targets of a rule, of which these name their hosts, by these answers: 64 at most.
#[tactic(auto, using(crate::proofs::NamedLemmas::one_more, crate::proofs::NamedLemmas::all_found, crate::proofs::NamedLemmas::some_found))]
pub(crate) fn looked_up(
    alloc: Global,
    targets: &[Target],
    names: &[Named],
    answers: &Answers,
) -> Result<Vec<Target>, OutOfMemory>
    requires { 0 < length targets.now }
    ensures found { IfOk result (λ all.
        all.items ≡ looked_up answers.now.all.items names.now targets.now) }
    ensures some { IfOk result (λ all. 0 < length all.items) }
    ensures few { IfOk result (λ all. length all.items ≤ 64) }
{
    let mut all = Vec::new(alloc);
    for place in 0..targets.len() {
        add_at(&mut all, &targets[place], place, names, answers)?;
    }
    all.truncate(MAX_TARGETS);
    Ok(all)
}

impl NamedTargets {
    /// The list of these targets, where hosts were looked up as these answers have it. They are picked and
    /// checked as those of this list, and what that counts and knows of one that stays goes on.
    pub(crate) fn listed(
        &self,
        alloc: Global,
        before: &Targets,
        answers: &Answers,
    ) -> Result<Arc<Targets>, OutOfMemory>
        ensures { IfOk result (λ list.
            IsFoundBy answers.now.all.items self.now before.now (arc_value list)) }
    {
        let (targets, names) = (self.targets.as_slice(), self.names.as_slice());
        let found = looked_up(alloc, targets, names, answers)?;
        let (balance, checks) = (before.balance, before.checks);
        Targets::new(alloc, balance, checks, found.as_slice(), Some(before))
    }
}

/// The targets of a rule as its file says them, in memory of their own, where some name their hosts.
pub(crate) fn named_of(
    alloc: Global,
    said: &SaidRule,
) -> Result<Option<Arc<NamedTargets>>, OutOfMemory>
    ensures { IfOk result (λ named. spec.AreNamedOf said.now named) }
{
    if said.has_no_names() {
        return Ok(None);
    }
    let targets = Vec::from_slice(alloc, said.targets.as_slice())?;
    let names = Vec::from_slice(alloc, said.names.as_slice())?;
    let named = NamedTargets {
        targets,
        names,
        resolve_ms: said.resolve_ms,
    };
    Ok(Some(Arc::new(alloc, named)?))
}
