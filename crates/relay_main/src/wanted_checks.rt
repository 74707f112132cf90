//! The targets that are to be checked: of each rule that has checks, each address once.

ghost use Rattle.std.specs.Prelude.{◌≡◌, ◌<◌, true, IfSome, IfErr, IsSome, OnSome, length, slice_index_or};
ghost use Rattle.std.specs.Arc.{arc_value};
ghost use Rattle.relay_admin.specs.declared.serve_fault.ServeFault.{ServeFault};
ghost use Rattle.relay_main.specs.Checks.{IsCheckOf, IsSameCheck};
ghost use Rattle.relay_main.specs.More.{HasMore, HasOneMore};
ghost use Rattle.relay_main.specs.declared.check_task.Checked.{Checked};

use crate::check_task::Checked;
use relay_admin::{Addr, ServeFault, is_same_addr};
use relay_facts::served_rule::{Said, ServedRule};
use relay_facts::target_list::Targets;
use std::sync::{Arc, Wait};

// Whether both are one check: of the same rule, by its address, and of the same target, alike.
fn is_same_check(one: &Checked, other: &Checked) -> bool
    ensures { IsSameCheck one.now other.now result }
{
    is_same_addr(&one.served.listen, &other.served.listen)
        && is_same_addr(&one.at, &other.at)
        && one.checks == other.checks
}

/// The place of the same check among these.
pub(crate) fn place_among(all: &[Checked], one: &Checked) -> Option<usize>
    ensures within { IfSome result (λ place. place < length all.now) }
    ensures same { IfSome result (λ place. (other : Checked)
        → IsSameCheck (slice_index_or all.now place other) one.now true) }
{
    for place in 0..all.len() {
        if is_same_check(&all[place], one) {
            return Some(place);
        }
    }
    None
}

// Whether a rule that says this has a target here whose host was never found: nobody is there to check.
fn is_unfound(said: &Said, at: &Addr) -> bool
    ensures { result ≡ true → IsSome said.now.names }
{
    match (&said.names, at) {
        (Some(_), Addr::Tcp(bytes, _)) => *bytes == [0, 0, 0, 0],
        _ => false,
    }
}

// The check of the target at this place of the list of a rule that says this, if it is to be checked. None
// says that memory was refused.
fn checked_at(
    served: &Arc<ServedRule>,
    targets: &Arc<Targets>,
    said: &Said,
    place: usize,
) -> Option<Option<Checked>>
    ensures { IfSome result (λ found. IfSome found (λ one. (one.place ≡ place)
        × IsCheckOf (arc_value served.now) (arc_value targets.now) said.now one)) }
{
    let (Some(checks), Some(at)) = (targets.checks(), targets.address(place)) else {
        return Some(None);
    };
    if targets.is_repeated(place) || is_unfound(said, &at) {
        return Some(None);
    }
    Some(Some(Checked {
        served: Arc::try_clone(served).ok()?,
        targets: Arc::try_clone(targets).ok()?,
        place,
        at,
        checks,
        header: said.header,
        source: said.sockets.source,
    }))
}

// Puts that behind these.
fn add_target(
    all: &mut Vec<Checked>,
    served: &Arc<ServedRule>,
    targets: &Arc<Targets>,
    said: &Said,
    place: usize,
) -> Option<()>
    ensures { OnSome result (HasOneMore (λ one. (one.place ≡ place)
        × IsCheckOf (arc_value served.now) (arc_value targets.now) said.now one)
        all.old.items all.new.items) }
{
    let found = checked_at(served, targets, said, place)?;
    match found {
        Some(checked) => all.push(checked).ok(),
        None => Some(()),
    }
}

// Puts all of the list of a rule that says this, which are to be checked, behind these, each address once.
// None says that memory was refused.
fn add_each(
    all: &mut Vec<Checked>,
    served: &Arc<ServedRule>,
    targets: &Arc<Targets>,
    said: &Said,
) -> Option<()>
    ensures { OnSome result (HasMore
        (IsCheckOf (arc_value served.now) (arc_value targets.now) said.now)
        all.old.items all.new.items) }
{
    for place in 0..targets.len() {
        add_target(all, served, targets, said, place)?;
    }
    Some(())
}

/// Puts all of a rule's that are to be checked behind these.
pub(crate) fn add_targets<R: Wait>(
    rt: &R,
    all: &mut Vec<Checked>,
    served: &Arc<ServedRule>,
) -> Result<(), ServeFault>
    ensures { IfErr result (λ fault. fault ≡ ServeFault.Memory) }
{
    let Some(said) = served.said(rt) else {
        return Err(ServeFault::Memory);
    };
    let Some(targets) = &said.targets else {
        return Ok(());
    };
    match add_each(all, served, targets, &*said) {
        Some(()) => Ok(()),
        None => Err(ServeFault::Memory),
    }
}
