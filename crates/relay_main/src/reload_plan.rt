//! A reload as a plan: what it binds, keeps and closes, before anything is done.

ghost use Rattle.std.specs.Prelude.{◌≡◌, IfOk, IfErr};
ghost use Rattle.relay_admin.specs.declared.serve_fault.ServeFault.{ServeFault};
ghost use Rattle.relay_main.specs.Accounts.{AreAccountsOf, without_rules};
ghost use Rattle.relay_main.specs.ReloadPlan as spec;
ghost use Rattle.relay_main.specs.RuleListeners.{to_close};

use crate::accounts::{accounts_of, without_rules};
use crate::rule_listeners::Listening;
use crate::wanted_listeners::{WantedListener, is_wanted_at};
use relay_admin::{Addr, Rule, ServeFault, is_same_addr};
use relay_facts::served_rule::ServedRule;
use std::alloc::Global;
use std::sync::Arc;

/// What becomes of listeners. Each that is wanted is in one of `bind` and `keep`, in their order.
#[derive(Drop)]
pub(crate) struct ListenerPlan {
    /// Those at whose addresses none stands.
    pub(crate) bind: Vec<WantedListener>,
    /// Those at whose addresses one stands, which stays.
    pub(crate) keep: Vec<WantedListener>,
    /// The listeners at whose addresses none is wanted.
    pub(crate) close: Vec<Listening>,
}

/// What a reload comes to.
#[derive(Drop)]
pub(crate) struct Plan {
    /// The accounts of the file's rules, in its order.
    pub(crate) serve: Vec<Arc<ServedRule>>,
    /// The accounts that none of its rules has.
    pub(crate) end: Vec<Arc<ServedRule>>,
    pub(crate) listeners: ListenerPlan,
}

// Whether a listener of these stands at this address.
fn stands_at(standing: &[Listening], listen: &Addr) -> bool
    ensures { result ≡ spec.stands_at standing.now listen.now }
{
    standing.iter().any(|one| is_same_addr(&one.listen, listen))
}

// The listeners of these at whose addresses none of those is wanted.
fn to_close(
    alloc: Global,
    known: &[Listening],
    wanted: &[WantedListener],
) -> Result<Vec<Listening>, ServeFault>
    ensures close { IfOk result (λ close. close.items ≡ to_close wanted.now known.now) }
    ensures faults { IfErr result (λ fault. fault ≡ ServeFault.Memory) }
{
    let mut close = Vec::new(alloc);
    for one in known {
        if !is_wanted_at(wanted, &one.listen) {
            close.push(*one)?;
        }
    }
    Ok(close)
}

/// What becomes of the listeners that are known, of which these stand, where those are wanted.
pub(crate) fn listener_plan(
    alloc: Global,
    known: &[Listening],
    standing: &[Listening],
    wanted: &[WantedListener],
) -> Result<ListenerPlan, ServeFault>
    ensures bind { IfOk result (λ plan. plan.bind.items ≡ spec.to_bind standing.now wanted.now) }
    ensures keep { IfOk result (λ plan. plan.keep.items ≡ spec.to_keep standing.now wanted.now) }
    ensures close { IfOk result (λ plan. plan.close.items ≡ to_close wanted.now known.now) }
{
    let mut bind = Vec::new(alloc);
    let mut keep = Vec::new(alloc);
    for one in wanted {
        if stands_at(standing, &one.listen) {
            keep.push(*one)?;
        } else {
            bind.push(*one)?;
        }
    }
    let close = to_close(alloc, known, wanted)?;
    Ok(ListenerPlan { bind, keep, close })
}

/// The plan from these accounts to these rules of a relay with so many loops, with this plan of their
/// listeners.
pub(crate) fn plan_of(
    alloc: Global,
    accounts: Vec<Arc<ServedRule>>,
    rules: &[Rule],
    listeners: ListenerPlan,
    loops: usize,
) -> Result<Plan, ServeFault>
    ensures serve { IfOk result (λ plan. AreAccountsOf rules.now plan.serve.items) }
    ensures end { IfOk result (λ plan. plan.end.items ≡ without_rules rules.now accounts.items) }
    ensures listeners { IfOk result (λ plan. plan.listeners ≡ listeners) }
{
    let serve = accounts_of(alloc, accounts.as_slice(), rules, loops)?;
    Ok(Plan {
        serve,
        end: without_rules(accounts, rules),
        listeners,
    })
}
