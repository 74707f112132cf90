//! The accounts of rules: how many connections of a rule stand, against its limit, and what was
//! counted of it. An account is by the first address at which the rule listens. It outlives the rule's
//! listeners, and its place in the file as long as connections of it stand.

ghost use Rattle.std.specs.Prelude.{◌≡◌, true, IfSome, IfNone, IfOk, IfErr, option_copied};
ghost use Rattle.relay_admin.specs.declared.serve_fault.ServeFault.{ServeFault};
ghost use Rattle.std.specs.Arc.{arc_value};
ghost use Rattle.std.specs.List.{position_or_len};
ghost use Rattle.relay_facts.specs.Counts.{loops_of};
ghost use Rattle.relay_main.specs.Accounts as spec;

use relay_admin::{Addr, Rule, ServeFault, is_same_addr};
use relay_facts::served_rule::{Said, ServedRule};
use std::alloc::Global;
use std::sync::Arc;

// The place of the first account of this address; how many there are, where none is its.
fn place_of(accounts: &[Arc<ServedRule>], listen: &Addr) -> usize
    ensures { result ≡ position_or_len (spec.is_account_of listen.now) accounts.now }
{
    for place in 0..accounts.len() {
        if is_same_addr(&accounts[place].listen, listen) {
            return place;
        }
    }
    accounts.len()
}

/// The account of this address, if there is one.
#[tactic(auto, using(std::proofs::lemmas::List::Folds::find_at, std::proofs::lemmas::Option::slice_get_past))]
pub(crate) fn account_at<'a>(
    accounts: &'a [Arc<ServedRule>],
    listen: &Addr,
) -> Option<&'a Arc<ServedRule>>
    ensures { option_copied result ≡ spec.account_at listen.now accounts.now }
{
    let place = place_of(accounts, listen);
    if place < accounts.len() {
        Some(&accounts[place])
    } else {
        None
    }
}

/// The account of a rule: that of its address, if there is one; else a new one, of a relay with so
/// many loops.
pub(crate) fn account_of(
    alloc: Global,
    accounts: &[Arc<ServedRule>],
    rule: &Rule,
    loops: usize,
) -> Result<Arc<ServedRule>, ServeFault>
    ensures own { IfOk result (λ served. spec.is_account_of rule.now.listen served ≡ true) }
    ensures known { IfSome (spec.account_at rule.now.listen accounts.now)
        (λ account. IfOk result (λ served. arc_value served ≡ arc_value account)) }
    ensures listen { IfNone (spec.account_at rule.now.listen accounts.now)
        (IfOk result (λ served. (arc_value served).listen ≡ rule.now.listen)) }
    ensures loops { IfNone (spec.account_at rule.now.listen accounts.now)
        (IfOk result (λ served. loops_of (arc_value served).counts ≡ loops)) }
    ensures faults { IfErr result (λ fault. fault ≡ ServeFault.Memory) }
{
    match account_at(accounts, &rule.listen) {
        Some(account) => Ok(Arc::try_clone(account)?),
        None => Ok(ServedRule::new(alloc, Said::alone(rule), loops)?),
    }
}

/// The accounts of these rules, in their order: each as `account_of` gives it.
pub(crate) fn accounts_of(
    alloc: Global,
    accounts: &[Arc<ServedRule>],
    rules: &[Rule],
    loops: usize,
) -> Result<Vec<Arc<ServedRule>>, ServeFault>
    ensures accounts { IfOk result (λ all. spec.AreAccountsOf rules.now all.items) }
    ensures faults { IfErr result (λ fault. fault ≡ ServeFault.Memory) }
{
    let mut all = Vec::new(alloc);
    for rule in rules {
        all.push(account_of(alloc, accounts, rule, loops)?)?;
    }
    Ok(all)
}

/// The accounts of none of these rules.
pub(crate) fn without_rules(accounts: Vec<Arc<ServedRule>>, rules: &[Rule]) -> Vec<Arc<ServedRule>>
    ensures { result.items ≡ spec.without_rules rules.now accounts.items }
{
    let mut accounts = accounts;
    accounts.retain(|account| !is_listened_at(rules, &account.listen));
    accounts
}

// Whether this is the own address of a rule of these.
fn is_listened_at(rules: &[Rule], listen: &Addr) -> bool
    ensures { result ≡ spec.is_listened_at listen.now rules.now }
{
    rules.iter().any(|rule| is_same_addr(&rule.listen, listen))
}
