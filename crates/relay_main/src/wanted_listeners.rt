//! The listeners that rules are to have: one at each address of a rule.

ghost use Rattle.std.specs.Prelude.{◌≡◌, ◌++◌, IfOk, IfErr, OnOk, map};
ghost use Rattle.relay_admin.specs.declared.serve_fault.ServeFault.{ServeFault};
ghost use Rattle.relay_main.specs.WantedListeners as spec;

use relay_admin::{Addr, Rule, ServeFault, is_same_addr};
use relay_facts::served_rule::Said;
use std::alloc::Global;
use std::sync::Arc;

/// A listener that a rule is to have.
#[derive(Clone, Copy, Debug, PartialEq, Eq, Drop)]
pub(crate) struct WantedListener {
    /// Its rule, whose own address is that of its account.
    pub(crate) rule: Rule,
    /// Where it is to listen.
    pub(crate) listen: Addr,
    /// How many clients may wait there for an accept, where its rule says that.
    pub(crate) backlog: Option<u32>,
    /// The mode of its path, where its rule says that.
    pub(crate) mode: Option<u16>,
}

// Puts one of a rule that says this at each of these addresses behind others.
fn add_each(all: &mut Vec<WantedListener>, said: &Said, listens: &[Addr]) -> Result<(), ServeFault>
    ensures added { OnOk result (all.new.items ≡ all.old.items
        ++ map (spec.wanted_at said.now) listens.now) }
    ensures faults { IfErr result (λ fault. fault ≡ ServeFault.Memory) }
{
    for listen in listens {
        all.push(WantedListener {
            rule: said.rule,
            listen: *listen,
            backlog: said.sockets.backlog,
            mode: said.sockets.mode,
        })?;
    }
    Ok(())
}

// Puts those of a rule that says this behind others.
fn add_wanted(all: &mut Vec<WantedListener>, said: &Said) -> Result<(), ServeFault>
    ensures added { OnOk result (all.new.items ≡ all.old.items ++ spec.wanted_of said.now) }
    ensures faults { IfErr result (λ fault. fault ≡ ServeFault.Memory) }
{
    match &said.listens {
        Some(list) => add_each(all, said, list.all.as_slice()),
        None => add_each(all, said, &[said.rule.listen]),
    }
}

/// Those of rules that say this, in their order.
pub(crate) fn wanted_by(alloc: Global, all: &[Arc<Said>]) -> Result<Vec<WantedListener>, ServeFault>
    ensures wanted { IfOk result (λ wanted. wanted.items ≡ spec.wanted_by all.now) }
    ensures faults { IfErr result (λ fault. fault ≡ ServeFault.Memory) }
{
    let mut wanted = Vec::new(alloc);
    for said in all {
        add_wanted(&mut wanted, &**said)?;
    }
    Ok(wanted)
}

/// Whether one of these is wanted at this address.
pub(crate) fn is_wanted_at(wanted: &[WantedListener], listen: &Addr) -> bool
    ensures { result ≡ spec.is_wanted_at listen.now wanted.now }
{
    wanted.iter().any(|one| is_same_addr(&one.listen, listen))
}
