//! What a reload comes to, before anything is done: the plan, what the accounts are to say, and which
//! listeners that stay come to which account.

ghost use Rattle.std.specs.Prelude.{◌≡◌, IfOk, IfErr, filter_map, map};
ghost use Rattle.std.specs.Arc.{arc_value};
ghost use Rattle.readiness.specs.EventLoop.{tasks_of};
ghost use Rattle.relay_admin.specs.declared.serve_fault.ServeFault.{ServeFault};
ghost use Rattle.relay_facts.specs.Config.{SaysRule};
ghost use Rattle.relay_facts.specs.Source.{rules_said};
ghost use Rattle.relay_main.specs.Followed.{followed_by, follows};
ghost use Rattle.relay_main.specs.ReloadPlan.{AreListenersPlanned, IsPlanned};
ghost use Rattle.relay_main.specs.Reload.{SayRules};
ghost use Rattle.relay_main.specs.RuleListeners.{standing_in};
ghost use Rattle.relay_main.specs.WantedListeners.{wanted_by};

use crate::accounts::account_at;
use crate::followed::{Followed, followed_of};
use crate::main_loop::MainLoop;
use crate::reload_plan::{ListenerPlan, Plan, listener_plan, plan_of};
use crate::rule_listeners::Listening;
use crate::wanted_listeners::wanted_by;
use relay_admin::{Rule, ServeFault};
use relay_facts::served_rule::{Said, ServedRule};
use relay_settings::SaidRule;
use relay_shared::lookups::Lookups;
use std::alloc::Global;
use std::fs::Files;
use std::net::Net;
use std::sync::{Arc, Wait};
use std::time::Clock;

/// What a reload is to do once all is bound.
#[derive(Drop)]
pub(crate) struct Prepared {
    pub(crate) plan: Plan,
    /// What the accounts of the file's rules are to say, in its order.
    pub(crate) said: Vec<Arc<Said>>,
    /// The listeners that stay.
    pub(crate) followed: Vec<Followed>,
}

// The rules, without their targets.
fn rules_of(alloc: Global, all: &[SaidRule]) -> Result<Vec<Rule>, ServeFault>
    ensures rules { IfOk result (λ rules. rules.items ≡ rules_said all.now) }
    ensures faults { IfErr result (λ fault. fault ≡ ServeFault.Memory) }
{
    let mut rules = Vec::new(alloc);
    for said in all {
        rules.push(said.rule)?;
    }
    Ok(rules)
}

// What the account of this rule, among those, is to say. What it counts now by targets and by sources is
// counted on.
fn said_of<R: Wait>(
    rt: &R,
    lookups: &Lookups,
    accounts: &[Arc<ServedRule>],
    rule: &SaidRule,
) -> Result<Arc<Said>, ServeFault>
    ensures said { IfOk result (λ said. SaysRule rule.now (arc_value said)) }
    ensures faults { IfErr result (λ fault. fault ≡ ServeFault.Memory) }
{
    let Some(served) = account_at(accounts, &rule.rule.listen) else {
        return Ok(lookups.said(rt, rule, None)?);
    };
    let Some(before) = served.said(rt) else {
        return Err(ServeFault::Memory);
    };
    Ok(lookups.said(rt, rule, Some(&*before))?)
}

// What the accounts of these rules, among those, are to say.
fn all_said<R: Wait>(
    rt: &R,
    alloc: Global,
    lookups: &Lookups,
    accounts: &[Arc<ServedRule>],
    rules: &[SaidRule],
) -> Result<Vec<Arc<Said>>, ServeFault>
    ensures said { IfOk result (λ all. SayRules rules.now all.items) }
    ensures faults { IfErr result (λ fault. fault ≡ ServeFault.Memory) }
{
    let mut all = Vec::new(alloc);
    for rule in rules {
        all.push(said_of(rt, lookups, accounts, rule)?)?;
    }
    Ok(all)
}

impl<R: Wait + Net + Files + Clock + Eprint + Copy> MainLoop<R> {
    /// All accounts: of the rules in force, and of those that have gone and had connections still.
    pub(crate) fn accounts(&self, rt: &R) -> Result<Vec<Arc<ServedRule>>, ServeFault>
        ensures { IfErr result (λ fault. fault ≡ ServeFault.Memory) }
    {
        let mut all = Vec::new(self.alloc);
        for served in self.host.shared.rules.lock(rt).iter() {
            all.push(Arc::try_clone(served)?)?;
        }
        for served in self.gone.iter() {
            all.push(Arc::try_clone(served)?)?;
        }
        Ok(all)
    }

    // The listeners that stand.
    fn standing(&self) -> Result<Vec<Listening>, ServeFault>
        ensures standing { IfOk result (λ standing.
            standing.items ≡ standing_in (tasks_of self.now.tasks) self.now.listening.items) }
        ensures faults { IfErr result (λ fault. fault ≡ ServeFault.Memory) }
    {
        let mut standing = Vec::new(self.alloc);
        for one in self.listening.iter() {
            if self.tasks.task(one.token).is_some() {
                standing.push(*one)?;
            }
        }
        Ok(standing)
    }

    // The plan of listeners for rules that say this.
    fn listeners_planned(&self, said: &[Arc<Said>]) -> Result<ListenerPlan, ServeFault>
        ensures plan { IfOk result (AreListenersPlanned (wanted_by said.now)
            self.now.listening.items
            (standing_in (tasks_of self.now.tasks) self.now.listening.items)) }
    {
        let wanted = wanted_by(self.alloc, said)?;
        let standing = self.standing()?;
        listener_plan(
            self.alloc,
            self.listening.as_slice(),
            standing.as_slice(),
            wanted.as_slice(),
        )
    }

    // The plan from these accounts to what the file says, which accounts are to say so.
    fn planned(
        &self,
        accounts: Vec<Arc<ServedRule>>,
        file: &[SaidRule],
        said: &[Arc<Said>],
    ) -> Result<Plan, ServeFault>
        ensures plan { IfOk result (IsPlanned (rules_said file.now) (wanted_by said.now)
            self.now.listening.items
            (standing_in (tasks_of self.now.tasks) self.now.listening.items)) }
    {
        let rules = rules_of(self.alloc, file)?;
        let listeners = self.listeners_planned(said)?;
        let loops = self.host.shared.loops.len();
        plan_of(self.alloc, accounts, rules.as_slice(), listeners, loops)
    }

    // The listeners that stay by a plan, each with the account of its rule from then on.
    fn followed(&self, plan: &Plan) -> Result<Vec<Followed>, ServeFault>
        ensures followed { IfOk result (λ all. map followed_by all.items ≡ filter_map
            (follows (standing_in (tasks_of self.now.tasks) self.now.listening.items)
            plan.now.serve.items) plan.now.listeners.keep.items) }
    {
        let standing = self.standing()?;
        followed_of(
            self.alloc,
            standing.as_slice(),
            plan.serve.as_slice(),
            plan.listeners.keep.as_slice(),
        )
    }

    /// What the file comes to, before anything is done.
    pub(crate) fn prepared(&self, rt: &R, file: &[SaidRule]) -> Result<Prepared, ServeFault>
        ensures plan { IfOk result (λ prepared. IsPlanned (rules_said file.now)
            (wanted_by prepared.said.items) self.now.listening.items
            (standing_in (tasks_of self.now.tasks) self.now.listening.items) prepared.plan) }
        ensures said { IfOk result (λ prepared. SayRules file.now prepared.said.items) }
        ensures followed { IfOk result (λ prepared. map followed_by prepared.followed.items
            ≡ filter_map (follows
            (standing_in (tasks_of self.now.tasks) self.now.listening.items)
            prepared.plan.serve.items) prepared.plan.listeners.keep.items) }
    {
        let accounts = self.accounts(rt)?;
        let lookups = &*self.host.shared.lookups;
        let said = all_said(rt, self.alloc, lookups, accounts.as_slice(), file)?;
        let plan = self.planned(accounts, file, said.as_slice())?;
        let followed = self.followed(&plan)?;
        Ok(Prepared {
            plan,
            said,
            followed,
        })
    }
}
