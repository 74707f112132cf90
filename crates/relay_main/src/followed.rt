//! By which account a rule's task accepts, which counts it. A listener that stays over a reload may come
//! to another rule, or its rule to another account: then its task follows.

ghost use Rattle.std.specs.Prelude.{◌≡◌, IfErr, IfOk, filter_map, map};
ghost use Rattle.readiness.specs.EventLoop.{tasks_of};
ghost use Rattle.relay_admin.specs.declared.serve_fault.ServeFault.{ServeFault};
ghost use Rattle.relay_main.specs.Followed as spec;

use crate::accounts::account_at;
use crate::main_loop::MainLoop;
use crate::main_task::MainTask;
use crate::rule_listeners::Listening;
use crate::rule_task::RuleTask;
use crate::wanted_listeners::WantedListener;
use relay_admin::{Addr, ServeFault, is_same_addr};
use relay_facts::served_rule::ServedRule;
use std::alloc::Global;
use std::sync::{Arc, Wait};
use std::time::Clock;

/// A listener that stays, by the token of its task, and the account of its rule from now on.
#[derive(Drop)]
pub(crate) struct Followed {
    pub(crate) token: u64,
    pub(crate) served: Arc<ServedRule>,
}

// The token of the first of these listeners that is at this address.
fn token_for(standing: &[Listening], listen: &Addr) -> Option<u64>
    ensures { result ≡ spec.token_for listen.now standing.now }
{
    let found = standing
        .iter()
        .find(|one| is_same_addr(&one.listen, listen));
    found.map(|one| one.token)
}

/// Of listeners that stay among these each with the account of its rule among those.
pub(crate) fn followed_of(
    alloc: Global,
    standing: &[Listening],
    accounts: &[Arc<ServedRule>],
    keep: &[WantedListener],
) -> Result<Vec<Followed>, ServeFault>
    ensures followed { IfOk result (λ all. map spec.followed_by all.items
        ≡ filter_map (spec.follows standing.now accounts.now) keep.now) }
    ensures faults { IfErr result (λ fault. fault ≡ ServeFault.Memory) }
{
    let mut all = Vec::new(alloc);
    for one in keep {
        let Some(token) = token_for(standing, &one.listen) else {
            continue;
        };
        let Some(account) = account_at(accounts, &one.rule.listen) else {
            continue;
        };
        let served = Arc::try_clone(account)?;
        all.push(Followed { token, served })?;
    }
    Ok(all)
}

impl<R: Wait + Copy> RuleTask<R> {
    /// Its clients are accepted from now on, or aren't any more: its account counts it so.
    pub(crate) fn note_listening(&mut self, accepts: bool)
        ensures { self.new ≡ record self.old { is_counted = accepts } }
    {
        if accepts != self.is_counted {
            self.served.count_listener(accepts);
            self.is_counted = accepts;
        }
    }

    // Accepts by this account from now on, which counts it as the one before did.
    fn follow(&mut self, served: Arc<ServedRule>)
        ensures { self.new ≡ record self.old { served = served } }
    {
        if self.is_counted {
            served.count_listener(true);
            self.served.count_listener(false);
        }
        self.served = served;
    }
}

impl<R: Wait + Copy> MainTask<R> {
    // One that accepts by a rule accepts by this account from now on; any other goes on as it did.
    fn follow(&mut self, served: Arc<ServedRule>)
        ensures { self.new ≡ spec.following served self.old }
    {
        match self {
            MainTask::Rule(task) => task.follow(served),
            MainTask::Admin(_) | MainTask::Check(_) | MainTask::Session(_) => {}
        }
    }
}

impl<R: Wait + Clock + Copy> MainLoop<R> {
    /// Has each of these accept by its account from now on.
    pub(crate) fn follow_accounts(&mut self, all: Vec<Followed>)
        ensures follow { tasks_of self.new.tasks
            ≡ spec.follow_each all.items (tasks_of self.old.tasks) }
        ensures listening { self.new.listening ≡ self.old.listening }
        ensures paths { self.new.paths ≡ self.old.paths }
    {
        for one in all {
            self.follow_account(one);
        }
    }

    // Has the rule's task that this token names accept by this account from now on.
    fn follow_account(&mut self, one: Followed)
        ensures follow { tasks_of self.new.tasks ≡ spec.follow_one one (tasks_of self.old.tasks) }
        ensures listening { self.new.listening ≡ self.old.listening }
        ensures paths { self.new.paths ≡ self.old.paths }
    {
        let Followed { token, served } = one;
        if let Some(task) = self.tasks.task_mut(token) {
            task.follow(served);
        }
    }
}
