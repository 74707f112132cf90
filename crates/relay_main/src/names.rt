//! The names of targets' hosts: which are to be looked up, as the rules say at the start and behind each
//! reload, and what the rules say once hosts have other addresses. Where memory is refused, that is tried
//! again.

ghost use Rattle.std.specs.Prelude.{◌≡◌, ◌⊎◌, None, Some, IfErr, IsSome};
ghost use Rattle.relay_admin.specs.declared.serve_fault.ServeFault.{ServeFault};
ghost use Rattle.relay_main.specs.Checks.{IsToFollow, moment_behind};

use crate::main_loop::MainLoop;
use relay_admin::ServeFault;
use relay_core::{has_come, pause_end};
use relay_facts::host_answers::WantedName;
use relay_facts::log_lines::calendar_ms;
use relay_facts::named_list::NamedTargets;
use relay_facts::served_rule::{Said, ServedRule};
use relay_shared::lookups::Lookups;
use std::sync::{Arc, Wait};
use std::time::Clock;

/// How long after memory was refused it is tried again.
const RETRY_MS: u64 = 1_000;

// Puts the names of a rule's targets behind these.
fn add_names(all: &mut Vec<WantedName>, named: &NamedTargets) -> Result<(), ServeFault>
    ensures { IfErr result (λ fault. fault ≡ ServeFault.Memory) }
{
    for one in named.names.iter() {
        all.push(WantedName {
            host: one.host,
            resolve_ms: named.resolve_ms,
        })?;
    }
    Ok(())
}

// Has a rule say this from this moment on, by the calendar, in place of what it said. Its targets that stay
// keep what an operator has set of them.
fn say_found<R: Wait>(rt: &R, served: &ServedRule, before: &Said, said: Arc<Said>, now: u64) {
    if let (Some(targets), Some(list)) = (&said.targets, &before.targets) {
        targets.come(list, now);
    }
    served.say(rt, said);
}

// Has a rule say where its hosts are, by what is known now.
fn follow_rule<R: Wait>(
    rt: &R,
    lookups: &Lookups,
    served: &ServedRule,
    now: u64,
) -> Result<(), ServeFault>
    ensures { IfErr result (λ fault. fault ≡ ServeFault.Memory) }
{
    let Some(before) = served.said(rt) else {
        return Err(ServeFault::Memory);
    };
    if let Some(said) = lookups.looked_up(rt, &*before)? {
        say_found(rt, served, &*before, said, now);
    }
    Ok(())
}

impl<R: Wait + Clock + Copy> MainLoop<R> {
    // The names that the rules have.
    fn names_wanted(&self) -> Result<Vec<WantedName>, ServeFault>
        ensures { IfErr result (λ fault. fault ≡ ServeFault.Memory) }
    {
        let rt = self.host.rt;
        let mut all = Vec::new(self.alloc);
        for served in self.host.shared.rules.lock(&rt).iter() {
            let Some(said) = served.said(&rt) else {
                return Err(ServeFault::Memory);
            };
            if let Some(named) = &said.names {
                add_names(&mut all, named)?;
            }
        }
        Ok(all)
    }

    fn try_want_names(&self) -> Result<(), ServeFault>
        ensures { IfErr result (λ fault. fault ≡ ServeFault.Memory) }
    {
        let names = self.names_wanted()?;
        let lookups = &self.host.shared.lookups;
        Ok(lookups.want(&self.host.rt, names.as_slice())?)
    }

    /// Has the names of the rules looked up from now on, where these may have changed since.
    pub(crate) fn want_names(&mut self, now: u64)
        ensures early { (IsToFollow self.old.want_at now → ⊥) → self.new ≡ self.old }
        ensures again { IsToFollow self.old.want_at now → (self.new.want_at ≡ None)
            ⊎ (self.new.want_at ≡ Some (moment_behind now 1000)) }
    {
        if !has_come(self.want_at, now) {
            return;
        }
        self.want_at = match self.try_want_names() {
            Ok(()) => None,
            Err(_) => Some(pause_end(now, RETRY_MS)),
        };
    }

    fn try_follow_names(&self) -> Result<(), ServeFault>
        ensures { IfErr result (λ fault. fault ≡ ServeFault.Memory) }
    {
        let rt = self.host.rt;
        let now = calendar_ms(&rt);
        for served in self.host.shared.rules.lock(&rt).iter() {
            follow_rule(&rt, &self.host.shared.lookups, served, now)?;
        }
        Ok(())
    }

    /// Has the rules say where their hosts are, where one has other addresses than before; their checks
    /// follow, unless the relay finishes, which checks no target any more.
    pub(crate) fn follow_names(&mut self)
        ensures want { self.new.want_at ≡ self.old.want_at }
        ensures finishing { IsSome self.old.finish_at → self.new ≡ self.old }
        ensures tasks { self.new.tasks ≡ self.old.tasks }
        ensures listening { self.new.listening ≡ self.old.listening }
        ensures paths { self.new.paths ≡ self.old.paths }
    {
        let Some(news) = self.host.shared.lookups.take_news() else {
            return;
        };
        match self.try_follow_names() {
            Ok(()) if self.finish_at.is_some() => news.taken(),
            Ok(()) => {
                news.taken();
                self.follow_at = Some(0);
            }
            Err(_) => self.host.shared.lookups.put_news_back(news),
        }
    }
}
