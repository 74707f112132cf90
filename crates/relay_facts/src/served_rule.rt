//! A rule as a running relay serves it.

ghost use Rattle.std.specs.Prelude.{◌≡◌, ◌⊎◌, false, None, Some, IfOk, IfSome, IsSome, option_map};
ghost use Rattle.std.specs.Arc.{arc_value};
ghost use Rattle.client_sources.specs.Limits.{are_none, no_limits};
ghost use Rattle.relay_facts.specs.Acceptance.{checks_with};
ghost use Rattle.relay_facts.specs.Admission.{allowed_by, denied_by};
ghost use Rattle.relay_facts.specs.Config.{AreFoundBy, IsSame, SaysRuleBy, SaysWith};
ghost use Rattle.relay_facts.specs.Counts.{loops_of};
ghost use Rattle.relay_facts.specs.NamedTargets.{by_answers};
ghost use Rattle.relay_facts.specs.Targets.{targets_of};
ghost use Rattle.relay_config.specs.Entries.{sockets_entry};
ghost use Rattle.relay_settings.specs.Targets.{plain_sockets};

use crate::counts::RuleCounts;
use crate::host_answers::Answers;
use crate::listens::{Addresses, addresses_of};
use crate::named_list::NamedTargets;
use crate::named_targets::{looked_up, named_of};
use crate::rule_sources::RuleSources;
use crate::senders::{Senders, senders_of};
use crate::target_list::Targets;
use base_types::OutOfMemory;
use relay_admin::{Addr, Rule};
use relay_core::PairLimit;
use relay_log::ended::Ended;
use relay_settings::{Access, PLAIN_SOCKETS, SaidRule, Sockets, SourceLimits, Version};
use std::alloc::Global;
use std::sync::atomic::{AtomicU64, Ordering};
use std::sync::{Arc, Mutex, Wait};

/// What a rule says at a moment.
#[derive(Drop)]
pub struct Said {
    pub rule: Rule,
    /// Where it listens; without a list at its own address alone.
    pub listens: Option<Arc<Addresses>>,
    /// How many connections of it stand at once; without it as many as of each rule.
    pub limit: Option<PairLimit>,
    /// How many clients of one source are let in.
    pub source_limits: SourceLimits,
    /// What counts those; without it nobody was limited so far.
    pub sources: Option<Arc<RuleSources>>,
    /// How the sockets of its listeners and connections are set up.
    pub sockets: Sockets,
    /// Its targets; without a list, as an account has it before its rule is read, the rule's own target
    /// is the only one.
    pub targets: Option<Arc<Targets>>,
    /// What its file says of them, where some name their hosts.
    pub names: Option<Arc<NamedTargets>>,
    /// With which header a connection to a target begins, if with one.
    pub header: Option<Version>,
    /// Who may connect to it; without lists all clients may.
    pub access: Option<Arc<Access>>,
    /// Whose clients begin with a header; without a list none does.
    pub senders: Option<Arc<Senders>>,
}

// The list of these targets. What a list of before counts and knows of a target stays. Hosts that are named
// are at the addresses of these answers.
#[tactic(auto, using(crate::proofs::NamedLemmas::no_names, crate::proofs::NamedLemmas::some_names))]
fn list_of(
    alloc: Global,
    said: &SaidRule,
    before: Option<&Said>,
    answers: &Answers,
) -> Result<Arc<Targets>, OutOfMemory>
    ensures targets { IfOk result (λ list. targets_of (arc_value list)
        ≡ by_answers answers.now.all.items said.now.names.items said.now.targets.items) }
    ensures balance { IfOk result (λ list. (arc_value list).balance ≡ said.now.balance) }
    ensures checks { IfOk result (λ list.
        checks_with (Some (arc_value list)) ≡ said.now.checks) }
{
    let list = before.and_then(|before| before.targets.as_ref());
    let list = list.map(|list| &**list);
    let targets = said.targets.as_slice();
    if said.has_no_names() {
        return Targets::new(alloc, said.balance, said.checks, targets, list);
    }
    let found = looked_up(alloc, targets, said.names.as_slice(), answers)?;
    Targets::new(alloc, said.balance, said.checks, found.as_slice(), list)
}

// What counts clients by their sources: the table of before, if there is one, also while nobody is
// limited; else a new one, where somebody is.
fn sources_of(
    alloc: Global,
    limits: &SourceLimits,
    before: Option<&Said>,
) -> Result<Option<Arc<RuleSources>>, OutOfMemory>
    ensures there { IfOk result (λ sources.
        are_none limits.now ≡ false → IsSome sources) }
{
    if let Some(
        Said {
            sources: Some(sources),
            ..
        },
    ) = before
    {
        return Ok(Some(Arc::try_clone(sources)?));
    }
    if limits.is_none() {
        return Ok(None);
    }
    Ok(Some(RuleSources::new(alloc)?))
}

// Who may connect to a rule, in memory of its own, where the rule has lists.
fn access_of(alloc: Global, said: &SaidRule) -> Result<Option<Arc<Access>>, OutOfMemory>
    ensures allow { IfOk result (λ access.
        allowed_by (option_map arc_value access) ≡ said.now.access.allow.items) }
    ensures deny { IfOk result (λ access.
        denied_by (option_map arc_value access) ≡ said.now.access.deny.items) }
{
    if said.has_no_lists() {
        return Ok(None);
    }
    let allow = Vec::from_slice(alloc, said.access.allow.as_slice())?;
    let deny = Vec::from_slice(alloc, said.access.deny.as_slice())?;
    let access = Arc::new(alloc, Access { allow, deny })?;
    Ok(Some(access))
}

/// The same list held once more, unless it is held too often.
pub(crate) fn same_list<T>(list: &Option<Arc<T>>) -> Option<Option<Arc<T>>>
    ensures { IfSome result (λ same.
        option_map arc_value same ≡ option_map arc_value list.now) }
{
    match list {
        Some(list) => Some(Some(Arc::try_clone(list).ok()?)),
        None => Some(None),
    }
}

impl Said {
    // The same once more. It takes no memory; refused is only a list that is held too often.
    fn try_clone(&self) -> Option<Said>
        ensures { IfSome result (IsSame self.now) }
    {
        let listens = same_list(&self.listens)?;
        let sources = same_list(&self.sources)?;
        let targets = same_list(&self.targets)?;
        let names = same_list(&self.names)?;
        let access = same_list(&self.access)?;
        let senders = same_list(&self.senders)?;
        Some(Said {
            rule: self.rule,
            listens,
            limit: self.limit,
            source_limits: self.source_limits,
            sources,
            sockets: self.sockets,
            targets,
            names,
            header: self.header,
            access,
            senders,
        })
    }

    /// What a rule of the file says, where hosts were looked up as these answers have it. `before` is what
    /// its account says, if it has one: what its list of targets and its table of sources count is counted
    /// on.
    pub fn of(
        alloc: Global,
        said: &SaidRule,
        before: Option<&Said>,
        answers: &Answers,
    ) -> Result<Said, OutOfMemory>
        ensures { IfOk result (SaysRuleBy answers.now.all.items said.now) }
    {
        let listens = addresses_of(alloc, said)?;
        let sources = sources_of(alloc, &said.source_limits, before)?;
        let targets = Some(list_of(alloc, said, before, answers)?);
        let names = named_of(alloc, said)?;
        let access = access_of(alloc, said)?;
        let senders = senders_of(alloc, said)?;
        Ok(Said {
            rule: said.rule,
            listens,
            limit: said.limit,
            source_limits: said.source_limits,
            sources,
            sockets: said.sockets,
            targets,
            names,
            header: said.header,
            access,
            senders,
        })
    }

    // The same, but with this list of targets. Refused is only a list that is held too often.
    fn with_targets(&self, list: Arc<Targets>) -> Option<Said>
        ensures { IfSome result (SaysWith (arc_value list) self.now) }
    {
        let mut said = self.try_clone()?;
        said.targets = Some(list);
        Some(said)
    }

    /// What a rule says once its hosts were looked up as these answers have it; none where it names no
    /// host. What its list counts and knows of a target that stays goes on.
    pub fn looked_up(&self, alloc: Global, answers: &Answers) -> Result<Option<Said>, OutOfMemory>
        ensures named { IfOk result (λ said. IfSome said
            (AreFoundBy answers.now.all.items self.now)) }
        ensures none { IfOk result (λ said. said ≡ None
            → (self.now.names ≡ None) ⊎ (self.now.targets ≡ None)) }
    {
        let (Some(named), Some(list)) = (&self.names, &self.targets) else {
            return Ok(None);
        };
        let list = named.listed(alloc, list, answers)?;
        match self.with_targets(list) {
            Some(said) => Ok(Some(said)),
            None => Err(OutOfMemory),
        }
    }

    /// A rule at its own address alone, without limits of its own and with plain sockets, whose own target
    /// is its only one and is sent no header, and which lets all clients in and awaits a header of none.
    pub fn alone(rule: &Rule) -> Said
        ensures rule { result.rule ≡ rule.now }
        ensures listens { result.listens ≡ None }
        ensures limit { result.limit ≡ None }
        ensures source_limits { result.source_limits ≡ no_limits }
        ensures sockets { sockets_entry result.sockets ≡ plain_sockets }
        ensures targets { result.targets ≡ None }
        ensures names { result.names ≡ None }
        ensures header { result.header ≡ None }
        ensures access { result.access ≡ None }
        ensures senders { result.senders ≡ None }
    {
        Said {
            rule: *rule,
            listens: None,
            limit: None,
            source_limits: SourceLimits::none(),
            sources: None,
            sockets: PLAIN_SOCKETS,
            targets: None,
            names: None,
            header: None,
            access: None,
            senders: None,
        }
    }
}

/// The account of a rule, by the first address at which it listens: what the rule says now, and what was
/// counted, of all its listeners together. It outlives these, which are the main thread's. The rule's
/// name, further addresses, limits, sockets, targets, header, idle time and lists of clients change with a
/// reload; a connection goes on by what they were when it was accepted.
#[derive(Drop)]
pub struct ServedRule {
    pub listen: Addr,
    /// Whoever has taken what it said goes on by that, whatever it says later.
    said: Mutex<Arc<Said>>,
    /// How many targets were picked by it.
    picks: AtomicU64,
    /// How many of its listeners accept clients.
    accepting: AtomicU64,
    /// How many of its connections stand, those that wait for their loops among them.
    standing: AtomicU64,
    /// Its number among accounts; 0 before it has one.
    number: AtomicU64,
    pub counts: RuleCounts,
}

impl ServedRule {
    /// A rule without a listener, of a relay with so many loops, which says this.
    pub fn new(alloc: Global, said: Said, loops: usize) -> Result<Arc<ServedRule>, OutOfMemory>
        ensures listen { IfOk result (λ served. (arc_value served).listen ≡ said.rule.listen) }
        ensures loops { IfOk result (λ served. loops_of (arc_value served).counts ≡ loops) }
    {
        let held = Arc::new(alloc, said)?;
        let listen = held.rule.listen;
        let counts = RuleCounts::new(alloc, loops)?;
        let served = ServedRule {
            listen,
            said: Mutex::new(held),
            picks: AtomicU64::new(0),
            accepting: AtomicU64::new(0),
            standing: AtomicU64::new(0),
            number: AtomicU64::new(0),
            counts,
        };
        match Arc::new(alloc, served) {
            Ok(served) => Ok(served),
            Err(_) => Err(OutOfMemory),
        }
    }

    /// What the rule says now, but for its further addresses, its limit, its targets and its lists.
    pub fn rule<R: Wait>(&self, rt: &R) -> Rule {
        let said = self.said.lock(rt);
        said.rule
    }

    /// What it says now. It takes no memory; refused is only what is held too often.
    pub fn said<R: Wait>(&self, rt: &R) -> Option<Arc<Said>> {
        let said = self.said.lock(rt);
        Arc::try_clone(&*said).ok()
    }

    /// Has it say this from now on.
    pub fn say<R: Wait>(&self, rt: &R, said: Arc<Said>) {
        *self.said.lock(rt) = said;
    }

    /// Its number among accounts, from 1 on; 0 before it has one.
    pub fn number(&self) -> u64 {
        self.number.load(Ordering::SeqCst)
    }

    /// This is its number from now on. An account that stays over a reload keeps it.
    pub fn set_number(&self, number: u64) {
        self.number.store(number, Ordering::SeqCst);
    }

    /// How many targets were picked by it before, this time not counted.
    pub(crate) fn next_turn(&self) -> u64 {
        self.picks.fetch_add(1, Ordering::SeqCst)
    }

    /// One of its listeners accepts clients from now on, or does so no more.
    pub fn count_listener(&self, accepts: bool) {
        if accepts {
            self.accepting.fetch_add(1, Ordering::SeqCst);
        } else {
            self.accepting.fetch_sub(1, Ordering::SeqCst);
        }
    }

    /// Whether clients are accepted at each of its addresses.
    pub(crate) fn is_listening<R: Wait>(&self, rt: &R) -> bool {
        let count = self.said.lock(rt).listener_count();
        self.accepting.load(Ordering::SeqCst) >= count as u64
    }

    /// One of its connections more stands. Each is left once.
    pub fn enter(&self) {
        self.standing.fetch_add(1, Ordering::SeqCst);
    }

    /// One that stood is over.
    pub fn leave(&self) {
        self.standing.fetch_sub(1, Ordering::SeqCst);
    }

    /// How many of its connections stand.
    pub fn standing(&self) -> u64 {
        self.standing.load(Ordering::SeqCst)
    }

    /// A client was accepted.
    pub fn note_accept(&self) {
        self.counts.accepted.add(1);
    }

    /// A client of it was accepted, and dropped at once: there was no memory to know anything of it.
    pub fn note_unknown(&self) {
        self.note_accept();
        self.counts.note_dropped(Ended::NoMemory);
    }
}
