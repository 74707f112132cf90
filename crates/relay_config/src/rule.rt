//! A rule: its name, where it listens, its targets, and how one is picked.

ghost use Rattle.std.specs.Prelude.{◌≡◌, [], map};
ghost use Rattle.toml.specs.View.{items_view, table_view, view};
ghost use Rattle.relay_config.specs.Entries.{head_entry, rule_entry};
ghost use Rattle.relay_config.specs.Rule.{has_name, head_in, name_in, new_name, resolve_in};
ghost use Rattle.relay_config.specs.Rule.{rule_behind, rule_in};
ghost use Rattle.relay_config.specs.Fault.{Answers, Reads};
ghost use Rattle.relay_config.specs.Reading.{each_in};

use crate::access::{Access, access_of};
use crate::clients::{Clients, clients_of};
use crate::fault::{Fault, Key, Place, Spot, Wrong};
use crate::health::{Checks, health_in};
use crate::items::members_of;
use crate::listen::listeners_of;
use crate::proxy::{Proxy, proxy_in};
use crate::rule_name::{MAX_NAME_BYTES, name_of_value};
use crate::sockets::{Sockets, sockets_of};
use crate::spelled::{balance_in, time_in};
use crate::table::known_alone;
use crate::target::{Target, targets_of};
use crate::values::needed;
use arrayvec::ArrayString;
use config_values::Addr;
use std::alloc::Global;
use target_pick::Balance;
use toml::{Table, Value};

/// After how many milliseconds names are looked up again where the text doesn't say it.
pub const DEFAULT_RESOLVE_MS: u64 = 30_000;

/// A rule, but for its lists.
#[derive(Clone, Copy, Debug, PartialEq, Eq, Drop)]
pub struct Head {
    /// A letter and then letters, digits and hyphens, all small, at most 16 in all.
    pub name: ArrayString<MAX_NAME_BYTES>,
    /// A connection that was idle for so many milliseconds is closed; with `None` it never is.
    pub idle_ms: Option<u64>,
    pub balance: Balance,
    /// The names of its targets are looked up again after so many milliseconds; with `None` never.
    pub resolve_ms: Option<u64>,
    pub clients: Clients,
    pub sockets: Sockets,
    /// How its targets are checked; with `None` they aren't.
    pub health: Option<Checks>,
}

/// A rule of the relay.
#[derive(Drop)]
pub struct Rule {
    pub head: Head,
    pub access: Access,
    /// Headers of the PROXY protocol; with `None` none are read or written.
    pub proxy: Option<Proxy>,
    /// Where it listens: 1 to 16 addresses, none of them a name.
    pub listen: Vec<Addr>,
    /// 1 to 64 targets.
    pub targets: Vec<Target>,
}

/// The keys of a rule.
pub(crate) const KEYS: &[Key] = &[
    Key::Name,
    Key::Listen,
    Key::Target,
    Key::Balance,
    Key::Idle,
    Key::Connections,
    Key::ConnectionsPerSource,
    Key::AcceptsPerSource,
    Key::Keepalive,
    Key::UserTimeout,
    Key::Allow,
    Key::Deny,
    Key::ProxyProtocol,
    Key::Health,
    Key::Resolve,
    Key::Backlog,
    Key::Source,
    Key::Mode,
];

/// The rules that items say.
pub(crate) fn rules_in(alloc: Global, items: &[Value]) -> Result<Vec<Rule>, Fault>
    ensures { Answers (λ found. map rule_entry found.items) result
        (each_in rule_behind [] (items_view items.now)) }
{
    let mut found = Vec::new(alloc);
    for value in items {
        let rule = rule_behind(alloc, found.as_slice(), value)?;
        if found.push(rule).is_err() {
            return Err(Fault::Memory);
        }
    }
    Ok(found)
}

/// The rule behind these.
#[tactic(auto, unfolding(crate::specs::Rule::rule_behind))]
fn rule_behind(alloc: Global, found: &[Rule], value: &Value) -> Result<Rule, Fault>
    ensures { Answers rule_entry result (rule_behind (map rule_entry found.now) (view value.now)) }
{
    let table = members_of(Spot::item(Place::Top, Key::Rule, found.len()), value)?;
    rule_of(alloc, found, table)
}

/// The rule that a table says, behind these.
#[tactic(auto, unfolding(crate::specs::Rule::rule_in))]
fn rule_of(alloc: Global, before: &[Rule], table: &Table) -> Result<Rule, Fault>
    ensures { Answers rule_entry result
        (rule_in (map rule_entry before.now) (table_view table.now)) }
{
    let head = head_of(before, table)?;
    let access = access_of(alloc, Place::Rule(before.len()), table)?;
    let proxy = proxy_in(alloc, before.len(), table)?;
    let listen = listeners_of(alloc, before, table)?;
    let targets = targets_of(alloc, before.len(), table)?;
    Ok(Rule {
        head,
        access,
        proxy,
        listen,
        targets,
    })
}

#[tactic(auto, unfolding(crate::specs::Rule::head_in))]
fn head_of(before: &[Rule], table: &Table) -> Result<Head, Fault>
    ensures { Reads head_entry result
        (head_in (map rule_entry before.now) (table_view table.now)) }
{
    let name = name_of(before, table)?;
    let place = Place::Rule(before.len());
    let idle = time_in(table, place, Key::Idle)?;
    let balance = balance_in(table, place, Key::Balance)?;
    let resolve = resolve_of(place, table)?;
    let clients = clients_of(place, table)?;
    let sockets = sockets_of(place, table)?;
    let health = health_in(before.len(), table)?;
    Ok(Head {
        name,
        idle_ms: idle.unwrap_or(None),
        balance: balance.unwrap_or(Balance::RoundRobin),
        resolve_ms: resolve,
        clients,
        sockets,
        health,
    })
}

/// How often the rule at a place has names looked up.
#[tactic(auto, unfolding(crate::specs::Rule::resolve_in))]
fn resolve_of(place: Place, table: &Table) -> Result<Option<u64>, Fault>
    ensures { result ≡ resolve_in place (table_view table.now) }
{
    let time = time_in(table, place, Key::Resolve)?;
    Ok(time.unwrap_or(Some(DEFAULT_RESOLVE_MS)))
}

/// The rule's name, which no rule before it has.
#[tactic(auto, unfolding(crate::specs::Rule::name_in))]
fn name_of(before: &[Rule], table: &Table) -> Result<ArrayString<MAX_NAME_BYTES>, Fault>
    ensures { Reads (λ name. name.bytes) result
        (name_in (map rule_entry before.now) (table_view table.now)) }
{
    let place = Place::Rule(before.len());
    known_alone(KEYS, place, table)?;
    let value = needed(table, place, Key::Name)?;
    new_name(before, value)
}

/// The name that a value spells, which no rule before this one has.
#[tactic(auto, unfolding(crate::specs::Rule::new_name))]
fn new_name(before: &[Rule], value: &Value) -> Result<ArrayString<MAX_NAME_BYTES>, Fault>
    ensures { Reads (λ name. name.bytes) result
        (new_name (map rule_entry before.now) (view value.now)) }
{
    let spot = Spot::of(Place::Rule(before.len()), Key::Name);
    let name = name_of_value(spot, value)?;
    if has_name(before, name.as_str()) {
        return Err(Fault::At(spot, Wrong::Twice));
    }
    Ok(name)
}

fn has_name(rules: &[Rule], name: &str) -> bool
    ensures { result ≡ has_name name.now (map rule_entry rules.now) }
{
    for rule in rules {
        if rule.head.name.as_str() == name {
            return true;
        }
    }
    false
}
