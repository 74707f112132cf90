//! What a rule of a configuration says and this version carries out. Each thing that it comes to do
//! takes a case away here.

ghost use Rattle.std.specs.Prelude.{◌≡◌, ◌≤◌, ◌<◌, [], IfErr, IfOk, Some, length, map, option_map};
ghost use Rattle.std.specs.Prelude.{slice_get};
ghost use Rattle.client_nets.specs.Net.{network_of};
ghost use Rattle.config_values.specs.Addr as config;
ghost use Rattle.relay_admin.specs.rules.Addr.{address_of};
ghost use Rattle.relay_config.specs.Entries.{access_entry, clients_entry, rule_entry};
ghost use Rattle.relay_config.specs.Entries.{proxy_entry, target_entry};
ghost use Rattle.relay_config.specs.Fault.{Answers, Reads};
ghost use Rattle.relay_config.specs.declared.fault.Fault.{Fault};
ghost use Rattle.relay_settings.specs.Meaning.{each_of, first_address, first_listener};
ghost use Rattle.relay_settings.specs.Meaning.{header_in, served, target_address, weight_before};
ghost use Rattle.relay_settings.specs.Meaning.{named_at, named_entry, names_from};
ghost use Rattle.relay_settings.specs.Meaning.{senders_in, source_limits_in};
ghost use Rattle.relay_settings.specs.Meaning.{address_behind};
ghost use Rattle.relay_settings.specs.Meaning.{rule_in};
ghost use Rattle.relay_settings.specs.Meaning.{said_rule_entry, said_target_entry};
ghost use Rattle.relay_settings.specs.Meaning.{target_behind, targets_in};
ghost use Rattle.relay_settings.specs.Targets.{first_at};

use crate::address::{address_at, pairs_in, served_if, time_in, unserved};
use crate::targets::{MAX_TARGETS, Named, SaidRule, Target};
use client_nets::Net;
use client_sources::Limits;
use relay_admin::{Addr, Rule};
use relay_config as config;
use relay_config::{Access, Clients, Fault, Key, Place, Proxy, Spot, Version};
use std::alloc::Global;

/// The rule with this number as a relay serves it, or its first place that isn't carried out.
#[tactic(auto, unfolding(crate::specs::Meaning::rule_in))]
pub(crate) fn rule_of(alloc: Global, number: usize, rule: &config::Rule) -> Result<SaidRule, Fault>
    ensures { Answers said_rule_entry result (rule_in number (rule_entry rule.now)) }
{
    let place = Place::Rule(number);
    let idle_ms = time_in(Spot::of(place, Key::Idle), rule.head.idle_ms)?;
    let said = rule.head.clients.connections;
    let limit = pairs_in(Spot::of(place, Key::Connections), said)?;
    let resolve_ms = time_in(Spot::of(place, Key::Resolve), rule.head.resolve_ms)?;
    let access = access_of(alloc, &rule.access)?;
    let senders = senders_of(alloc, &rule.proxy)?;
    let listens = listens_of(alloc, number, rule.listen.as_slice())?;
    let listen = first_listener(number, listens.as_slice())?;
    let targets = targets_of(alloc, number, rule.targets.as_slice())?;
    let target = first_address(number, targets.as_slice())?;
    let names = names_of(alloc, rule.targets.as_slice())?;
    Ok(SaidRule {
        rule: Rule {
            name: rule.head.name,
            listen,
            target,
            idle_ms,
        },
        listens,
        limit,
        source_limits: source_limits_of(&rule.head.clients),
        sockets: rule.head.sockets,
        balance: rule.head.balance,
        access,
        checks: rule.head.health,
        senders,
        header: header_of(&rule.proxy),
        targets,
        names,
        resolve_ms,
    })
}

/// With which header a connection to a target begins.
fn header_of(proxy: &Option<Proxy>) -> Option<Version>
    ensures { result ≡ header_in (option_map proxy_entry proxy.now) }
{
    match proxy {
        Some(proxy) => proxy.to_target,
        None => None,
    }
}

/// The networks whose clients begin with a header, in memory of their own.
fn senders_of(alloc: Global, proxy: &Option<Proxy>) -> Result<Vec<Net>, Fault>
    ensures same { IfOk result (λ found.
        map network_of found.items ≡ senders_in (option_map proxy_entry proxy.now)) }
    ensures faults { IfErr result (λ fault. fault ≡ Fault.Memory) }
{
    let Some(proxy) = proxy else {
        return Ok(Vec::new(alloc));
    };
    match Vec::from_slice(alloc, proxy.from_client.as_slice()) {
        Ok(senders) => Ok(senders),
        Err(_) => Err(Fault::Memory),
    }
}

/// How many clients of one source are let in.
fn source_limits_of(clients: &Clients) -> Limits
    ensures { result ≡ source_limits_in (clients_entry clients.now) }
{
    Limits {
        connections: clients.source_connections,
        accepts: clients.source_accepts,
    }
}

/// The same lists, in memory of their own.
fn access_of(alloc: Global, access: &Access) -> Result<Access, Fault>
    ensures same { IfOk result (λ found. access_entry found ≡ access_entry access.now) }
    ensures faults { IfErr result (λ fault. fault ≡ Fault.Memory) }
{
    let Ok(allow) = Vec::from_slice(alloc, access.allow.as_slice()) else {
        return Err(Fault::Memory);
    };
    let Ok(deny) = Vec::from_slice(alloc, access.deny.as_slice()) else {
        return Err(Fault::Memory);
    };
    Ok(Access { allow, deny })
}

/// The addresses at which a rule listens, each at its place.
#[tactic(auto, using(crate::proofs::OneByOne::goes_on, crate::proofs::OneByOne::fails, crate::proofs::OneByOne::ended))]
fn listens_of(
    alloc: Global,
    rule: usize,
    listen: &[config_values::Addr],
) -> Result<Vec<Addr>, Fault>
    ensures { Answers (λ found. map address_of found.items) result
        (each_of (address_behind rule) [] (map config.address_of listen.now)) }
{
    let mut found = Vec::new(alloc);
    for addr in listen {
        let served = address_behind(rule, found.as_slice(), addr)?;
        if found.push(served).is_err() {
            return Err(Fault::Memory);
        }
    }
    Ok(found)
}

/// The address behind these at which a rule listens.
fn address_behind(rule: usize, found: &[Addr], addr: &config_values::Addr) -> Result<Addr, Fault>
    ensures { Reads address_of result
        (address_behind rule (map address_of found.now) (config.address_of addr.now)) }
{
    let spot = Spot::item(Place::Rule(rule), Key::Listen, found.len());
    address_at(spot, addr)
}

/// The first of these.
fn first_listener(rule: usize, listens: &[Addr]) -> Result<Addr, Fault>
    ensures address { Reads address_of result
        (first_listener rule (map address_of listens.now)) }
    ensures own { IfOk result (λ listen. slice_get listens.now 0 ≡ Some listen) }
{
    let [first, ..] = listens else {
        return Err(unserved(Spot::of(Place::Rule(rule), Key::Listen)));
    };
    Ok(*first)
}

/// The targets of a rule, each at its place.
#[tactic(auto, unfolding(crate::specs::Meaning::targets_in))]
fn targets_of(alloc: Global, rule: usize, targets: &[config::Target]) -> Result<Vec<Target>, Fault>
    ensures targets { Answers (λ found. map said_target_entry found.items) result
        (targets_in rule (map target_entry targets.now)) }
    ensures few { IfOk result (λ found. length found.items ≤ 64) }
{
    let is_few = targets.len() <= MAX_TARGETS;
    served_if(
        Spot::item(Place::Rule(rule), Key::Target, MAX_TARGETS),
        is_few,
    )?;
    each_target(alloc, rule, targets)
}

#[tactic(auto, using(crate::proofs::OneByOne::goes_on, crate::proofs::OneByOne::fails, crate::proofs::OneByOne::ended))]
fn each_target(alloc: Global, rule: usize, targets: &[config::Target]) -> Result<Vec<Target>, Fault>
    ensures targets { Answers (λ found. map said_target_entry found.items) result
        (each_of (target_behind rule) [] (map target_entry targets.now)) }
    ensures count { IfOk result (λ found. length found.items ≡ length targets.now) }
{
    let mut found = Vec::new(alloc);
    for target in targets {
        let served = target_behind(rule, found.as_slice(), target)?;
        if found.push(served).is_err() {
            return Err(Fault::Memory);
        }
    }
    Ok(found)
}

/// The target behind these of a rule.
#[tactic(auto, unfolding(crate::specs::Meaning::target_behind, crate::specs::Meaning::target_in))]
fn target_behind(rule: usize, found: &[Target], target: &config::Target) -> Result<Target, Fault>
    ensures { Reads said_target_entry result
        (target_behind rule (map said_target_entry found.now) (target_entry target.now)) }
{
    let place = Place::Target(rule, found.len());
    let at = target_at(Spot::of(place, Key::At), &target.at)?;
    Ok(Target {
        at,
        weight: weight_before(target),
        is_backup: target.is_backup,
    })
}

/// Where a target is before names were looked up.
fn target_at(spot: Spot, at: &config_values::Addr) -> Result<Addr, Fault>
    ensures { Reads address_of result (served spot (target_address (config.address_of at.now))) }
{
    match at {
        config_values::Addr::Name(_, port) => Ok(Addr::Tcp([0, 0, 0, 0], *port)),
        at => address_at(spot, at),
    }
}

/// The weight of a target until then.
fn weight_before(target: &config::Target) -> u16
    ensures { result ≡ weight_before (target_entry target.now).at (target_entry target.now).weight }
{
    match target.at {
        config_values::Addr::Name(_, _) => 0,
        _ => target.weight,
    }
}

/// Those of these targets that name their hosts.
#[tactic(auto, using(crate::proofs::NamesLemmas::one_more, crate::proofs::NamesLemmas::none_here, crate::proofs::NamesLemmas::all_named))]
fn names_of(alloc: Global, targets: &[config::Target]) -> Result<Vec<Named>, Fault>
    ensures names { IfOk result (λ found.
        map named_entry found.items ≡ names_from 0 (map target_entry targets.now)) }
    ensures faults { IfErr result (λ fault. fault ≡ Fault.Memory) }
{
    let mut found = Vec::new(alloc);
    for place in 0..targets.len() {
        let Some(named) = named_at(place, &targets[place]) else {
            continue;
        };
        if found.push(named).is_err() {
            return Err(Fault::Memory);
        }
    }
    Ok(found)
}

/// What a target at a place says where it names its host.
fn named_at(place: usize, target: &config::Target) -> Option<Named>
    ensures { option_map named_entry result ≡ named_at place (target_entry target.now) }
{
    match target.at {
        config_values::Addr::Name(host, port) => Some(Named {
            place,
            host,
            port,
            weight: target.weight,
            is_backup: target.is_backup,
        }),
        _ => None,
    }
}

/// The address of the first target.
fn first_address(rule: usize, targets: &[Target]) -> Result<Addr, Fault>
    ensures address { Reads address_of result
        (first_address rule (map said_target_entry targets.now)) }
    ensures some { IfOk result (λ at. 0 < length targets.now) }
    ensures own { IfOk result (λ at. first_at targets.now ≡ Some at) }
{
    let [first, ..] = targets else {
        return Err(unserved(Spot::of(Place::Rule(rule), Key::Target)));
    };
    Ok(first.at)
}
