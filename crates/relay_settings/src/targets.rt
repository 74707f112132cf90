//! A rule with where it listens, its limits, its sockets, its targets and the names of their hosts, their checks,
//! what they are told of a client, and its lists of clients and of those that begin with a header, as a file says them.

ghost use Rattle.std.specs.Prelude.{◌≡◌, ◌≤◌, ◌<◌, ◌∷◌, [], IfOk, IsTrue, Some, None, ◌↔◌, length};
ghost use Rattle.std.specs.Prelude.{slice_get};
ghost use Rattle.client_sources.specs.Limits.{no_limits};
ghost use Rattle.relay_config.specs.Entries.{sockets_entry};
ghost use Rattle.relay_config.specs.declared.rule.TheConstants.{DEFAULT_RESOLVE_MS};
ghost use Rattle.relay_settings.specs.Targets.{first_at, own_target, plain_sockets};
ghost use Rattle.target_pick.specs.declared.picking.Balance.TheVariants.{RoundRobin};

use arrayvec::ArrayString;
use base_types::OutOfMemory;
use client_nets::Net;
use client_sources::Limits;
use config_values::MAX_NAME_BYTES;
use relay_admin::{Addr, Rule};
use relay_config::{Access, Checks, DEFAULT_RESOLVE_MS, Sockets, Version};
use relay_core::PairLimit;
use std::alloc::Global;
use target_pick::Balance;

/// The most targets of a rule.
pub const MAX_TARGETS: usize = relay_config::MAX_TARGETS;

/// Sockets of which nothing is said.
pub const PLAIN_SOCKETS: Sockets = Sockets {
    keepalive_ms: None,
    user_timeout_ms: None,
    backlog: None,
    source: None,
    mode: None,
};

/// A target of a rule.
#[derive(Clone, Copy, Debug, PartialEq, Eq, Drop)]
pub struct Target {
    pub at: Addr,
    /// How many turns it has, of all targets' together. With 0 it gets nobody.
    pub weight: u16,
    /// It gets clients only where no other target may take them.
    pub is_backup: bool,
}

/// The name of a host.
pub type HostName = ArrayString<MAX_NAME_BYTES>;

/// A target of a rule that names its host.
#[derive(Clone, Copy, Debug, PartialEq, Eq, Drop)]
pub struct Named {
    /// Its place among the rule's targets. Until its host's name was looked up, that target is at the
    /// address 0.0.0.0 with its port, and its weight is 0.
    pub place: usize,
    pub host: HostName,
    pub port: u16,
    /// How many turns each address of the host has. With 0 it gets nobody.
    pub weight: u16,
    pub is_backup: bool,
}

/// A rule, where it listens, how many connections of it stand at once, how many clients of one source are let
/// in, how its sockets are set up, its targets, the names of their hosts, how they are checked and what they
/// are told of a client, who may connect, and who begins with a header.
#[derive(Drop)]
pub struct SaidRule {
    /// Its own address is the first one, and so is its own target.
    pub rule: Rule,
    /// Where it listens: one address at least, in the order of the file.
    pub listens: Vec<Addr>,
    /// How many connections of it stand at once; without it as many as of each rule.
    pub limit: Option<PairLimit>,
    /// How many clients of one source are let in.
    pub source_limits: Limits,
    /// How the sockets of its listeners, of its clients and to its targets are set up.
    pub sockets: Sockets,
    /// By what a client's is picked.
    pub balance: Balance,
    /// The networks whose clients are let in, and those whose aren't.
    pub access: Access,
    /// How its targets are checked; without checks all are up.
    pub checks: Option<Checks>,
    /// The networks whose clients begin with a header of the PROXY protocol.
    pub senders: Vec<Net>,
    /// With which header of the PROXY protocol a connection to a target begins, if with one.
    pub header: Option<Version>,
    /// 1 to 64, in the order of the file.
    pub targets: Vec<Target>,
    /// Those of them that name their hosts, in the same order.
    pub names: Vec<Named>,
    /// After how many milliseconds such a name is looked up again; without a number it isn't.
    pub resolve_ms: Option<u32>,
    ghost own: { slice_get listens.items 0 ≡ Some rule.listen },
    ghost some: { 0 < length targets.items },
    ghost first: { first_at targets.items ≡ Some rule.target },
    ghost few: { length targets.items ≤ 64 },
}

// The target of a rule that names one alone.
fn own_target(rule: &Rule) -> Target
    ensures { result ≡ own_target rule.now }
{
    Target {
        at: rule.target,
        weight: 1,
        is_backup: false,
    }
}

impl SaidRule {
    /// A rule at its own address alone, without limits of its own and with plain sockets, whose own
    /// target is its only one, names no host, isn't checked and is sent no header, and which lets all clients
    /// in and awaits a header of none, as a rules file says it.
    pub fn alone(alloc: Global, rule: Rule) -> Result<SaidRule, OutOfMemory>
        ensures rule { IfOk result (λ said. said.rule ≡ rule) }
        ensures listens { IfOk result (λ said. said.listens.items ≡ rule.listen ∷ []) }
        ensures limit { IfOk result (λ said. said.limit ≡ None) }
        ensures source_limits { IfOk result (λ said. said.source_limits ≡ no_limits) }
        ensures sockets { IfOk result (λ said. sockets_entry said.sockets ≡ plain_sockets) }
        ensures balance { IfOk result (λ said. said.balance ≡ RoundRobin) }
        ensures allow { IfOk result (λ said. said.access.allow.items ≡ []) }
        ensures deny { IfOk result (λ said. said.access.deny.items ≡ []) }
        ensures checks { IfOk result (λ said. said.checks ≡ None) }
        ensures senders { IfOk result (λ said. said.senders.items ≡ []) }
        ensures header { IfOk result (λ said. said.header ≡ None) }
        ensures targets { IfOk result (λ said. said.targets.items ≡ own_target rule ∷ []) }
        ensures names { IfOk result (λ said. said.names.items ≡ []) }
        ensures resolve { IfOk result (λ said. said.resolve_ms ≡ Some DEFAULT_RESOLVE_MS) }
    {
        let mut listens = Vec::new(alloc);
        listens.push(rule.listen)?;
        let mut targets = Vec::new(alloc);
        targets.push(own_target(&rule))?;
        Ok(SaidRule {
            rule,
            listens,
            limit: None,
            source_limits: Limits::none(),
            sockets: PLAIN_SOCKETS,
            balance: Balance::RoundRobin,
            access: Access {
                allow: Vec::new(alloc),
                deny: Vec::new(alloc),
            },
            checks: None,
            senders: Vec::new(alloc),
            header: None,
            targets,
            names: Vec::new(alloc),
            resolve_ms: Some(DEFAULT_RESOLVE_MS as u32),
        })
    }

    /// Whether its own target is its only one, and gets clients as any other would.
    pub fn is_alone(&self) -> bool
        ensures { IsTrue result ↔ (self.now.targets.items ≡ own_target self.now.rule ∷ []) }
    {
        match self.targets.as_slice() {
            [only] => only.weight == 1 && !only.is_backup,
            _ => false,
        }
    }

    /// Whether it listens at its own address alone.
    pub fn has_one_listener(&self) -> bool
        ensures { IsTrue result ↔ (self.now.listens.items ≡ self.now.rule.listen ∷ []) }
    {
        match self.listens.as_slice() {
            [_] => true,
            _ => false,
        }
    }

    /// Whether nothing is said of its sockets.
    pub fn has_plain_sockets(&self) -> bool
        ensures { IsTrue result ↔ (sockets_entry self.now.sockets ≡ plain_sockets) }
    {
        let sockets = &self.sockets;
        sockets.keepalive_ms.is_none()
            && sockets.user_timeout_ms.is_none()
            && sockets.backlog.is_none()
            && sockets.source.is_none()
            && sockets.mode.is_none()
    }

    /// Whether its lists have no network, so that it lets all clients in.
    pub fn has_no_lists(&self) -> bool
        ensures { IsTrue result
            ↔ (self.now.access.allow.items ≡ []) × (self.now.access.deny.items ≡ []) }
    {
        self.access.allow.is_empty() && self.access.deny.is_empty()
    }

    /// Whether none of its targets names its host.
    pub fn has_no_names(&self) -> bool
        ensures { IsTrue result ↔ (self.now.names.items ≡ []) }
    {
        self.names.is_empty()
    }

    /// Whether it awaits a header of no client.
    pub fn has_no_senders(&self) -> bool
        ensures { IsTrue result ↔ (self.now.senders.items ≡ []) }
    {
        self.senders.is_empty()
    }
}
