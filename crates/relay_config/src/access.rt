//! Who may connect to a rule.

ghost use Rattle.toml.specs.View.{table_view};
ghost use Rattle.relay_config.specs.Access.{access_in};
ghost use Rattle.relay_config.specs.Entries.{access_entry};
ghost use Rattle.relay_config.specs.Fault.{Answers};

use crate::fault::{Fault, Key, Place};
use crate::nets::nets_of;
use client_nets::Net;
use std::alloc::Global;
use toml::Table;

/// Who may connect to a rule, as `client_nets::admits` has it.
#[derive(Drop)]
pub struct Access {
    /// The networks whose clients are let in, at most 256; without any those of all are.
    pub allow: Vec<Net>,
    /// The networks whose clients are not, at most 256, whatever `allow` has.
    pub deny: Vec<Net>,
}

/// Who may connect to the rule at a place.
#[tactic(auto, unfolding(crate::specs::Access::access_in))]
pub(crate) fn access_of(alloc: Global, place: Place, table: &Table) -> Result<Access, Fault>
    ensures { Answers access_entry result (access_in place (table_view table.now)) }
{
    let allow = nets_of(alloc, table, place, Key::Allow)?;
    let deny = nets_of(alloc, table, place, Key::Deny)?;
    Ok(Access { allow, deny })
}
