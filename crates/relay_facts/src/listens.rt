//! The addresses at which a rule listens. Its own is the first, by which its account is found.

ghost use Rattle.std.specs.Prelude.{◌≡◌, IfOk, length, option_map};
ghost use Rattle.std.specs.Arc.{arc_value};
ghost use Rattle.relay_facts.specs.Listens.{listens_in, listens_with};

use crate::served_rule::Said;
use base_types::OutOfMemory;
use relay_admin::Addr;
use relay_settings::SaidRule;
use std::alloc::Global;
use std::sync::Arc;

/// The addresses at which a rule listens, in the order of its configuration.
#[derive(Drop)]
pub struct Addresses {
    pub all: Vec<Addr>,
}

/// The list of a rule's addresses, in memory of its own, where it has more than its own.
pub(crate) fn addresses_of(
    alloc: Global,
    said: &SaidRule,
) -> Result<Option<Arc<Addresses>>, OutOfMemory>
    ensures { IfOk result (λ list.
        listens_with (option_map arc_value list) said.now.rule ≡ said.now.listens.items) }
{
    if said.has_one_listener() {
        return Ok(None);
    }
    let all = Vec::from_slice(alloc, said.listens.as_slice())?;
    let list = Arc::new(alloc, Addresses { all })?;
    Ok(Some(list))
}

impl Said {
    /// At how many addresses it listens.
    pub fn listener_count(&self) -> usize
        ensures { result ≡ length (listens_in self.now) }
    {
        match &self.listens {
            Some(list) => list.all.len(),
            None => 1,
        }
    }
}
