//! What stands under which id: connections and listeners, each entered by the thread that has it.
//! Nobody finds a handle here, so that what is found is asked for, and never done by who finds it.
//!
//! A connection has two ids, its client's and the next, its target's; a listener has one. One entry
//! stands for both ids of a connection, so that it is entered and left as one. Ids rise, and none is
//! given twice.

ghost use Rattle.std.specs.Prelude.{◌≡◌, ◌<◌, ◌↔◌, ◌+◌, ◌^◌, ◌++◌, ℕ, IfOk, OnOk, OnErr, IfSome, IfNone, []};
ghost use Rattle.std.specs.Prelude.{AllPairs, Contains};
ghost use Rattle.relay_shared.specs.declared.index.Standing.{Standing};
ghost use Rattle.relay_admin.specs.declared.admin.shown.ShownSide.{ShownSide};
ghost use Rattle.relay_shared.specs.Index.{EntersIndex, LeavesIndex, IsNamed, IsFoundAt, IsRegister};
ghost use Rattle.relay_shared.specs.Index.{NamesAnything, entered_id, gone_id, id_count, ids_from, ids_in};

use base_types::OutOfMemory;
use relay_admin::ShownSide;
use std::alloc::Global;
use std::collections::BTreeMap;
use std::marker::Model;

/// What stands.
#[derive(Clone, Copy, Debug, PartialEq, Eq, Drop)]
pub enum Standing<C, L> {
    Connection(C),
    Listener(L),
}

/// Connections and listeners by their ids. Contracts see the list of the entries, in the order in
/// which they were entered, and the next id.
#[derive(Drop)]
pub struct Index<C, L> {
    entries: BTreeMap<u64, Standing<C, L>>,
    next_id: u64,
}

impl<C, L> Model for Index<C, L> {
    ghost use Rattle.relay_shared.specs.Index.{Register, register_of, IsRegister};

    ghost Value = { Register C L };

    ghost view = { λ index. register_of index.entries.entries index.next_id };

    ghost invariant = { λ index. IsRegister (register_of index.entries.entries index.next_id) };
}

/// That something stands under this id from now on. It can't be dropped: who has entered something
/// keeps its id, by which it leaves, so that nothing stands of which nobody knows.
pub struct Entered {
    id: u64,
}

/// That what was entered under this id has left an index: nobody finds it any more. `leave` alone
/// makes it.
#[derive(Clone, Copy, Debug, PartialEq, Eq, Drop)]
pub struct Gone {
    id: u64,
}

impl Entered {
    /// The id, from which who keeps it has it leave.
    pub fn keep(self) -> u64
        ensures { result ≡ entered_id self }
    {
        let Entered { id } = self;
        id
    }
}

impl<C, L> Standing<C, L> {
    // How many ids it has.
    fn ids(&self) -> u64
        ensures { result ≡ id_count self.now }
    {
        match self {
            Standing::Connection(_) => 2,
            Standing::Listener(_) => 1,
        }
    }

    // As what it has its first id.
    fn first_side(&self) -> ShownSide
        ensures { IsFoundAt self.now result 0 }
    {
        match self {
            Standing::Connection(_) => ShownSide::Client,
            Standing::Listener(_) => ShownSide::Listener,
        }
    }
}

// Lists the ids of what was entered under this one; or says that memory was refused. (no id is past
// the last number)
fn list<C, L>(ids: &mut Vec<u64>, id: u64, standing: &Standing<C, L>) -> Result<(), OutOfMemory>
    ensures { OnOk result (ids.new.items ≡ ids.old.items ++ ids_from id standing.now) }
{
    ids.push(id)?;
    if let Standing::Connection(_) = standing {
        let Some(target) = id.checked_add(1) else {
            return Err(OutOfMemory);
        };
        ids.push(target)?;
    }
    Ok(())
}

impl<C, L> Index<C, L> {
    /// Nothing stands, and the first id is 1.
    pub fn new(alloc: Global) -> Index<C, L>
        ensures none { result.entries ≡ [] }
        ensures first { result.next_id ≡ 1 }
    {
        Index {
            entries: BTreeMap::new(alloc),
            next_id: 1,
        }
    }

    /// Enters what stands from now on. It is refused where memory is, or where no id is left; then
    /// nothing changes.
    pub fn enter(&mut self, standing: Standing<C, L>) -> Result<Entered, OutOfMemory>
    where
        C: Drop,
        L: Drop,
        ensures entered { IfOk result (λ entered.
            EntersIndex self.old self.new (entered_id entered) standing) }
        ensures fits { IfOk result (λ entered. entered_id entered + id_count standing < 2 ^ 64) }
        ensures kept { OnErr result (self.new ≡ self.old) }
    {
        let id = self.next_id;
        let Some(next) = id.checked_add(standing.ids()) else {
            return Err(OutOfMemory);
        };
        match self.entries.insert(id, standing) {
            Ok(_) => {
                self.next_id = next;
                Ok(Entered { id })
            }
            Err(_) => Err(OutOfMemory),
        }
    }

    /// Takes out what was entered under this id, if it stands. From then on nobody finds it.
    pub fn leave(&mut self, id: u64) -> Gone
    where
        C: Drop,
        L: Drop,
        ensures left { LeavesIndex self.old self.new id }
        ensures gone { gone_id result ≡ id }
    {
        let _ = self.entries.remove(&id);
        Gone { id }
    }

    /// What this id names, and as what, if it names anything.
    pub fn find(&self, id: u64) -> Option<(ShownSide, &Standing<C, L>)>
        ensures found { IfSome result (λ found. IsNamed self.now id found.0 found.1.now) }
        ensures none { IfNone result ((side : ShownSide) (standing : Standing C L)
            → IsNamed self.now id side standing → ⊥) }
    {
        if let Some(standing) = self.entries.get(&id) {
            return Some((standing.first_side(), standing));
        }
        let standing = self.entries.get(&id.checked_sub(1)?)?;
        match standing {
            Standing::Connection(_) => Some((ShownSide::Target, standing)),
            Standing::Listener(_) => None,
        }
    }

    /// All ids that name anything, each once, rising; or want of memory.
    pub fn ids(&self, alloc: Global) -> Result<Vec<u64>, OutOfMemory>
        ensures listed { IfOk result (λ ids. ids.items ≡ ids_in self.now.entries) }
        ensures rising { IfOk result (λ ids. AllPairs (λ id later. id < later) ids.items) }
        ensures named { IfOk result (λ ids. (id : ℕ) →
            (Contains ids.items id ↔ NamesAnything self.now id)) }
    {
        let ids = self.all_ids(alloc)?;
        Ok(ids)
    }

    // The ids of all entries, and what holds of them in every index.
    fn all_ids(&self, alloc: Global) -> Result<Vec<u64>, OutOfMemory>
        ensures listed { IfOk result (λ ids. ids.items ≡ ids_in self.now.entries) }
        ensures register { IsRegister self.now }
    {
        let mut ids = Vec::new(alloc);
        for (id, standing) in self.entries.iter() {
            list(&mut ids, *id, standing)?;
        }
        Ok(ids)
    }
}
