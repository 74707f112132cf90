//! The table: entries by rising id, at most 4,096 of them, each with a key of its own.
//!
//! The entries stand in a slab, and an index leads from an id to its place there. The keys are the
//! table's own, those below 4,096: of a slab's places no clause says how high they go. A key may be
//! that of a later entry than the one that is asked for, so an entry counts only if its token is
//! the one asked for. The index is ordered, so it tells the ids in their order.

ghost use Rattle.std.specs.Prelude.{◌≡◌, ◌≢◌, ◌<◌, ◌≤◌, [], Err};
ghost use Rattle.std.specs.Prelude.{IfOk, OnOk, IfErr, OnErr, option_copied};
ghost use Rattle.conntable.specs.ConnTable.{Inserts, Removes, HasNoId, IsConsistent, next_token};
ghost use Rattle.conntable.specs.ConnTable.{entry_with_token, value_with_token, value_with_id};
ghost use Rattle.conntable.specs.ConnTable.{entry_with_id, id_with_token};
ghost use Rattle.conntable.specs.ConnTable.{ids_of, first_id_of};
ghost use Rattle.conntable.specs.Refusals.{HasRoom, Refuses, HasKeyForRoom};

use crate::token;
use slab::Slab;
use std::alloc::{Allocator, Global};
use std::collections::BTreeMap;
use std::marker::Model;

/// Why a call of a table is refused.
#[derive(Clone, Copy, Debug, PartialEq, Eq, Drop)]
pub enum Refusal {
    /// 4,096 entries stand in the table.
    Full,
    /// No entry has this id: it was never given, or its entry was removed.
    Unknown,
    /// Memory for an entry, or for a list of ids, was refused. Nothing changed.
    OutOfMemory,
    /// The last id was given.
    IdsSpent,
    /// There is room, and no key below 4,096 is free. No table answers it: where there is room, a
    /// key is free.
    NoKey,
}

/// A connection with the id and the token that its insert gave.
#[derive(Drop)]
pub struct Entry<T> {
    pub id: u64,
    pub token: u64,
    pub value: T,
}

/// Connections by id and by token.
///
/// Contracts see the list of entries in the order of their inserts, the next id and the next
/// key. Which free key is next is open: here it is that of the entry removed last, and no clause
/// says so.
#[derive(Drop)]
pub struct ConnTable<T, A: Allocator = Global> {
    slots: Slab<Entry<T>, A>,
    index: BTreeMap<u64, usize, A>,
    // The keys that came back. All others that were made are those of the entries.
    free: Vec<u64, A>,
    next_id: u64,
}

impl<T, A: Allocator> Model for ConnTable<T, A> {
    ghost use Rattle.std.specs.Prelude.{vec_capacity};
    ghost use Rattle.conntable.specs.ConnTable.{Table};
    ghost use Rattle.conntable.specs.Slots.{held, IsSound};

    ghost Value = { Table T };

    ghost view = { λ t. held t.slots t.index.entries t.free.items t.next_id };

    ghost invariant = { λ t.
        IsSound t.slots t.index.entries t.free.items (vec_capacity t.free) t.next_id };
}

impl<T, A: Allocator + Copy> ConnTable<T, A> {
    /// An empty table, whose first id is 1. It keeps the allocator for its entries.
    pub fn new(alloc: A) -> ConnTable<T, A>
        ensures empty { result.entries ≡ [] }
        ensures first { result.next_id ≡ 1 }
        ensures key { result.next_key < 4096 }
    {
        ConnTable::starting_at(alloc, 1)
    }

    /// An empty table whose first id is `first`, as a table that goes on where another ended.
    pub fn starting_at(alloc: A, first: u64) -> ConnTable<T, A>
        requires { 1 ≤ first }
        ensures empty { result.entries ≡ [] }
        ensures first { result.next_id ≡ first }
        ensures key { result.next_key < 4096 }
    {
        ConnTable {
            slots: Slab::new(alloc),
            index: BTreeMap::new(alloc),
            free: Vec::new(alloc),
            next_id: first,
        }
    }

    /// Adds an entry, and gives its id and its token: those that `vacant` gives before.
    /// It tests as `vacant` does, and asks for memory last; a refusal hands the value back.
    pub fn insert(&mut self, value: T) -> Result<(u64, u64), (T, Refusal)>
        ensures id { IfOk result (λ given. given.0 ≡ self.old.next_id) }
        ensures token { IfOk result (λ given. given.1 ≡ next_token self.old) }
        ensures added { IfOk result (λ given. Inserts self.old self.new given.0 given.1 value) }
        ensures room { OnOk result (HasRoom self.old) }
        ensures why { IfErr result (λ refused. Refuses self.old refused.1) }
        ensures keys { IfErr result (λ refused. refused.1 ≢ Refusal.NoKey) }
        ensures returned { IfErr result (λ refused. refused.0 ≡ value) }
        ensures kept { OnErr result (self.new ≡ self.old) }
    {
        let (id, token) = match self.vacant() {
            Ok(given) => given,
            Err(refusal) => return Err((value, refusal)),
        };
        // All other room is asked for first, that of the keys that come back among it: once the
        // index has the id, nothing can be refused, and no removal takes memory.
        let keys = self.index.len() + 1usize.saturating_sub(self.free.len());
        if self.slots.reserve(1).is_err() || self.free.reserve(keys).is_err() {
            return Err((value, Refusal::OutOfMemory));
        }
        match self.index.insert(id, self.slots.vacant_key()) {
            Ok(_) => {}
            Err(_) => return Err((value, Refusal::OutOfMemory)),
        }
        self.free.pop();
        self.slots.insert_reserved(Entry { id, token, value });
        self.next_id += 1;
        Ok((id, token))
    }
}

impl<T, A: Allocator> ConnTable<T, A> {
    // The free key that came back last, or else the first that was never made.
    fn next_key(&self) -> u64
        ensures key { result ≡ self.now.next_key }
        ensures keys { HasKeyForRoom self.now }
        ensures consistent { IsConsistent self.now }
    {
        match self.free.last() {
            Some(key) => *key,
            None => self.index.len() as u64,
        }
    }

    /// The id and the token that the next insert would give, if memory isn't refused.
    /// It tests `Full`, then `IdsSpent`. Then there is a key, so `NoKey` never comes.
    pub fn vacant(&self) -> Result<(u64, u64), Refusal>
        ensures id { IfOk result (λ given. given.0 ≡ self.now.next_id) }
        ensures token { IfOk result (λ given. given.1 ≡ next_token self.now) }
        ensures room { OnOk result (HasRoom self.now) }
        ensures why { IfErr result (λ refusal. Refuses self.now refusal) }
        ensures memory { result ≢ Err Refusal.OutOfMemory }
        ensures keys { result ≢ Err Refusal.NoKey }
        ensures free { HasKeyForRoom self.now }
        ensures consistent { IsConsistent self.now }
    {
        if self.index.len() as u64 >= token::KEYS {
            return Err(Refusal::Full);
        }
        if self.next_id > token::LAST_ID {
            return Err(Refusal::IdsSpent);
        }
        let key = self.next_key();
        Ok((self.next_id, token::join(key, self.next_id)))
    }

    // Where the index leads to.
    fn entry_by_id(&self, id: u64) -> Option<&Entry<T>>
        ensures { option_copied result ≡ entry_with_id id self.now.entries }
    {
        let place = *self.index.get(&id)?;
        self.slots.get(place)
    }

    // Where the id in the token leads to, if this has the token.
    #[cold]
    #[inline(never)]
    fn entry_elsewhere(&self, token: u64) -> Option<&Entry<T>>
        ensures { option_copied result ≡ entry_with_token token self.now.entries }
    {
        // For the proof: what holds of a table is known once a field was read.
        let _ = &self.slots;
        let entry = self.entry_by_id(token::id_in(token))?;
        if entry.token == token {
            Some(entry)
        } else {
            None
        }
    }

    // The slab gives places as this table gives keys, so an entry stands at the place that is its
    // key; but no clause of the slab says so.
    fn entry_by_token(&self, token: u64) -> Option<&Entry<T>>
        ensures { option_copied result ≡ entry_with_token token self.now.entries }
    {
        let entry = match self.slots.get(token::key_in(token) as usize) {
            Some(entry) if entry.token == token => entry,
            _ => self.entry_elsewhere(token)?,
        };
        Some(entry)
    }

    /// The value of the entry with this token, or `None`: a token whose entry was removed names
    /// nothing, also once another entry has its key.
    pub fn by_token(&self, token: u64) -> Option<&T>
        ensures { option_copied result ≡ value_with_token token self.now.entries }
    {
        match self.entry_by_token(token) {
            Some(entry) => Some(&entry.value),
            None => None,
        }
    }

    /// The id of the entry with this token, or `None`, as for `by_token`.
    pub fn id_by_token(&self, token: u64) -> Option<u64>
        ensures { result ≡ id_with_token token self.now.entries }
    {
        match self.entry_by_token(token) {
            Some(entry) => Some(entry.id),
            None => None,
        }
    }

    /// The value of the entry with this id, or `None`.
    pub fn by_id(&self, id: u64) -> Option<&T>
        ensures { option_copied result ≡ value_with_id id self.now.entries }
    {
        let entry = self.entry_by_id(id)?;
        Some(&entry.value)
    }

    /// Takes the entry of this id out, and gives its value. Its id never comes again.
    pub fn remove(&mut self, id: u64) -> Result<T, Refusal>
        ensures removed { IfOk result (λ value. Removes self.old self.new id value) }
        ensures only_unknown { IfErr result (λ refusal. refusal ≡ Refusal.Unknown) }
        ensures unknown { OnErr result (HasNoId id self.old.entries) }
        ensures kept { OnErr result (self.new ≡ self.old) }
    {
        let Some(place) = self.index.remove(&id) else {
            return Err(Refusal::Unknown);
        };
        let Entry {
            id: _,
            token,
            value,
        } = self.slots.remove(place);
        self.free.push_reserved(token::key_in(token));
        Ok(value)
    }

    /// The ids of all entries, rising. Its only refusal is `OutOfMemory`.
    pub fn ids<B: Allocator>(&self, alloc: B) -> Result<Vec<u64, B>, Refusal>
        ensures ids { IfOk result (λ ids. ids.items ≡ ids_of self.now.entries) }
        ensures memory { IfErr result (λ refusal. refusal ≡ Refusal.OutOfMemory) }
    {
        let mut ids = Vec::new(alloc);
        for id in self.index.keys() {
            if ids.push(*id).is_err() {
                return Err(Refusal::OutOfMemory);
            }
        }
        Ok(ids)
    }

    /// The least id in the table, or `None` where it is empty.
    pub fn first_id(&self) -> Option<u64>
        ensures { result ≡ first_id_of self.now.entries }
    {
        let (id, _) = self.index.first_key_value()?;
        Some(*id)
    }
}
