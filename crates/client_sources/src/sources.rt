//! A table of sources: how many connections of each stand, and how many of its clients were let in.
//!
//! It has 16,384 places, in groups of 16, and takes its memory when it is made: no flood makes it larger.
//! A source has at most one place, in its own group. It gets one by its first client that is let in: one
//! that is free, or whose source nobody needs to know any more. If the group has none, the client is let
//! in without a place, and isn't counted: else others, who hold those 16 places, would keep it out.

ghost use Rattle.std.specs.Prelude.{◌≡◌, ◌↔◌, Err, IfOk, IfSome, IfNone, OnErr};
ghost use Rattle.client_sources.specs.Sources as spec;
ghost use Rattle.client_sources.specs.Sources.{AreFewer, HasNoPlace, IsCountedAt, HasNoSource, IsSourceFull};
ghost use Rattle.client_sources.specs.Sources.{HasFullGroup, IsOverRate, IsTable, IsVacantFor, LacksSource};
ghost use Rattle.client_sources.specs.Sources.{IsPlaceFor, MayStandAt, NeverMore, StandsAt};
ghost use Rattle.client_sources.specs.declared.limits.Refusal.{Refusal};

use crate::entry::{Entry, has_source, is_vacant};
use crate::limits::{Limits, Refusal};
use crate::source::{GROUP_PLACES, GROUPS, Source};
use base_types::OutOfMemory;
use std::alloc::Global;
use std::marker::Model;

/// The places of a table.
pub const PLACES: usize = GROUPS * GROUP_PLACES;

/// How many connections of each source stand, and how many of its clients were let in.
#[derive(Drop)]
pub struct Sources {
    places: Vec<Option<Entry>>,
}

impl Model for Sources {
    ghost use Rattle.std.specs.Prelude.{List, Option};
    ghost use Rattle.client_sources.specs.Sources.{IsTable};
    ghost use Rattle.client_sources.specs.declared.entry.Entry.{Entry};

    ghost Value = { List (Option Entry) };

    ghost view = { λ sources. sources.places.items };

    ghost invariant = { λ sources. IsTable sources.places.items };
}

impl Sources {
    /// A table of no source.
    pub fn new(alloc: Global) -> Result<Sources, OutOfMemory>
        ensures { IfOk result HasNoSource }
    {
        let mut places = Vec::with_capacity(alloc, PLACES)?;
        places.resize(PLACES, None)?;
        Ok(Sources { places })
    }

    // What is known at this place.
    fn entry(&self, place: usize) -> Option<Entry>
        ensures value { result ≡ spec.entry_in place self.now }
        ensures table { IsTable self.now }
    {
        match self.places.get(place) {
            Some(Some(entry)) => Some(*entry),
            _ => None,
        }
    }

    // The place of a source, if it has one.
    fn place_of(&self, source: Source) -> Option<usize>
        ensures there { IfSome result (λ place. StandsAt source place self.now) }
        ensures none { IfNone result (LacksSource source self.now) }
        ensures table { IsTable self.now }
    {
        let places = self.places.as_slice();
        let first = source.first_place();
        for place in first..first + GROUP_PLACES {
            if let Some(held) = places.get(place) {
                if has_source(held, source) {
                    return Some(place);
                }
            }
        }
        None
    }

    // What is known of a source that has this place, or none.
    fn known(&self, own: Option<usize>, source: Source, now: u64) -> Entry
        ensures { result ≡ spec.known_at own source now self.now }
    {
        match own {
            Some(place) => self.known_in(place, source, now),
            None => Entry::new(source, now),
        }
    }

    // What is known at this place, or else of a new source.
    fn known_in(&self, place: usize, source: Source, now: u64) -> Entry
        ensures { result ≡ spec.known_or source now (spec.entry_in place self.now) }
    {
        match self.entry(place) {
            Some(entry) => entry,
            None => Entry::new(source, now),
        }
    }

    // The first place of its group that another source may have.
    fn vacant_for(&self, source: Source, limits: &Limits, now: u64) -> Option<usize>
        ensures there { IfSome result (λ place.
            IsVacantFor source limits.now now place self.now) }
        ensures none { IfNone result (HasFullGroup source limits.now now self.now) }
    {
        let places = self.places.as_slice();
        let first = source.first_place();
        for place in first..first + GROUP_PLACES {
            if let Some(held) = places.get(place) {
                if is_vacant(held, limits, now) {
                    return Some(place);
                }
            }
        }
        None
    }

    // The place for a client of a source that has this one, or none.
    fn place_for(
        &self,
        own: Option<usize>,
        source: Source,
        limits: &Limits,
        now: u64,
    ) -> Option<usize>
        ensures { IsPlaceFor source limits.now now self.now own result }
    {
        match own {
            Some(place) => Some(place),
            None => self.vacant_for(source, limits, now),
        }
    }

    /// Lets a client of this source in, at this moment, and says at which place its source counts it; or
    /// says why it doesn't. In a full group it lets a client in without a place, who isn't counted.
    pub fn admit(
        &mut self,
        source: Source,
        limits: &Limits,
        now: u64,
    ) -> Result<Option<usize>, Refusal>
        ensures counted { IfOk result (λ seat. IfSome seat
            (IsCountedAt source limits.now now self.old self.new)) }
        ensures uncounted { IfOk result (λ seat. IfNone seat
            (HasNoPlace source limits.now now self.old × (self.new ≡ self.old))) }
        ensures full { result ≡ Err Refusal.Full ↔ IsSourceFull source limits.now self.old }
        ensures rate { result ≡ Err Refusal.Rate ↔ IsOverRate source limits.now now self.old }
        ensures refused { OnErr result (self.new ≡ self.old) }
        ensures never_more { NeverMore limits.now self.old self.new }
    {
        let own = self.place_of(source);
        let entry = self.known(own, source, now).admitted(limits, now)?;
        let place = self.place_for(own, source, limits, now);
        self.put(place, entry);
        Ok(place)
    }

    // Has this be known at this place, if there is one.
    fn put(&mut self, place: Option<usize>, entry: Entry)
        requires may { MayStandAt place entry.source self.old }
        ensures { self.new ≡ spec.put_at place entry self.old }
    {
        if let Some(place) = place {
            if let Some(held) = self.places.get_mut(place) {
                *held = Some(entry);
            }
        }
    }

    /// So many connections that this place counted don't stand any more.
    pub fn leave(&mut self, place: usize, count: u32)
        ensures left { self.new ≡ spec.ended_at place count self.old }
        ensures fewer { AreFewer self.old self.new }
    {
        if let Some(entry) = self.entry(place) {
            self.put(Some(place), entry.left(count));
        }
    }
}
