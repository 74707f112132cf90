//! What a table knows of one source.

ghost use Rattle.std.specs.Prelude.{◌≡◌};
ghost use Rattle.client_sources.specs.Entry as spec;

use crate::limits::{Limits, Refusal};
use crate::source::{Source, is_same};

/// What a table knows of one source.
#[derive(Clone, Copy, Debug, PartialEq, Eq, Drop)]
pub(crate) struct Entry {
    pub(crate) source: Source,
    /// How many connections of it stand.
    pub(crate) standing: u32,
    /// How many of its clients were let in since this moment, in nanoseconds of some clock.
    pub(crate) let_in: u32,
    pub(crate) since: u64,
}

impl Entry {
    /// One of a source of which nobody was let in.
    pub(crate) fn new(source: Source, now: u64) -> Entry
        ensures { result ≡ spec.new_entry source now }
    {
        Entry {
            source,
            standing: 0,
            let_in: 0,
            since: now,
        }
    }

    // Whether the time of those that were let in is over.
    fn is_over(&self, limits: &Limits, now: u64) -> bool
        ensures { result ≡ spec.is_time_over limits.now now self.now }
    {
        limits.period() <= now.saturating_sub(self.since)
    }

    /// Whether nobody needs it any more: nobody of its source stands, and the time is over.
    pub(crate) fn is_idle(&self, limits: &Limits, now: u64) -> bool
        ensures { result ≡ spec.is_idle limits.now now self.now }
    {
        self.standing == 0 && self.is_over(limits, now)
    }

    // The same where a time that is over counts no more.
    fn at(self, limits: &Limits, now: u64) -> Entry
        ensures value { result ≡ spec.entry_at limits.now now self }
        ensures standing { result.standing ≡ self.standing }
        ensures let_in { result.let_in ≡ spec.let_in_at limits.now now self }
    {
        if self.is_over(limits, now) {
            Entry {
                let_in: 0,
                since: now,
                ..self
            }
        } else {
            self
        }
    }

    // How many were let in in the time that runs.
    fn let_in_at(&self, limits: &Limits, now: u64) -> u32
        ensures { result ≡ spec.let_in_at limits.now now self.now }
    {
        if self.is_over(limits, now) {
            0
        } else {
            self.let_in
        }
    }

    /// The same with one client more, who was let in at this moment; or why none is let in.
    pub(crate) fn admitted(self, limits: &Limits, now: u64) -> Result<Entry, Refusal>
        ensures { result ≡ spec.admission limits.now now self }
    {
        if self.standing >= limits.most_standing() {
            return Err(Refusal::Full);
        }
        if self.let_in_at(limits, now) >= limits.most_let_in() {
            return Err(Refusal::Rate);
        }
        let entry = self.at(limits, now);
        Ok(Entry {
            standing: entry.standing + 1,
            let_in: entry.let_in + 1,
            ..entry
        })
    }

    /// The same where so many of those that stood don't any more.
    pub(crate) fn left(self, count: u32) -> Entry
        ensures { result ≡ spec.entry_left count self }
    {
        Entry {
            standing: self.standing.saturating_sub(count),
            ..self
        }
    }
}

/// Whether a place has this source.
pub(crate) fn has_source(place: &Option<Entry>, source: Source) -> bool
    ensures { result ≡ spec.has_source source place.now }
{
    match place {
        Some(entry) => is_same(entry.source, source),
        None => false,
    }
}

/// Whether another source may have a place: it is free, or its entry is idle.
pub(crate) fn is_vacant(place: &Option<Entry>, limits: &Limits, now: u64) -> bool
    ensures { result ≡ spec.is_vacant limits.now now place.now }
{
    match place {
        Some(entry) => entry.is_idle(limits, now),
        None => true,
    }
}
