//! Which names of hosts are looked up, when, and what they were looked up as.

ghost use Rattle.std.specs.Prelude.{◌≡◌, [], true, false, OnOk, OnErr, option_map};
ghost use Rattle.relay_facts.specs.HostAnswers.{IsNoted, addresses_at, is_news, of_names};
ghost use Rattle.relay_facts.specs.HostNames as spec;

use crate::host_answers::{Answers, WantedName};
use base_types::OutOfMemory;
use relay_admin::Addr;
use relay_core::pause_end;
use relay_settings::HostName;
use std::alloc::Global;

/// After how many milliseconds a name whose look-up failed is looked up again, unless that is to be sooner.
pub const RETRY_MS: u32 = 5_000;

/// A name that is looked up, and when.
#[derive(Clone, Copy, Debug, PartialEq, Eq, Drop)]
pub(crate) struct DueName {
    name: WantedName,
    /// The moment of its next look-up, if there is to be one, in nanoseconds of the relay's clock.
    at: Option<u64>,
    /// Whether the last one found nothing.
    has_failed: bool,
}

/// The names that are looked up, and what they were looked up as.
#[derive(Drop)]
pub struct HostNames {
    pub(crate) wanted: Vec<DueName>,
    pub answers: Answers,
}

/// What came of a look-up.
#[derive(Clone, Copy, Debug, PartialEq, Eq, Drop)]
pub struct Noted {
    /// Whether the host has other addresses now.
    pub is_news: bool,
    /// Whether nothing was found, or memory was refused for it.
    pub has_failed: bool,
    /// Whether it is the first that failed in a row, or the first behind such ones that didn't.
    pub has_turned: bool,
}

// When a name is looked up again that was at this moment.
fn due_behind(now: u64, has_failed: bool, resolve_ms: Option<u32>) -> Option<u64>
    ensures { result ≡ spec.due_behind now has_failed resolve_ms }
{
    let wait_ms = match (has_failed, resolve_ms) {
        (true, Some(ms)) => ms.min(RETRY_MS),
        (true, None) => RETRY_MS,
        (false, Some(ms)) => ms,
        (false, None) => return None,
    };
    Some(pause_end(now, u64::from(wait_ms)))
}

impl DueName {
    // Whether it is to be looked up by this moment.
    fn is_due(&self, now: u64) -> bool
        ensures { result ≡ spec.is_due now self.now }
    {
        match self.at {
            Some(at) => at <= now,
            None => false,
        }
    }

    // When it is to be looked up, if it is.
    fn moment(&self) -> u64
        ensures { result ≡ spec.moment self.now }
    {
        self.at.unwrap_or(0)
    }

    // It was looked up at this moment. Says whether that turned out otherwise than before.
    fn note(&mut self, has_failed: bool, now: u64) -> bool
        ensures noted { self.new ≡ record self.old {
          at = spec.due_behind now has_failed self.old.name.resolve_ms;
          has_failed = has_failed;
        } }
    {
        let has_turned = self.has_failed != has_failed;
        self.has_failed = has_failed;
        self.at = due_behind(now, has_failed, self.name.resolve_ms);
        has_turned
    }
}

// Of a name that is due by this moment, if there is one, and a further name the one that has been due for
// longer.
fn sooner(now: u64, first: Option<DueName>, other: DueName) -> Option<DueName>
    ensures { result ≡ spec.sooner now first other }
{
    if !other.is_due(now) {
        return first;
    }
    match first {
        Some(due) if due.moment() <= other.moment() => Some(due),
        _ => Some(other),
    }
}

impl HostNames {
    /// No name is looked up.
    pub fn none(alloc: Global) -> HostNames
        ensures wanted { spec.wanted_in result ≡ [] }
        ensures answers { result.answers.all.items ≡ [] }
    {
        HostNames {
            wanted: Vec::new(alloc),
            answers: Answers::none(alloc),
        }
    }

    /// From now on these are looked up, each at once. What other hosts were looked up as is forgotten.
    /// Where memory is refused nothing changes.
    pub fn want(&mut self, alloc: Global, names: &[WantedName]) -> Result<(), OutOfMemory>
        ensures wanted { OnOk result (spec.wanted_in self.new ≡ names.now) }
        ensures answers { OnOk result (self.new.answers.all.items
            ≡ of_names names.now self.old.answers.all.items) }
        ensures kept { OnErr result (self.new ≡ self.old) }
    {
        let mut wanted = Vec::new(alloc);
        for name in names {
            wanted.push(DueName {
                name: *name,
                at: Some(0),
                has_failed: false,
            })?;
        }
        self.wanted = wanted;
        self.answers.keep(names);
        Ok(())
    }

    /// Whether a name is looked up at all.
    pub fn has_some(&self) -> bool
        ensures { result ≡ spec.has_some (spec.wanted_in self.now) }
    {
        match self.wanted.as_slice() {
            [] => false,
            _ => true,
        }
    }

    /// The host of the name that is to be looked up by this moment and has been for longest, so that slow
    /// look-ups keep none waiting for good.
    pub fn next(&self, now: u64) -> Option<HostName>
        ensures { option_map (λ host. host.bytes) result ≡ spec.next_in self.now now }
    {
        let mut first = None;
        for due in self.wanted.iter() {
            first = sooner(now, first, *due);
        }
        match first {
            Some(due) => Some(due.name.host),
            None => None,
        }
    }

    /// Notes that a host was looked up at this moment, and what was found. Where memory is refused its
    /// addresses stay, and it is looked up again as after a failure.
    pub fn note(&mut self, alloc: Global, host: HostName, found: &[Addr], now: u64) -> Noted
        ensures news { result.is_news ≡ true → (is_news
            (addresses_at self.old.answers.all.items host.bytes) found.now ≡ true)
            × IsNoted host.bytes found.now self.old.answers.all.items self.new.answers.all.items }
        ensures failed { result.has_failed ≡ false → IsNoted host.bytes found.now
            self.old.answers.all.items self.new.answers.all.items }
    {
        let is_news = self.answers.is_news(&host, found);
        match self.answers.note(alloc, host, found) {
            Ok(()) => self.noted(&host, is_news, found.is_empty(), now),
            Err(_) => self.noted(&host, false, true, now),
        }
    }

    fn noted(&mut self, host: &HostName, is_news: bool, has_failed: bool, now: u64) -> Noted
        ensures news { result.is_news ≡ is_news }
        ensures failed { result.has_failed ≡ has_failed }
        ensures answers { self.new.answers ≡ self.old.answers }
    {
        Noted {
            is_news,
            has_failed,
            has_turned: self.note_due(host, has_failed, now),
        }
    }

    // Notes when a host is looked up next.
    fn note_due(&mut self, host: &HostName, has_failed: bool, now: u64) -> bool
        ensures { self.new.answers ≡ self.old.answers }
    {
        let mut has_turned = false;
        for place in 0..self.wanted.len() {
            if let Some(due) = self.wanted.get_mut(place) {
                if due.name.host.as_str() == host.as_str() {
                    has_turned = due.note(has_failed, now) || has_turned;
                }
            }
        }
        has_turned
    }
}
