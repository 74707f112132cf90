//! What the names of hosts were looked up as.

ghost use Rattle.std.specs.Prelude.{◌≡◌, [], IfOk, OnErr, OnOk, option_copied};
ghost use Rattle.relay_facts.specs.HostAnswers as spec;
ghost use Rattle.relay_facts.specs.HostAnswers.{IsNoted, addresses_at, is_among, noted};

use base_types::OutOfMemory;
use relay_admin::{Addr, is_same_addr};
use relay_settings::HostName;
use std::alloc::Global;

/// A name that is looked up.
#[derive(Clone, Copy, Debug, PartialEq, Eq, Drop)]
pub struct WantedName {
    pub host: HostName,
    /// After how many milliseconds it is looked up again; without a number only until it was found.
    pub resolve_ms: Option<u32>,
}

/// What a host's name was looked up as.
#[derive(Drop)]
pub struct Answer {
    pub(crate) host: HostName,
    /// Its addresses, IPv4 or IPv6, with a port of 0. Of a host that was never found there are none.
    pub(crate) addresses: Vec<Addr>,
}

/// What the names of hosts were looked up as, each once.
#[derive(Drop)]
pub struct Answers {
    pub(crate) all: Vec<Answer>,
}

// Whether one of these names a host.
fn is_named(names: &[WantedName], host: &HostName) -> bool
    ensures { result ≡ spec.is_named names.now host.now.bytes }
{
    names.iter().any(|name| name.host.as_str() == host.as_str())
}

// Whether an address is one of these.
fn is_among(all: &[Addr], at: &Addr) -> bool
    ensures { result ≡ is_among at.now all.now }
{
    all.iter().any(|one| is_same_addr(one, at))
}

// Whether one of these isn't among those.
fn has_other(all: &[Addr], known: &[Addr]) -> bool
    ensures { result ≡ spec.has_other known.now all.now }
{
    all.iter().any(|one| !is_among(known, one))
}

// Those of the addresses that are among these.
fn staying(alloc: Global, known: &[Addr], found: &[Addr]) -> Result<Vec<Addr>, OutOfMemory>
    ensures { IfOk result (λ all. all.items ≡ spec.staying known.now found.now) }
{
    let mut all = Vec::from_slice(alloc, known)?;
    all.retain(|one| is_among(found, one));
    Ok(all)
}

// Those of the addresses that weren't known.
fn coming(alloc: Global, known: &[Addr], found: &[Addr]) -> Result<Vec<Addr>, OutOfMemory>
    ensures { IfOk result (λ all. all.items ≡ spec.coming known.now found.now) }
{
    let mut all = Vec::from_slice(alloc, found)?;
    all.retain(|one| !is_among(known, one));
    Ok(all)
}

// The addresses that a host has from now on, of which these were known and those were found. What stays
// keeps its place, so that a client's target does where it is picked by the client's address.
fn noted(alloc: Global, known: &[Addr], found: &[Addr]) -> Result<Vec<Addr>, OutOfMemory>
    ensures { IfOk result (λ all. all.items ≡ noted known.now found.now) }
{
    let [_, ..] = found else {
        return Ok(Vec::from_slice(alloc, known)?);
    };
    let mut all = staying(alloc, known, found)?;
    let new = coming(alloc, known, found)?;
    all.extend_from_slice(new.as_slice())?;
    Ok(all)
}

impl Answers {
    /// No name was looked up.
    pub fn none(alloc: Global) -> Answers
        ensures { result.all.items ≡ [] }
    {
        Answers {
            all: Vec::new(alloc),
        }
    }

    // What a host's name was looked up as, if it was.
    fn of(&self, host: &HostName) -> Option<&Answer>
        ensures { option_copied result ≡ spec.answer_about self.now.all.items host.now.bytes }
    {
        self.all
            .iter()
            .find(|one| one.host.as_str() == host.as_str())
    }

    /// The addresses of a host; none where it has no answer.
    pub(crate) fn addresses(&self, host: &HostName) -> &[Addr]
        ensures { result.now ≡ addresses_at self.now.all.items host.now.bytes }
    {
        match self.of(host) {
            Some(answer) => answer.addresses.as_slice(),
            None => &[],
        }
    }

    /// Whether a look-up that found these changes the addresses of a host.
    pub(crate) fn is_news(&self, host: &HostName, found: &[Addr]) -> bool
        ensures { result
            ≡ spec.is_news (addresses_at self.now.all.items host.now.bytes) found.now }
    {
        let known = self.addresses(host);
        match found {
            [] => false,
            found => has_other(found, known) || has_other(known, found),
        }
    }

    /// Notes what a look-up of a host found. One that found nothing leaves its addresses. Where memory is
    /// refused nothing changes.
    pub(crate) fn note(
        &mut self,
        alloc: Global,
        host: HostName,
        found: &[Addr],
    ) -> Result<(), OutOfMemory>
        ensures noted { OnOk result
            (IsNoted host.bytes found.now self.old.all.items self.new.all.items) }
        ensures kept { OnErr result (self.new.all.items ≡ self.old.all.items) }
    {
        let addresses = noted(alloc, self.addresses(&host), found)?;
        self.all.reserve(1)?;
        self.all.retain(|one| one.host.as_str() != host.as_str());
        // (its place was reserved)
        let Ok(()) = self.all.push(Answer { host, addresses }) else {
            unreachable!()
        };
        Ok(())
    }

    /// Forgets the hosts that none of these names.
    pub(crate) fn keep(&mut self, names: &[WantedName])
        ensures { self.new.all.items ≡ spec.of_names names.now self.old.all.items }
    {
        self.all.retain(|one| is_named(names, &one.host));
    }
}
