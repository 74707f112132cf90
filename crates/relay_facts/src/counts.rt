//! What is counted of a rule, for whoever watches the relay. No count is ever taken back, and none
//! decides anything. Each loop counts in a place of its own, so that loops don't wait for each
//! other; whoever asks adds them up.

ghost use Rattle.std.specs.Prelude.{◌≡◌, ◌-◌};

use crate::histogram::Histogram;
use base_types::OutOfMemory;
use relay_log::ended::{CAUSES, Cause, ENDS, Ended};
use relay_metrics::{
    CONNECT_BOUNDS_MS, CONNECT_PLACES, STANDING_BOUNDS_MS, STANDING_PLACES, bound_place,
};
use std::alloc::Global;
use std::array::from_fn;
use std::sync::atomic::{AtomicU64, Ordering};

/// A number that only rises.
#[derive(Drop)]
pub struct Counter {
    count: AtomicU64,
}

impl Counter {
    pub fn new() -> Counter {
        Counter {
            count: AtomicU64::new(0),
        }
    }

    pub fn add(&self, more: u64) {
        self.count.fetch_add(more, Ordering::SeqCst);
    }

    pub fn get(&self) -> u64 {
        self.count.load(Ordering::SeqCst)
    }
}

/// How connections ended, by the places of the ways to end.
#[derive(Drop)]
pub struct EndCounts {
    pub counts: [Counter; ENDS],
}

impl EndCounts {
    ghost use Rattle.relay_facts.specs.Counts as spec;

    fn new() -> EndCounts {
        EndCounts {
            counts: from_fn(|_| Counter::new()),
        }
    }

    // The count of this way to end. To a proof all counts are alike, so the clause says where in
    // memory this one lies.
    fn of(&self, how: Ended) -> &Counter
        ensures { result.ref_ptr ≡ spec.count_of how self.entry.ref_ptr }
    {
        &self.counts[how.place()]
    }

    fn sum(&self) -> u64 {
        let mut sum = 0u64;
        for count in &self.counts {
            sum = sum.saturating_add(count.get());
        }
        sum
    }
}

/// The clients whose targets weren't reached, as they came or later, by the places of the causes.
#[derive(Drop)]
pub struct CauseCounts {
    pub counts: [Counter; CAUSES],
}

impl CauseCounts {
    ghost use Rattle.relay_facts.specs.Counts as spec;

    fn new() -> CauseCounts {
        CauseCounts {
            counts: from_fn(|_| Counter::new()),
        }
    }

    // The count of this cause, told as in `EndCounts::of`.
    fn of(&self, cause: Cause) -> &Counter
        ensures { result.ref_ptr ≡ spec.cause_count_of cause self.entry.ref_ptr }
    {
        &self.counts[cause.place()]
    }

    // Counts the cause where this was for want of a target.
    fn note(&self, how: Ended) {
        if let Ended::NoTarget(cause) = how {
            self.of(cause).add(1);
        }
    }
}

// How many of those that began stand, where so many have ended.
fn standing_of(begun: u64, ended: u64) -> u64
    ensures { result ≡ begun - ended }
{
    begun.saturating_sub(ended)
}

/// What one loop counts of a rule.
#[derive(Drop)]
pub struct LoopCounts {
    /// The connections that were set up.
    begun: Counter,
    pub up: Counter,
    pub down: Counter,
    /// The connections that weren't, since there is no target, no memory, or no room at the system's
    /// poller; or since the client was to say who it is, and said nothing or no header, or named a source
    /// of which there were enough.
    pub no_target: Counter,
    pub no_memory: Counter,
    pub no_descriptors: Counter,
    pub no_header: Counter,
    pub bad_header: Counter,
    pub source_full: Counter,
    pub source_rate: Counter,
    pub ends: EndCounts,
    pub causes: CauseCounts,
    /// How long clients' connects to targets took that were made, and how long connections stood.
    pub(crate) connects: Histogram<CONNECT_PLACES>,
    pub(crate) stood: Histogram<STANDING_PLACES>,
}

impl LoopCounts {
    ghost use Rattle.relay_facts.specs.Counts as spec;

    fn new() -> LoopCounts {
        LoopCounts {
            begun: Counter::new(),
            up: Counter::new(),
            down: Counter::new(),
            no_target: Counter::new(),
            no_memory: Counter::new(),
            no_descriptors: Counter::new(),
            no_header: Counter::new(),
            bad_header: Counter::new(),
            source_full: Counter::new(),
            source_rate: Counter::new(),
            ends: EndCounts::new(),
            causes: CauseCounts::new(),
            connects: Histogram::new(),
            stood: Histogram::new(),
        }
    }

    /// A connection was set up.
    pub fn note_begin(&self) {
        self.begun.add(1);
    }

    /// A connection has ended so, which stood for so many nanoseconds.
    pub fn note_end(&self, how: Ended, ns: u64) {
        self.ends.of(how).add(1);
        self.causes.note(how);
        self.stood.note(bound_place(&STANDING_BOUNDS_MS, ns), ns);
    }

    /// A client's connect to a target was made, which took so many nanoseconds.
    pub(crate) fn note_connect(&self, ns: u64) {
        self.connects.note(bound_place(&CONNECT_BOUNDS_MS, ns), ns);
    }

    /// A client wasn't served, since there is no target, memory or the poller refused, its header is
    /// missing or bad, or there were enough of the source that it names.
    pub fn note_refused(&self, how: Ended) {
        self.refusals(how).add(1);
        self.causes.note(how);
    }

    // The count of the clients that weren't served so, told as in `EndCounts::of`.
    fn refusals(&self, how: Ended) -> &Counter
        ensures { result.ref_ptr ≡ spec.refusal_of how self.entry.ref_ptr }
    {
        match how {
            Ended::NoTarget(_) => &self.no_target,
            Ended::Descriptors => &self.no_descriptors,
            Ended::NoHeader => &self.no_header,
            Ended::BadHeader => &self.bad_header,
            Ended::SourceFull => &self.source_full,
            Ended::SourceRate => &self.source_rate,
            _ => &self.no_memory,
        }
    }

    /// How many connections stand. The ends are read first, so that none is counted that never
    /// began.
    pub(crate) fn standing(&self) -> u64 {
        let ended = self.ends.sum();
        standing_of(self.begun.get(), ended)
    }
}

/// What is counted of a rule.
#[derive(Drop)]
pub struct RuleCounts {
    /// The clients that were accepted, and of those the ones that were dropped, since as many
    /// connections stood as may, on the whole or of the rule, or memory was refused, or the rule's
    /// lists didn't let them in, or there were enough of their source.
    pub accepted: Counter,
    pub full: Counter,
    pub rule_full: Counter,
    pub no_memory: Counter,
    pub denied: Counter,
    pub source_full: Counter,
    pub source_rate: Counter,
    /// The rows of accepts that failed one after the other.
    pub accept_faults: Counter,
    pub(crate) by_loop: Vec<LoopCounts>,
}

impl RuleCounts {
    ghost use Rattle.std.specs.Prelude.{IfOk, option_copied};
    ghost use Rattle.relay_facts.specs.Counts as spec;

    /// Those of a rule of a relay with so many loops.
    pub(crate) fn new(alloc: Global, loops: usize) -> Result<RuleCounts, OutOfMemory>
        ensures { IfOk result (λ counts. spec.loops_of counts ≡ loops) }
    {
        let mut by_loop = Vec::new(alloc);
        for _ in 0..loops {
            by_loop.push(LoopCounts::new())?;
        }
        Ok(RuleCounts {
            accepted: Counter::new(),
            full: Counter::new(),
            rule_full: Counter::new(),
            no_memory: Counter::new(),
            denied: Counter::new(),
            source_full: Counter::new(),
            source_rate: Counter::new(),
            accept_faults: Counter::new(),
            by_loop,
        })
    }

    /// A client was dropped as it was accepted.
    pub fn note_dropped(&self, how: Ended) {
        self.drops(how).add(1);
    }

    // The count of the clients that were dropped so, told as in `EndCounts::of`.
    fn drops(&self, how: Ended) -> &Counter
        ensures { result.ref_ptr ≡ spec.drop_of how self.entry.ref_ptr }
    {
        match how {
            Ended::RuleFull => &self.rule_full,
            Ended::NoMemory => &self.no_memory,
            Ended::Denied => &self.denied,
            Ended::SourceFull => &self.source_full,
            Ended::SourceRate => &self.source_rate,
            _ => &self.full,
        }
    }

    /// The bytes that all connections of the rule have passed up and down.
    pub(crate) fn bytes(&self) -> (u64, u64) {
        let (mut up, mut down) = (0u64, 0u64);
        for counts in self.by_loop.iter() {
            up = up.saturating_add(counts.up.get());
            down = down.saturating_add(counts.down.get());
        }
        (up, down)
    }

    /// Those of each loop, by its place.
    pub(crate) fn loops(&self) -> &[LoopCounts]
        ensures { result.now ≡ self.now.by_loop.items }
    {
        self.by_loop.as_slice()
    }

    /// Those of the loop at this place.
    pub fn of_loop(&self, place: usize) -> Option<&LoopCounts>
        ensures { option_copied result ≡ spec.counts_of_loop place self.now }
    {
        self.by_loop.get(place)
    }
}
