//! How long what was done took, for whoever watches the relay: counts by the places of bounds, and the
//! sum. No lock is taken, as in `counts`.

ghost use Rattle.std.specs.Prelude.{◌≡◌, ◌↔◌, ◌<◌, ◌≤◌, IfSome, IsSome};

use crate::counts::Counter;
use crate::rule_figures::add_each;
use relay_metrics::Durations;
use std::array::from_fn;

/// Durations by their places, and their sum in microseconds.
#[derive(Drop)]
pub struct Histogram<const PLACES: usize> {
    counts: [Counter; PLACES],
    sum_us: Counter,
}

impl<const PLACES: usize> Histogram<PLACES> {
    ghost use Rattle.relay_facts.specs.Counts as spec;

    pub(crate) fn new() -> Histogram<PLACES> {
        Histogram {
            counts: from_fn(|_| Counter::new()),
            sum_us: Counter::new(),
        }
    }

    // The count at this place, told as in `EndCounts::of`.
    fn of(&self, place: usize) -> Option<&Counter>
        ensures there { IsSome result ↔ (place < PLACES) }
        ensures at { IfSome result (λ count.
            count.ref_ptr ≡ spec.count_behind place self.entry.ref_ptr) }
    {
        if place < PLACES {
            Some(&self.counts[place])
        } else {
            None
        }
    }

    /// One more took so many nanoseconds, which have this place.
    pub(crate) fn note(&self, place: usize, ns: u64) {
        if let Some(count) = self.of(place) {
            count.add(1);
        }
        self.sum_us.add(ns / 1_000);
    }

    /// Adds them to durations, place by place.
    pub(crate) fn add_to(&self, durations: &mut Durations<PLACES>)
        ensures counts { spec.NoneFalls durations.old.counts durations.new.counts }
        ensures sum { durations.old.sum_us ≤ durations.new.sum_us }
    {
        add_each(&mut durations.counts, &self.counts);
        let sum_us = durations.sum_us;
        durations.sum_us = sum_us.saturating_add(self.sum_us.get());
    }
}
