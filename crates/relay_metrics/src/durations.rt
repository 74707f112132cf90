//! How long what was done took: counts by the places of bounds, and the sum. A duration has the first
//! place whose bound is at least as long; what is longer than each bound has the place behind them.

ghost use Rattle.std.specs.Prelude.{◌≡◌, ◌≤◌, ℕ, length};
ghost use Rattle.relay_metrics.specs.Durations as spec;

/// How many bounds there are for connects, and how many places.
pub const CONNECT_BOUNDS: usize = 12;

pub const CONNECT_PLACES: usize = CONNECT_BOUNDS + 1;

/// The bounds of connects, in milliseconds.
pub const CONNECT_BOUNDS_MS: [u64; CONNECT_BOUNDS] = [
    1, 2, 5, 10, 20, 50, 100, 200, 500, 1_000, 2_000, 5_000,
];

/// The same for how long connections stand.
pub const STANDING_BOUNDS: usize = 8;

pub const STANDING_PLACES: usize = STANDING_BOUNDS + 1;

/// The bounds of that, in milliseconds.
pub const STANDING_BOUNDS_MS: [u64; STANDING_BOUNDS] = [
    100, 1_000, 10_000, 60_000, 600_000, 3_600_000, 36_000_000, 86_400_000,
];

/// What is known of durations.
#[derive(Clone, Copy, Debug, PartialEq, Eq, Drop)]
pub struct Durations<const PLACES: usize> {
    /// How many have each place.
    pub counts: [u64; PLACES],
    /// The sum, in microseconds.
    pub sum_us: u64,
}

const NS_OF_MS: u64 = 1_000_000;

// Whether so many nanoseconds are no longer than a bound.
fn is_within(ns: u64, bound_ms: u64) -> bool
    ensures { result ≡ spec.is_within ns bound_ms }
{
    ns <= bound_ms.saturating_mul(NS_OF_MS)
}

/// The place of a duration of so many nanoseconds among these bounds.
pub fn bound_place(bounds_ms: &[u64], ns: u64) -> usize
    ensures first { result ≡ spec.bound_place bounds_ms.now ns }
    ensures within { result ≤ length bounds_ms.now }
{
    for place in 0..bounds_ms.len() {
        if is_within(ns, bounds_ms[place]) {
            return place;
        }
    }
    bounds_ms.len()
}

/// How many durations have one of the first so many places; past the greatest `u64` it stays that.
pub(crate) fn up_to(counts: &[u64], places: usize) -> u64
    ensures so_many { result ≡ spec.up_to counts.now places }
    ensures rises { (fewer : ℕ) → fewer ≤ places → spec.up_to counts.now fewer ≤ result }
{
    let mut sum = 0u64;
    for place in 0..places.min(counts.len()) {
        sum = sum.saturating_add(counts[place]);
    }
    sum
}
