//! What the text says of durations: a histogram, as Prometheus has it. Each function puts it behind what
//! the vector holds.

ghost use Rattle.std.specs.Prelude.{◌≡◌, ◌++◌, OnOk, codes};
ghost use Rattle.relay_metrics.specs.Histogram.{bound_text, bucket_text, buckets_from, count_text};
ghost use Rattle.relay_metrics.specs.Histogram.{fraction_text, histogram_text, micros_text};
ghost use Rattle.relay_metrics.specs.Histogram.{part_text, sum_text};
ghost use Rattle.relay_metrics.specs.Sample.{label_text};
ghost use Rattle.relay_metrics.specs.Text.{connects_text, stood_text};

use crate::durations::{
    CONNECT_BOUNDS_MS, CONNECT_PLACES, Durations, STANDING_BOUNDS_MS, STANDING_PLACES, up_to,
};
use crate::family::Family;
use crate::sample::{digit, write_label, write_value};
use base_types::OutOfMemory;
use itoa::Buffer;
use std::alloc::Allocator;

// The digits of milliseconds behind the point of seconds, without zeros at their end.
#[tactic(auto, unfolding(crate::specs::Histogram::fraction_text))]
fn write_fraction<A: Allocator>(into: &mut Vec<u8, A>, ms: u64) -> Result<(), OutOfMemory>
    ensures { OnOk result (into.new.items ≡ into.old.items ++ fraction_text ms) }
{
    if ms % 1_000 == 0 {
        Ok(())
    } else if ms % 100 == 0 {
        into.extend_from_slice(&[b'.', digit(ms / 100)])
    } else if ms % 10 == 0 {
        into.extend_from_slice(&[b'.', digit(ms / 100), digit(ms / 10)])
    } else {
        into.extend_from_slice(&[b'.', digit(ms / 100), digit(ms / 10), digit(ms)])
    }
}

// A bound, in seconds.
#[tactic(auto, unfolding(crate::specs::Histogram::bound_text))]
fn write_bound<A: Allocator>(
    into: &mut Vec<u8, A>,
    bound_ms: Option<u64>,
) -> Result<(), OutOfMemory>
    ensures { OnOk result (into.new.items ≡ into.old.items ++ bound_text bound_ms) }
{
    let Some(ms) = bound_ms else {
        return into.extend_from_slice(b"+Inf");
    };
    let mut buffer = Buffer::new();
    into.extend_from_slice(buffer.format(ms / 1_000).as_bytes())?;
    write_fraction(into, ms)
}

// Microseconds as seconds.
#[tactic(auto, unfolding(crate::specs::Histogram::micros_text))]
fn write_micros<A: Allocator>(into: &mut Vec<u8, A>, us: u64) -> Result<(), OutOfMemory>
    ensures { OnOk result (into.new.items ≡ into.old.items ++ micros_text us) }
{
    let mut buffer = Buffer::new();
    into.extend_from_slice(buffer.format(us / 1_000_000).as_bytes())?;
    into.extend_from_slice(&[
        b'.',
        digit(us / 100_000),
        digit(us / 10_000),
        digit(us / 1_000),
    ])?;
    into.extend_from_slice(&[digit(us / 100), digit(us / 10), digit(us)])
}

// A figure of one part, up to what stands behind the rule's name.
#[tactic(auto, unfolding(crate::specs::Histogram::part_text))]
fn write_part<A: Allocator>(
    into: &mut Vec<u8, A>,
    family: Family,
    part: &[u8],
    rule: &[u8],
) -> Result<(), OutOfMemory>
    ensures { OnOk result
        (into.new.items ≡ into.old.items ++ part_text family part.now rule.now) }
{
    into.extend_from_slice(family.name())?;
    into.extend_from_slice(part)?;
    into.extend_from_slice(b"{")?;
    write_label(into, b"rule", rule)
}

#[tactic(auto, unfolding(crate::specs::Sample::label_text))]
fn write_bound_label<A: Allocator>(
    into: &mut Vec<u8, A>,
    bound_ms: Option<u64>,
) -> Result<(), OutOfMemory>
    ensures { OnOk result
        (into.new.items ≡ into.old.items ++ label_text (codes "le") (bound_text bound_ms)) }
{
    into.extend_from_slice(b"le=\"")?;
    write_bound(into, bound_ms)?;
    into.extend_from_slice(b"\"")
}

#[tactic(auto, unfolding(crate::specs::Histogram::bucket_text))]
fn write_bucket<A: Allocator>(
    into: &mut Vec<u8, A>,
    family: Family,
    rule: &[u8],
    bound_ms: Option<u64>,
    n: u64,
) -> Result<(), OutOfMemory>
    ensures { OnOk result
        (into.new.items ≡ into.old.items ++ bucket_text family rule.now bound_ms n) }
{
    write_part(into, family, b"_bucket", rule)?;
    into.extend_from_slice(b",")?;
    write_bound_label(into, bound_ms)?;
    into.extend_from_slice(b"}")?;
    write_value(into, n)
}

// The buckets that have a bound.
fn write_buckets<A: Allocator>(
    into: &mut Vec<u8, A>,
    family: Family,
    rule: &[u8],
    bounds_ms: &[u64],
    counts: &[u64],
) -> Result<(), OutOfMemory>
    ensures { OnOk result (into.new.items
        ≡ into.old.items ++ buckets_from family rule.now counts.now 0 bounds_ms.now) }
{
    for place in 0..bounds_ms.len() {
        let bound_ms = Some(bounds_ms[place]);
        write_bucket(into, family, rule, bound_ms, up_to(counts, place + 1))?;
    }
    Ok(())
}

#[tactic(auto, unfolding(crate::specs::Histogram::sum_text, crate::specs::Sample::value_text))]
fn write_sum<A: Allocator>(
    into: &mut Vec<u8, A>,
    family: Family,
    rule: &[u8],
    us: u64,
) -> Result<(), OutOfMemory>
    ensures { OnOk result (into.new.items ≡ into.old.items ++ sum_text family rule.now us) }
{
    write_part(into, family, b"_sum", rule)?;
    into.extend_from_slice(b"} ")?;
    write_micros(into, us)?;
    into.extend_from_slice(b"\n")
}

#[tactic(auto, unfolding(crate::specs::Histogram::count_text))]
fn write_count<A: Allocator>(
    into: &mut Vec<u8, A>,
    family: Family,
    rule: &[u8],
    n: u64,
) -> Result<(), OutOfMemory>
    ensures { OnOk result (into.new.items ≡ into.old.items ++ count_text family rule.now n) }
{
    write_part(into, family, b"_count", rule)?;
    into.extend_from_slice(b"}")?;
    write_value(into, n)
}

// A rule's durations, by these bounds.
#[tactic(auto, unfolding(crate::specs::Histogram::histogram_text))]
fn write_histogram<A: Allocator>(
    into: &mut Vec<u8, A>,
    family: Family,
    rule: &[u8],
    bounds_ms: &[u64],
    counts: &[u64],
    sum_us: u64,
) -> Result<(), OutOfMemory>
    ensures { OnOk result (into.new.items ≡ into.old.items
        ++ histogram_text family rule.now bounds_ms.now counts.now sum_us) }
{
    let all = up_to(counts, counts.len());
    write_buckets(into, family, rule, bounds_ms, counts)?;
    write_bucket(into, family, rule, None, all)?;
    write_sum(into, family, rule, sum_us)?;
    write_count(into, family, rule, all)
}

/// How long connects to a rule's targets took.
#[tactic(auto, unfolding(crate::specs::Text::connects_text))]
pub(crate) fn write_connects<A: Allocator>(
    into: &mut Vec<u8, A>,
    rule: &[u8],
    took: &Durations<CONNECT_PLACES>,
) -> Result<(), OutOfMemory>
    ensures { OnOk result
        (into.new.items ≡ into.old.items ++ connects_text rule.now took.now) }
{
    write_histogram(
        into,
        Family::RuleConnects,
        rule,
        &CONNECT_BOUNDS_MS,
        &took.counts,
        took.sum_us,
    )
}

/// How long a rule's connections stood.
#[tactic(auto, unfolding(crate::specs::Text::stood_text))]
pub(crate) fn write_stood<A: Allocator>(
    into: &mut Vec<u8, A>,
    rule: &[u8],
    stood: &Durations<STANDING_PLACES>,
) -> Result<(), OutOfMemory>
    ensures { OnOk result
        (into.new.items ≡ into.old.items ++ stood_text rule.now stood.now) }
{
    write_histogram(
        into,
        Family::RuleStood,
        rule,
        &STANDING_BOUNDS_MS,
        &stood.counts,
        stood.sum_us,
    )
}
