//! Tables of sources: who is let in, what an end frees, and what becomes of a client for whose source
//! there is no place.

use client_sources::{GROUP_PLACES, Limits, Paced, Refusal, Source, Sources};
use config_values::Rate;
use std::alloc::Global;
use std::net::IpAddr;

/// What happens in a row, at a moment in milliseconds: a client of this address comes, and is let in, or
/// isn't for this reason; or the one of this step, counted from 0, leaves.
enum Step {
    Comes(u64, &'static [u8], Option<Refusal>),
    Leaves(usize),
}

use Step::{Comes, Leaves};

const FULL: Option<Refusal> = Some(Refusal::Full);

const RATE: Option<Refusal> = Some(Refusal::Rate);

const A: &[u8] = b"10.0.0.1";

const B: &[u8] = b"10.0.0.2";

/// The limits of connections, and of clients in how many seconds.
type Said = (Option<u32>, Option<(u32, u32)>);

const ROWS: &[(&str, Said, &[Step])] = &[
    (
        "as many as may, and one source alone",
        (Some(2), None),
        &[
            Comes(0, A, None),
            Comes(0, A, None),
            Comes(0, A, FULL),
            Comes(0, B, None),
            Comes(0, B, None),
            Comes(9_000_000, B, FULL),
        ],
    ),
    (
        "an end frees a place",
        (Some(1), None),
        &[
            Comes(0, A, None),
            Comes(0, A, FULL),
            Leaves(0),
            Comes(0, A, None),
            Comes(0, A, FULL),
        ],
    ),
    (
        "a rate begins anew a second after its first client",
        (None, Some((2, 1))),
        &[
            Comes(5_000, A, None),
            Comes(5_999, A, None),
            Comes(5_999, A, RATE),
            Comes(5_999, B, None),
            Comes(6_000, A, None),
            Comes(6_999, A, None),
            Comes(6_999, A, RATE),
            Comes(7_000, A, None),
        ],
    ),
    (
        "ends give no rate back, and refused clients take none",
        (Some(1), Some((2, 60))),
        &[
            Comes(0, A, None),
            Comes(1, A, FULL),
            Comes(2, A, FULL),
            Leaves(0),
            Comes(3, A, None),
            Leaves(4),
            Comes(4, A, RATE),
            Comes(59_999, A, RATE),
            Comes(60_000, A, None),
        ],
    ),
    (
        "an hour",
        (None, Some((1, 3_600))),
        &[
            Comes(0, A, None),
            Comes(3_599_999, A, RATE),
            Comes(3_600_000, A, None),
        ],
    ),
    (
        "an earlier moment ends no time",
        (None, Some((1, 1))),
        &[Comes(5_000, A, None), Comes(1, A, RATE)],
    ),
    (
        "a network of IPv6 is one source, and a mapped address is one of IPv4",
        (Some(1), None),
        &[
            Comes(0, b"2001:db8:0:7::1", None),
            Comes(0, b"2001:db8:0:7:ffff:ffff:ffff:ffff", FULL),
            Comes(0, b"2001:db8:0:8::1", None),
            Comes(0, b"::ffff:10.0.0.1", None),
            Comes(0, A, FULL),
            Comes(0, b"::1", None),
            Comes(0, b"::2", FULL),
            Comes(0, b"0.0.0.0", None),
        ],
    ),
    (
        "nobody",
        (Some(0), None),
        &[Comes(0, A, FULL), Comes(1, A, FULL)],
    ),
    (
        "without limits",
        (None, None),
        &[Comes(0, A, None), Comes(0, A, None), Leaves(0), Leaves(1)],
    ),
];

const STEPS: usize = 16;

fn limits_of(said: &Said) -> Limits {
    Limits {
        connections: said.0,
        accepts: said.1.map(|(count, seconds)| Rate { count, seconds }),
    }
}

/// A table with the places of those that were let in, by their steps.
#[derive(Drop)]
struct Stage {
    sources: Sources,
    places: [Option<usize>; STEPS],
}

impl Stage {
    /// Whether a client that comes is let in, or not, as it is to be.
    fn comes(
        &mut self,
        step: usize,
        client: &[u8],
        limits: &Limits,
        at_ms: u64,
        want: &Option<Refusal>,
    ) -> bool {
        let Ok(address) = IpAddr::parse_ascii(client) else {
            return false;
        };
        match self.sources.admit(Source::of(address), limits, at_ms.saturating_mul(1_000_000)) {
            Ok(place) => {
                if let Some(held) = self.places.get_mut(step) {
                    *held = place;
                }
                place.is_some() && want.is_none()
            }
            Err(why) => *want == Some(why),
        }
    }

    /// The one of this step leaves, and that it had a place.
    fn leaves(&mut self, step: usize) -> bool {
        match self.places.get(step) {
            Some(Some(place)) => {
                self.sources.leave(*place, 1);
                true
            }
            _ => false,
        }
    }
}

/// The first step that came otherwise, if any did.
fn first_fault(alloc: Global, said: &Said, steps: &[Step]) -> Option<usize> {
    let Ok(sources) = Sources::new(alloc) else {
        return None;
    };
    let limits = limits_of(said);
    let mut stage = Stage {
        sources,
        places: [None; STEPS],
    };
    for (number, step) in steps.iter().enumerate() {
        let is_so = match step {
            Comes(at_ms, client, want) => stage.comes(number, client, &limits, *at_ms, want),
            Leaves(step) => stage.leaves(*step),
        };
        if !is_so {
            return Some(number);
        }
    }
    None
}

#[test]
fn of_one_source_as_many_are_let_in_as_may(rt: HostRuntime) {
    for (name, said, steps) in ROWS {
        assert!(rt; first_fault(rt.alloc(), said, steps) == None, "{name}");
    }
}

const ONE: Limits = Limits {
    connections: Some(1),
    accepts: None,
};

/// The first so many sources of the group of 0.0.0.0, and one more.
fn of_one_group() -> [Source; GROUP_PLACES + 1] {
    let mut found = [Source::V4(0); GROUP_PLACES + 1];
    let mut count = 0usize;
    for bits in 0..100_000u32 {
        let source = Source::V4(bits);
        if source.first_place() == 0 {
            if let Some(held) = found.get_mut(count) {
                *held = source;
                count += 1;
            }
        }
    }
    found
}

/// Whether a full group lets the next source in without a place, and with one once somebody left.
fn full_group(alloc: Global) -> Option<bool> {
    let mut sources = Sources::new(alloc).ok()?;
    let all = of_one_group();
    let last = all[GROUP_PLACES];
    let mut first = None;
    for source in all.get(..GROUP_PLACES)? {
        let place = sources.admit(*source, &ONE, 0).ok()?;
        if first.is_none() {
            first = place;
        }
    }
    let uncounted = sources.admit(last, &ONE, 0) == Ok(None)
        && sources.admit(last, &ONE, 1) == Ok(None);
    let still = sources.admit(all[0], &ONE, 0) == Err(Refusal::Full);
    sources.leave(first?, 1);
    let counted = sources.admit(last, &ONE, 0) == Ok(first)
        && sources.admit(last, &ONE, 1) == Err(Refusal::Full);
    Some(uncounted && still && counted)
}

#[test]
fn a_full_group_keeps_nobody_out_and_forgets_nobody(rt: HostRuntime) {
    assert!(rt; full_group(rt.alloc()) == Some(true));
}

/// Whether each of many sources is let in with a place, one after the other.
fn flood(alloc: Global) -> Option<bool> {
    let mut sources = Sources::new(alloc).ok()?;
    for bits in 0..50_000u32 {
        match sources.admit(Source::V4(bits), &ONE, u64::from(bits)) {
            Ok(Some(place)) => sources.leave(place, 1),
            _ => return Some(false),
        }
    }
    Some(true)
}

#[test]
fn sources_that_have_gone_give_their_places_to_others(rt: HostRuntime) {
    assert!(rt; flood(rt.alloc()) == Some(true));
}

// Moments in milliseconds, and whether a line is told then.
const LINES: &[(u64, bool)] = &[
    (700, true),
    (700, false),
    (1_699, false),
    (1_700, true),
    (1_701, false),
    (900, false),
    (9_000, true),
];

#[test]
fn a_line_is_told_once_a_second(rt: HostRuntime) {
    let mut paced = Paced::new();
    for (at_ms, want) in LINES {
        assert!(rt; paced.tells(*at_ms * 1_000_000) == *want, "{at_ms}");
    }
}
