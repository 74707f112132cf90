//! A row of alarms of places: which is first, and which are due from a place on.
use deadline_core::PlaceAlarms;
use std::alloc::Global;

/// A step on alarms, with what it has to answer.
enum Step {
    /// Room for so many places is made.
    Reserve(u16),
    Set(usize, Option<u64>),
    /// The alarm of a place.
    Has(usize, Option<u64>),
    First(Option<u64>),
    /// The first place from one on that is due at a moment.
    Next(usize, u64, Option<usize>),
}

use Step::{First, Has, Next, Reserve, Set};

const STEPS: &[Step] = &[
    First(None),
    Has(0, None),
    Next(0, u64::MAX, None),
    Reserve(4),
    Set(3, Some(30)),
    Set(0, Some(50)),
    First(Some(30)),
    Set(3, Some(60)),
    First(Some(50)),
    // Room that grows keeps the alarms.
    Reserve(1_000),
    Has(3, Some(60)),
    Set(999, Some(55)),
    Next(0, 49, None),
    Next(0, 60, Some(0)),
    Next(1, 60, Some(3)),
    Next(1, 59, Some(999)),
    Next(999, 55, Some(999)),
    Set(0, None),
    First(Some(55)),
];

/// Takes a step, and says whether its answer is the one that it must get.
fn answers(alarms: &mut PlaceAlarms, step: &Step) -> bool {
    match step {
        Reserve(places) => alarms.reserve(usize::from(*places)).is_ok(),
        Set(place, alarm) => {
            if *place >= alarms.room() {
                return false;
            }
            alarms.set(*place, *alarm);
            true
        }
        Has(place, want) => alarms.alarm(*place) == *want,
        First(want) => alarms.first() == *want,
        Next(from, now, want) => alarms.next_due(*from, *now) == *want,
    }
}

/// The first step whose answer is another, if one's is.
fn other_step(alloc: Global) -> Option<usize> {
    let mut alarms = PlaceAlarms::new_in(alloc);
    for (at, step) in STEPS.iter().enumerate() {
        if !answers(&mut alarms, step) {
            return Some(at);
        }
    }
    None
}

#[test]
fn alarms_answer_as_their_row_says(rt: HostRuntime) {
    let other = other_step(rt.alloc());
    assert!(rt; other.is_none(), "step {other:?}");
}
