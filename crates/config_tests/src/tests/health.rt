//! Runs of outcomes, each with whether the target is up after it.

use target_pick::Outcome::{Connected, Failed, Passed};
use target_pick::{Health, Limits, Outcome};

const LIMITS: Limits = Limits { fall: 3, rise: 2 };

const ROWS: &[&[(Outcome, bool)]] = &[
    &[
        (Failed, true),
        (Failed, true),
        (Failed, false),
        (Failed, false),
    ],
    &[
        (Failed, true),
        (Failed, true),
        (Connected, true),
        (Failed, true),
        (Failed, true),
    ],
    &[
        (Failed, true),
        (Failed, true),
        (Passed, true),
        (Failed, true),
        (Failed, true),
        (Failed, false),
    ],
    &[
        (Failed, true),
        (Failed, true),
        (Failed, false),
        (Passed, false),
        (Passed, true),
    ],
    &[
        (Failed, true),
        (Failed, true),
        (Failed, false),
        (Passed, false),
        (Failed, false),
        (Passed, false),
        (Passed, true),
    ],
    &[
        (Failed, true),
        (Failed, true),
        (Failed, false),
        (Connected, false),
        (Passed, false),
        (Connected, false),
        (Passed, true),
    ],
];

#[test]
fn a_target_falls_and_rises_by_its_outcomes(rt: HostRuntime) {
    for row in ROWS {
        let mut health = Health::new(&LIMITS);
        for (outcome, is_up) in *row {
            health = health.after(&LIMITS, *outcome);
            assert!(rt; health.is_up == *is_up, "{row:?}");
        }
    }
}

#[test]
fn one_failure_is_enough_where_the_limit_is_one(rt: HostRuntime) {
    let limits = Limits { fall: 1, rise: 1 };
    let down = Health::new(&limits).after(&limits, Failed);
    assert!(rt; !down.is_up);
    assert!(rt; down.after(&limits, Passed).is_up);
}
