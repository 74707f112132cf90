//! Moments and their texts. The milliseconds were computed apart from this crate.

use relay_log::moment::Moment;
use std::alloc::Global;
use std::prelude::HostRuntime;

const MOMENTS: &[(u64, &str)] = &[
    (0, "1970-01-01T00:00:00.000Z"),
    (86_399_999, "1970-01-01T23:59:59.999Z"),
    (86_400_000, "1970-01-02T00:00:00.000Z"),
    (951_868_800_000, "2000-03-01T00:00:00.000Z"),
    (1_709_164_800_000, "2024-02-29T00:00:00.000Z"),
    (1_795_533_707_123, "2026-11-24T15:21:47.123Z"),
    (1_798_761_599_999, "2026-12-31T23:59:59.999Z"),
    (1_798_761_600_000, "2027-01-01T00:00:00.000Z"),
    (4_107_501_296_789, "2100-02-28T12:34:56.789Z"),
    (4_107_542_400_000, "2100-03-01T00:00:00.000Z"),
    (253_402_300_799_999, "9999-12-31T23:59:59.999Z"),
    (253_402_300_800_000, "9999-12-31T23:59:59.999Z"),
    (u64::MAX, "9999-12-31T23:59:59.999Z"),
];

fn is_spelled(alloc: Global, ms: u64, want: &str) -> bool {
    let mut text = Vec::new(alloc);
    let is_written = Moment::from_millis(ms).write(&mut text).is_ok();
    is_written && text.as_slice() == want.as_bytes()
}

#[test]
fn moments_have_their_texts(rt: HostRuntime) {
    for (ms, want) in MOMENTS {
        holds!(rt; is_spelled(rt.alloc(), *ms, want), want);
    }
}
