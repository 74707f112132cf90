//! How many descriptors a relay needs, and how many it may have.

use relay_command::{descriptors_allowed, descriptors_needed};
use relay_core::{Loops, PairLimit};
use std::prelude::HostRuntime;

/// What Linux says of a process's limits.
const LIMITS: &str = "\
Limit                     Soft Limit           Hard Limit           Units     \n\
Max processes             63410                63410                processes \n\
Max open files            1024                 524288               files     \n\
Max locked memory         8388608              8388608              bytes     \n";

fn needed(pairs: u64, loops: u64, further: u32) -> Option<u64> {
    let (pairs, loops) = (PairLimit::of(pairs)?, Loops::of(loops)?);
    Some(descriptors_needed(pairs, loops, further))
}

#[test]
fn a_limit_is_read_and_a_need_is_counted(rt: HostRuntime) {
    for (limits, want) in [
        (LIMITS, Some(1_024)),
        ("", None),
        ("Max open files\n", None),
        (
            "Max open files            unlimited            unlimited            files\n",
            None,
        ),
    ] {
        assert!(&rt; descriptors_allowed(limits) == want, "{limits}");
    }
    for (pairs, loops, further, want) in [
        (1, 1, 0, 244),
        (512, 8, 0, 1_280),
        (512, 8, 64, 1_408),
        (50_000, 64, 0, 100_368),
    ] {
        assert!(&rt;
            needed(pairs, loops, further) == Some(want),
            "{pairs} {loops} {further}"
        );
    }
}
