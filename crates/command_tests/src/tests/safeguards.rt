//! The options of `serve` that keep one target, one rule or an old path from harming the rest.

use relay_command::{Job, job_of};
use relay_core::PairLimit;
use std::alloc::{AllocError, Global};
use std::prelude::HostRuntime;
use std::test::Fail;

/// What a row says: milliseconds of a target, connections of a rule, and whether stale sockets give
/// way; or nothing, where it is refused.
type Asked = Option<(Option<Option<u32>>, Option<u64>, Option<bool>)>;

const SERVE: [&str; 5] = ["serve", "--rules", "F", "--admin", "A"];

/// The job of `serve` with these words behind it.
fn job_with(alloc: Global, words: &[&str]) -> Result<Option<Job>, AllocError> {
    let mut all = Vec::new(alloc);
    for word in SERVE {
        all.push(word)?;
    }
    for word in words {
        all.push(*word)?;
    }
    job_of(alloc, all.as_slice())
}

/// What a job asks for.
fn asked_of(job: &Option<Job>) -> Asked {
    match job {
        Some(Job::Serve(asked)) => {
            let words = &asked.words;
            Some((
                words.connect_ms,
                count_of(words.per_rule),
                words.replaces_stale,
            ))
        }
        _ => None,
    }
}

fn count_of(limit: Option<PairLimit>) -> Option<u64> {
    match limit {
        Some(limit) => Some(limit.count as u64),
        None => None,
    }
}

/// Without an option nothing is said.
const BY_DEFAULT: Asked = Some((None, None, None));

#[test]
fn serve_takes_its_safeguards_and_no_others(rt: HostRuntime) -> Result<(), Fail> {
    let rows: [(&[&str], Asked); 18] = [
        (&[], BY_DEFAULT),
        (
            &["--connect-timeout", "1"],
            Some((Some(Some(1)), None, None)),
        ),
        (&["--connect-timeout=0"], Some((Some(None), None, None))),
        (
            &["--connect-timeout=86400000"],
            Some((Some(Some(86_400_000)), None, None)),
        ),
        (
            &["--connections-per-rule", "1"],
            Some((None, Some(1), None)),
        ),
        (
            &["--replace-stale", "--connections-per-rule=50000"],
            Some((None, Some(50_000), Some(true))),
        ),
        (&["--connect-timeout"], None),
        (&["--connect-timeout="], None),
        (&["--connect-timeout=86400001"], None),
        (&["--connect-timeout=01"], None),
        (&["--connect-timeout=never"], None),
        (&["--connect-timeout=1", "--connect-timeout=1"], None),
        (&["--connections-per-rule=0"], None),
        (&["--connections-per-rule=50001"], None),
        (&["--connections-per-rule=never"], None),
        (&["--replace-stale=true"], None),
        (&["--replace-stale", "yes"], None),
        (&["--replace-stale", "--replace-stale"], None),
    ];
    for (words, want) in rows {
        let job = job_with(rt.alloc(), words)?;
        assert!(&rt; asked_of(&job) == want, "{words:?}");
    }
    Ok(())
}
