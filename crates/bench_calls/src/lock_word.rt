//! Rounds on one running lock word, by threads that have a seat each. The benchmark `lock_word`
//! times them from outside, beside plain Rust.

mod job;
mod rounds;
mod workers;

use crate::lock_word::job::{Job, Load, job_of};
use crate::lock_word::workers::run;
use std::alloc::Global;
use std::io;
use std::process::ExitCode;
use std::sync::Wait;
use std::thread::Threads;

/// A small job.
const SAMPLE: Job = Job {
    load: Load::Reads,
    threads: 2,
    rounds: 1_000,
    lead: 0,
};

/// Makes the rounds of a job, and prints how many they were, the word and the half.
fn run_job<R: Threads + Wait + Sync + Print>(
    rt: &R,
    alloc: Global,
    job: Job,
) -> io::Result<ExitCode> {
    let left = run(rt, alloc, job)?;
    println!(rt;
        "{} rounds, word {}, half {}",
        left.rounds, left.word, left.half
    )?;
    Ok(ExitCode::SUCCESS)
}

/// Runs the job that the words ask for, and a small one where there are none.
pub fn run_words<R>(rt: &R, alloc: Global, words: &[String]) -> io::Result<ExitCode>
where
    R: Threads + Wait + Sync + Print,
{
    if words.is_empty() {
        return run_job(rt, alloc, SAMPLE);
    }
    match job_of(words) {
        Some(job) => run_job(rt, alloc, job),
        None => Ok(ExitCode::from(2)),
    }
}
