//! Timers armed, armed again and taken out, or look-ups in a table of connections. The benchmark
//! `tables` times them from outside, beside the same work on plain lists.

mod job;
mod look_ups;
mod timers;

use crate::tables::job::{By, Job, job_of};
use crate::tables::look_ups::look_ups;
use crate::tables::timers::fire;
use std::alloc::Global;
use std::io;
use std::process::ExitCode;

/// A small job.
const SAMPLE: Job = Job::LookUps {
    by: By::Id,
    count: 100,
    times: 1_000,
};

/// Does a job, and prints its sum.
fn run_job<R: Print>(rt: &R, alloc: Global, job: Job) -> io::Result<ExitCode> {
    let sum = match job {
        Job::Timers { count, rounds } => fire(alloc, count, rounds),
        Job::LookUps { by, count, times } => look_ups(alloc, by, count, times),
    };
    let Some(sum) = sum else {
        return Ok(ExitCode::from(3));
    };
    println!(rt; "{sum}")?;
    Ok(ExitCode::SUCCESS)
}

/// Does the job that the words ask for, and a small one where there are none.
pub fn run_words<R: Print>(rt: &R, alloc: Global, words: &[String]) -> io::Result<ExitCode> {
    if words.is_empty() {
        return run_job(rt, alloc, SAMPLE);
    }
    match job_of(words) {
        Some(job) => run_job(rt, alloc, job),
        None => Ok(ExitCode::from(2)),
    }
}
