//! What the benchmarks time from outside: rounds on one running lock word, timers and look-ups in
//! a table, and reads and writes by one handle. The first word says which of them, and those after
//! it how much. With no word it makes a small run of each.
#![tactic(auto)]

mod handles;
mod lock_word;
mod tables;

use std::process::ExitCode;
use std::{env, io};

fn main(rt: HostRuntime) -> io::Result<ExitCode> {
    let (alloc, words) = (
        rt.alloc(),
        env::args(&rt)?.collect::<Vec<String>>(rt.alloc())?,
    );
    let asked = words.as_slice().get(1..).unwrap_or(&[]);
    match asked.first().map(|bench| bench.as_str()) {
        Some("lock_word") => lock_word::run_words(&rt, alloc, asked),
        Some("tables") => tables::run_words(&rt, alloc, asked),
        Some("handles") => handles::run_words(&rt, alloc, asked),
        Some(_) => Ok(ExitCode::from(2)),
        None => {
            lock_word::run_words(&rt, alloc, &[])?;
            tables::run_words(&rt, alloc, &[])?;
            handles::run_words(&rt, alloc, &[])
        }
    }
}
