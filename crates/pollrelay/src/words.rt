//! The job that the program's arguments ask for.

ghost use Rattle.std.specs.Prelude.{◌≡◌, Err, IfErr, IfOk, IsOkAnd, map, option_map};
ghost use Rattle.std.specs.IoError.{error_kind};
ghost use Rattle.std.specs.String.{string_bytes};
ghost use Rattle.std.specs.Vec.Iter.{into_iter_items};
ghost use Rattle.pollrelay.specs.Words.{AskFor, AskForNothing, IsFaultOfWords};
ghost use Rattle.pollrelay.specs.Words.{fault_of_kind, words_behind};
ghost use Rattle.relay_command.specs.CommandLine.{asked_of, job_asked};
ghost use Rattle.relay_command.specs.declared.fault.Fault.{Fault};

use base_types::OutOfMemory;
use relay_command::{Fault, Job, NO_MEMORY, job_of};
use std::alloc::Global;
use std::env::Args;
use std::io;
use std::io::ErrorKind;

// Why arguments can't be had; one that isn't UTF-8 is no word of a command line.
fn fault_of(error: &io::Error) -> Fault
    ensures { result ≡ fault_of_kind (error_kind error.now) }
{
    match error.kind() {
        ErrorKind::OutOfMemory => NO_MEMORY,
        _ => Fault::BadCommandLine,
    }
}

// The arguments, with the program's name ahead.
fn collected(alloc: Global, args: Args) -> Result<Vec<String>, OutOfMemory>
    ensures { IfOk result (λ all. all.items ≡ into_iter_items args) }
{
    let mut all = Vec::new(alloc);
    for word in args {
        all.push(word)?;
    }
    Ok(all)
}

fn texts_of<'a>(alloc: Global, words: &'a [String]) -> Result<Vec<&'a str>, OutOfMemory>
    ensures { IfOk result (λ texts. map (λ text. text.now) texts.items
        ≡ map string_bytes words.now) }
{
    let mut texts = Vec::new(alloc);
    for word in words {
        texts.push(word.as_str())?;
    }
    Ok(texts)
}

// The job that the arguments ask for.
fn job_of_arguments(alloc: Global, args: &[String]) -> Result<Option<Job>, OutOfMemory>
    ensures { IfOk result (λ job. option_map asked_of job ≡ job_asked (words_behind args.now)) }
{
    let words = match args {
        [_, words @ ..] => words,
        [] => args,
    };
    job_of(alloc, texts_of(alloc, words)?.as_slice())
}

// The job that the arguments ask for, or the fault that they ask for none.
fn job_among(alloc: Global, args: &[String]) -> Result<Job, Fault>
    ensures job { IfOk result (AskFor args.now) }
    ensures none { result ≡ Err Fault.BadCommandLine → AskForNothing args.now }
    ensures faults { IfErr result IsFaultOfWords }
{
    match job_of_arguments(alloc, args)? {
        Some(job) => Ok(job),
        None => Err(Fault::BadCommandLine),
    }
}

/// The job that the program's arguments ask for, by what the system says of them: `BadCommandLine`
/// where they ask for none, or where one of them is no text, else `NO_MEMORY`.
pub(crate) fn job_asked(alloc: Global, args: io::Result<Args>) -> Result<Job, Fault>
    ensures job { IfOk result (λ job. IsOkAnd args (λ args. AskFor (into_iter_items args) job)) }
    ensures none { result ≡ Err Fault.BadCommandLine
        → IfOk args (λ args. AskForNothing (into_iter_items args)) }
    ensures unread { IfErr args (λ error. result ≡ Err (fault_of_kind (error_kind error))) }
    ensures faults { IfErr result IsFaultOfWords }
{
    match args {
        Ok(args) => job_among(alloc, collected(alloc, args)?.as_slice()),
        Err(error) => Err(fault_of(&error)),
    }
}
