//! The job that the words of the command line ask for.

ghost use Rattle.std.specs.Prelude.{◌≡◌, ◌++◌, IfOk, OnOk, map, option_map};
ghost use Rattle.std.specs.String.{string_bytes};
ghost use Rattle.clap.specs.Walk.{first_of, rows_of};
ghost use Rattle.clap.specs.Matches.{found_of};
ghost use Rattle.clap.specs.Simple.{subcommand_rows_of};
ghost use Rattle.relay_command.specs.CommandLine.{admin_given, asked_of, checked_job, found_job, is_set};
ghost use Rattle.relay_command.specs.CommandLine.{job_asked, job_of_origin, line_in, named_job, origin_given};
ghost use Rattle.relay_command.specs.CommandLine.{origin_of, served_job, spaced, true_if, value_of};
ghost use Rattle.relay_command.specs.CommandLine as spec;

use crate::grammar::command;
use crate::options::{connect_asked, log_asked, loops_asked, metrics_asked, pairs_asked};
use base_types::OutOfMemory;
use clap::ArgMatches;
use clap::error::ErrorKind;
use relay_settings::{Asked, Settings, Source};
use std::alloc::Global;

/// What the program is asked to do.
#[derive(Debug, PartialEq, Eq, Drop)]
pub enum Job {
    /// Run a trace script on standard input and output.
    Trace,
    /// Say whether this file is good.
    Check(Source),
    /// Print the configuration that says what the rules file at this path says.
    Convert(String),
    /// Run the relay that a start asks for so.
    Serve(Asked),
    /// Ask the relay whose admin socket is at `admin` this line, which may be no admin command.
    Ctl { admin: String, line: String },
    /// Print what the program can be asked.
    Help,
    /// Print which version it is.
    Version,
}

// The value of an option that has to be there.
fn value(alloc: Global, matches: &ArgMatches<'_>, id: &str) -> Result<String, OutOfMemory>
    ensures { IfOk result (λ text. string_bytes text
        ≡ value_of id.now (rows_of (found_of matches.now))) }
{
    String::from_str(alloc, matches.get_str(id).unwrap_or(""))
}

// The value of an option that may be left out.
fn given<'a>(matches: &ArgMatches<'a>, id: &str) -> Option<&'a str>
    ensures { option_map (λ text. text.now) result
        ≡ first_of id.now (rows_of (found_of matches.now)) }
{
    matches.get_str(id)
}

// Whether an option that stands alone is there.
fn is_set(matches: &ArgMatches<'_>, id: &str) -> bool
    ensures { result ≡ is_set id.now (rows_of (found_of matches.now)) }
{
    match given(matches, id) {
        Some(text) => text == "true",
        None => false,
    }
}

// The file that the options ask for: one of `--rules` and `--config`.
fn source_asked(
    alloc: Global,
    rules: Option<&str>,
    config: Option<&str>,
) -> Result<Option<Source>, OutOfMemory>
    ensures { IfOk result (λ source. option_map origin_of source
        ≡ origin_given (option_map (λ text. text.now) rules.entry)
        (option_map (λ text. text.now) config.entry)) }
{
    match (rules, config) {
        (Some(path), None) => Ok(Some(Source::Rules(String::from_str(alloc, path)?))),
        (None, Some(path)) => Ok(Some(Source::Config(String::from_str(alloc, path)?))),
        _ => Ok(None),
    }
}

// The path of the admin socket that an option asks for, if it is there; none where a rules file
// stands alone, which can't name it.
fn admin_asked(
    alloc: Global,
    source: &Source,
    given: Option<&str>,
) -> Result<Option<Option<String>>, OutOfMemory>
    ensures { IfOk result (λ admin. option_map (option_map string_bytes) admin
        ≡ admin_given (origin_of source.now) (option_map (λ text. text.now) given.entry)) }
{
    match (source, given) {
        (_, Some(path)) => Ok(Some(Some(String::from_str(alloc, path)?))),
        (Source::Config(_), None) => Ok(Some(None)),
        (Source::Rules(_), None) => Ok(None),
    }
}

// The job of `serve` by this file.
fn serve_job_of(
    alloc: Global,
    source: Source,
    matches: &ArgMatches<'_>,
) -> Result<Option<Job>, OutOfMemory>
    ensures { IfOk result (λ job. option_map asked_of job
        ≡ job_of_origin (origin_of source) (rows_of (found_of matches.now))) }
{
    let Some(admin) = admin_asked(alloc, &source, given(matches, "admin"))? else {
        return Ok(None);
    };
    let Some(loops) = loops_asked(given(matches, "loops")) else {
        return Ok(None);
    };
    let Some(pairs) = pairs_asked(given(matches, "connections")) else {
        return Ok(None);
    };
    let Some(log) = log_asked(alloc, given(matches, "log"))? else {
        return Ok(None);
    };
    let Some(metrics) = metrics_asked(given(matches, "metrics")) else {
        return Ok(None);
    };
    let Some(connect_ms) = connect_asked(given(matches, "connect-timeout")) else {
        return Ok(None);
    };
    let Some(per_rule) = pairs_asked(given(matches, "connections-per-rule")) else {
        return Ok(None);
    };
    let words = Settings {
        admin,
        admin_mode: None,
        loops,
        pairs,
        per_rule,
        connect_ms,
        replaces_stale: true_if(is_set(matches, "replace-stale")),
        log,
        log_format: None,
        metrics,
    };
    Ok(Some(Job::Serve(Asked { source, words })))
}

// What an option that stands alone says, where it is there.
fn true_if(is_set: bool) -> Option<bool>
    ensures { result ≡ true_if is_set }
{
    if is_set { Some(true) } else { None }
}

fn serve_job(alloc: Global, matches: &ArgMatches<'_>) -> Result<Option<Job>, OutOfMemory>
    ensures { IfOk result (λ job. option_map asked_of job
        ≡ served_job (rows_of (found_of matches.now))) }
{
    match source_asked(alloc, given(matches, "rules"), given(matches, "config"))? {
        Some(source) => serve_job_of(alloc, source, matches),
        None => Ok(None),
    }
}

fn check_job(alloc: Global, matches: &ArgMatches<'_>) -> Result<Option<Job>, OutOfMemory>
    ensures { IfOk result (λ job. option_map asked_of job
        ≡ checked_job (rows_of (found_of matches.now))) }
{
    match source_asked(alloc, given(matches, "rules"), given(matches, "config"))? {
        Some(source) => Ok(Some(Job::Check(source))),
        None => Ok(None),
    }
}

// A word behind those of a line, if there is one more.
fn add_word(line: &mut String, word: Option<&str>) -> Result<(), OutOfMemory>
    ensures { OnOk result (string_bytes line.new
        ≡ string_bytes line.old ++ spaced (option_map (λ text. text.now) word.entry)) }
{
    if let Some(word) = word {
        line.push_str(" ")?;
        line.push_str(word)?;
    }
    Ok(())
}

// The words of an admin command, as a line.
fn line_of(alloc: Global, matches: &ArgMatches<'_>) -> Result<String, OutOfMemory>
    ensures { IfOk result (λ line. string_bytes line ≡ line_in (rows_of (found_of matches.now))) }
{
    let mut line = value(alloc, matches, "command")?;
    add_word(&mut line, given(matches, "first"))?;
    add_word(&mut line, given(matches, "second"))?;
    add_word(&mut line, given(matches, "third"))?;
    Ok(line)
}

fn job_named(
    alloc: Global,
    name: &str,
    matches: &ArgMatches<'_>,
) -> Result<Option<Job>, OutOfMemory>
    ensures { IfOk result (λ job. option_map asked_of job
        ≡ named_job name.now (rows_of (found_of matches.now))) }
{
    match name {
        "trace" => Ok(Some(Job::Trace)),
        "check" => check_job(alloc, matches),
        "convert" => Ok(Some(Job::Convert(value(alloc, matches, "rules")?))),
        "serve" => serve_job(alloc, matches),
        "ctl" => {
            let admin = value(alloc, matches, "admin")?;
            let line = line_of(alloc, matches)?;
            Ok(Some(Job::Ctl { admin, line }))
        }
        "help" => Ok(Some(Job::Help)),
        "version" => Ok(Some(Job::Version)),
        _ => Ok(None),
    }
}

fn job_in(alloc: Global, matches: &ArgMatches<'_>) -> Result<Option<Job>, OutOfMemory>
    ensures { IfOk result (λ job. option_map asked_of job
        ≡ found_job (subcommand_rows_of matches.now)) }
{
    match matches.subcommand() {
        None => Ok(Some(Job::Trace)),
        Some((name, inner)) => job_named(alloc, name, inner),
    }
}

// The words without a `--` at their end, which ends the options.
fn options_of<'a>(words: &'a [&'a str]) -> &'a [&'a str]
    ensures { map (λ word. word.now) result.now
        ≡ spec.options_of (map (λ word. word.now) words.now) }
{
    match words.last() {
        Some(last) if *last == "--" => &words[..words.len() - 1],
        _ => words,
    }
}

/// The job that the words after the program's name ask for, and `None` where they ask for none.
/// No word and the word `trace` ask for [`Job::Trace`]; `check` with one of `--rules` and
/// `--config`, `convert` with `--rules`, and `serve` with one of both and `--admin`, in any order,
/// for the others; with `--config` `--admin` may be left out. `serve` may have `--loops` too, with
/// a number from 1 to 64 in digits without a zero ahead, `--connections`, with one from 1 to
/// 50,000, `--log`, with the path of a file, `--metrics`, with an address as the rules file has it,
/// `--connect-timeout`, with a number up to 86,400,000, `--connections-per-rule`, with one from 1
/// to 50,000, and `--replace-stale`, alone; `ctl` with `--admin` and one to four words asks for
/// [`Job::Ctl`]; `help` and `version` stand alone. A value follows its option as the next word,
/// which begins with no `-`, or behind a `=`. A `--` ends the options: what follows it is an
/// operand, and no command has one. The only fault is want of memory.
pub fn job_of(alloc: Global, words: &[&str]) -> Result<Option<Job>, OutOfMemory>
    ensures { IfOk result (λ job. option_map asked_of job
        ≡ job_asked (map (λ word. word.now) words.now)) }
{
    let options = options_of(words);
    // What follows this word is an operand.
    if options.contains(&"--") {
        return Ok(None);
    }
    match command(alloc)?.try_get_matches_from(options) {
        Ok(matches) => job_in(alloc, &matches),
        Err(error) if error.kind() == ErrorKind::OutOfMemory => Err(OutOfMemory),
        Err(_) => Ok(None),
    }
}
