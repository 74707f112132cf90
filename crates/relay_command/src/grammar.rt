//! The commands of the program with their options, as `clap` is told them.

ghost use Rattle.std.specs.Prelude.{◌≡◌, IfOk, false};
ghost use Rattle.clap.specs.Walk.{rule_of};
ghost use Rattle.clap.specs.Simple.{app_of};
ghost use Rattle.clap.specs.declared.builder.command.Command.TheViews.{out-Command};
ghost use Rattle.relay_command.specs.CommandLine.{check_app, convert_app, ctl_app, ctl_named};
ghost use Rattle.relay_command.specs.CommandLine.{flag_option, operand, optional_option};
ghost use Rattle.relay_command.specs.CommandLine.{program, required_option};
ghost use Rattle.relay_command.specs.CommandLine.{serve_app, serve_needs, serve_watched};
ghost use Rattle.relay_command.specs.CommandLine as spec;

use base_types::OutOfMemory;
use clap::{Arg, ArgAction, Command};
use std::alloc::Global;

// An option that has to be there, with a value.
fn option<'a>(alloc: Global, name: &'a str) -> Arg<'a>
    ensures rule { rule_of result ≡ required_option name.now }
    ensures local { result.global ≡ false }
{
    Arg::new(alloc, name)
        .long(name)
        .required(true)
        .action(ArgAction::Set)
}

// An option that may be left out, with a value.
fn optional<'a>(alloc: Global, name: &'a str) -> Arg<'a>
    ensures rule { rule_of result ≡ optional_option name.now }
    ensures local { result.global ≡ false }
{
    Arg::new(alloc, name).long(name).action(ArgAction::Set)
}

// An option that stands alone.
fn flag<'a>(alloc: Global, name: &'a str) -> Arg<'a>
    ensures rule { rule_of result ≡ flag_option name.now }
    ensures local { result.global ≡ false }
{
    Arg::new(alloc, name).long(name).action(ArgAction::SetTrue)
}

fn check<'a>(alloc: Global) -> Result<Command<'a>, OutOfMemory>
    ensures app { IfOk result (λ command. app_of command ≡ check_app) }
    ensures local { IfOk result (λ command. (out-Command command).has_globals ≡ false) }
{
    Command::new(alloc, "check")
        .arg(optional(alloc, "rules"))?
        .arg(optional(alloc, "config"))
}

fn convert<'a>(alloc: Global) -> Result<Command<'a>, OutOfMemory>
    ensures app { IfOk result (λ command. app_of command ≡ convert_app) }
    ensures local { IfOk result (λ command. (out-Command command).has_globals ≡ false) }
{
    Command::new(alloc, "convert").arg(option(alloc, "rules"))
}

// `serve` with the options that say by which file, and where it is steered.
fn serve_needs<'a>(alloc: Global) -> Result<Command<'a>, OutOfMemory>
    ensures app { IfOk result (λ command. app_of command ≡ serve_needs) }
    ensures local { IfOk result (λ command. (out-Command command).has_globals ≡ false) }
{
    Command::new(alloc, "serve")
        .arg(optional(alloc, "rules"))?
        .arg(optional(alloc, "config"))?
        .arg(optional(alloc, "admin"))
}

// The same with how large it is, and where it tells of itself.
fn serve_watched<'a>(alloc: Global) -> Result<Command<'a>, OutOfMemory>
    ensures app { IfOk result (λ command. app_of command ≡ serve_watched) }
    ensures local { IfOk result (λ command. (out-Command command).has_globals ≡ false) }
{
    serve_needs(alloc)?
        .arg(optional(alloc, "loops"))?
        .arg(optional(alloc, "connections"))?
        .arg(optional(alloc, "log"))?
        .arg(optional(alloc, "metrics"))
}

fn serve<'a>(alloc: Global) -> Result<Command<'a>, OutOfMemory>
    ensures app { IfOk result (λ command. app_of command ≡ serve_app) }
    ensures local { IfOk result (λ command. (out-Command command).has_globals ≡ false) }
{
    serve_watched(alloc)?
        .arg(optional(alloc, "connect-timeout"))?
        .arg(optional(alloc, "connections-per-rule"))?
        .arg(flag(alloc, "replace-stale"))
}

// A word of an admin command.
fn word<'a>(alloc: Global, name: &'a str, has_to_be: bool) -> Arg<'a>
    ensures rule { rule_of result ≡ operand name.now has_to_be }
    ensures local { result.global ≡ false }
{
    Arg::new(alloc, name)
        .required(has_to_be)
        .action(ArgAction::Set)
}

// `ctl` with the path of an admin socket, and the first of its words.
fn ctl_named<'a>(alloc: Global) -> Result<Command<'a>, OutOfMemory>
    ensures app { IfOk result (λ command. app_of command ≡ ctl_named) }
    ensures local { IfOk result (λ command. (out-Command command).has_globals ≡ false) }
{
    Command::new(alloc, "ctl")
        .arg(option(alloc, "admin"))?
        .arg(word(alloc, "command", true))
}

fn ctl<'a>(alloc: Global) -> Result<Command<'a>, OutOfMemory>
    ensures app { IfOk result (λ command. app_of command ≡ ctl_app) }
    ensures local { IfOk result (λ command. (out-Command command).has_globals ≡ false) }
{
    ctl_named(alloc)?
        .arg(word(alloc, "first", false))?
        .arg(word(alloc, "second", false))?
        .arg(word(alloc, "third", false))
}

// The commands that read a file, or a script.
// (the words `help` and `version` are commands of the program's own, `--help` is none)
fn reading<'a>(alloc: Global) -> Result<Command<'a>, OutOfMemory>
    ensures { IfOk result (λ command. app_of command ≡ spec.reading) }
{
    Command::new(alloc, "pollrelay")
        .no_binary_name(true)
        .disable_help_subcommand(true)
        .subcommand(Command::new(alloc, "trace"))?
        .subcommand(check(alloc)?)?
        .subcommand(convert(alloc)?)
}

// The same, and the one that serves.
fn working<'a>(alloc: Global) -> Result<Command<'a>, OutOfMemory>
    ensures { IfOk result (λ command. app_of command ≡ spec.working) }
{
    reading(alloc)?.subcommand(serve(alloc)?)
}

/// The program's commands.
pub(crate) fn command<'a>(alloc: Global) -> Result<Command<'a>, OutOfMemory>
    ensures { IfOk result (λ command. app_of command ≡ program) }
{
    working(alloc)?
        .subcommand(ctl(alloc)?)?
        .subcommand(Command::new(alloc, "help"))?
        .subcommand(Command::new(alloc, "version"))
}
