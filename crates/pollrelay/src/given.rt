//! The listeners that the program was started with.

ghost use Rattle.std.specs.Prelude.{◌≡◌, ◌++◌, Err, IfErr, IfOk, OnOk};
ghost use Rattle.std.specs.String.{string_bytes};
ghost use Rattle.std.specs.declared.env.VarError.{VarError};
ghost use Rattle.pollrelay.specs.Given.{AreHandedOver, AreTaken, listeners_at, text_said, unfit_at};

use base_types::OutOfMemory;
use listen_fds::{GivenSocket, ListenFds, Unfit};
use relay_server::GivenListener;
use relay_shared::address::rule_address;
use std::alloc::Global;
use std::env::VarError;
use std::net::Net;

// What a variable of the environment says; one that isn't set, or no text, says nothing.
fn text_said(alloc: Global, variable: Result<String, VarError>) -> Result<String, OutOfMemory>
    ensures said { IfOk result (λ text. string_bytes text ≡ text_said variable) }
    ensures memory { IfErr result (λ _. variable ≡ Err VarError.OutOfMemory) }
{
    match variable {
        Ok(text) => Ok(text),
        Err(VarError::OutOfMemory) => Err(OutOfMemory),
        Err(_) => Ok(String::new(alloc)),
    }
}

/// The sockets that are handed over to the process with this number, if some are, by what its
/// `LISTEN_PID` and its `LISTEN_FDS` say.
pub(crate) fn sockets_given(
    alloc: Global,
    own: u32,
    pid: Result<String, VarError>,
    fds: Result<String, VarError>,
) -> Result<Option<ListenFds>, OutOfMemory>
    ensures { IfOk result (AreHandedOver own (text_said pid) (text_said fds)) }
{
    let (pid, fds) = (text_said(alloc, pid)?, text_said(alloc, fds)?);
    Ok(ListenFds::of(own, pid.as_bytes(), fds.as_bytes()))
}

// Keeps a listener behind those that came before, or says why it is none for a rule.
fn keep(all: &mut Vec<GivenListener>, given: GivenSocket) -> Result<Option<Unfit>, OutOfMemory>
    ensures kept { OnOk result (all.new.items ≡ all.old.items ++ listeners_at given.listener) }
    ensures unfit { IfOk result (λ unfit. unfit ≡ unfit_at given.listener) }
{
    match given.listener {
        Ok((addr, listener)) => {
            let addr = rule_address(&addr);
            all.push(GivenListener { addr, listener })?;
            Ok(None)
        }
        Err(why) => Ok(Some(why)),
    }
}

// Says that the socket with this number is none for a relay.
fn tell_unfit<R: Eprint>(rt: &R, number: u8, why: Unfit) {
    let why = match why {
        Unfit::NoListener => "no listener",
        Unfit::NoAddress => "no address of a rule",
    };
    let _ = eprintln!(rt; "unused socket {number}: {why}");
}

/// The listeners among these sockets, in their order. The others are told, and closed.
pub(crate) fn listeners_among<R: Net + Eprint>(
    rt: &R,
    alloc: Global,
    sockets: &mut ListenFds,
) -> Result<Vec<GivenListener>, OutOfMemory>
    ensures { OnOk result (AreTaken sockets.new) }
{
    let mut all = Vec::new(alloc);
    while let Some(given) = sockets.take(rt) {
        let number = given.number;
        if let Some(why) = keep(&mut all, given)? {
            tell_unfit(rt, number, why);
        }
    }
    Ok(all)
}
