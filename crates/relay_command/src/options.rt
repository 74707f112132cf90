//! What the text of each option of `serve` asks for.

ghost use Rattle.std.specs.Prelude.{◌≡◌, IfOk, option_map};
ghost use Rattle.std.specs.String.{string_bytes};
ghost use Rattle.relay_command.specs.CommandLine.{connect_given, connect_in};
ghost use Rattle.relay_command.specs.CommandLine.{log_given, loops_given, loops_in, metrics_given};
ghost use Rattle.relay_command.specs.CommandLine.{pairs_given, pairs_in};
ghost use Rattle.relay_admin.specs.rules.Addr.{address_of};

use base_types::OutOfMemory;
use relay_admin::Addr;
use relay_core::{Loops, PairLimit};
use relay_settings::{MAX_CONNECT_MS, relay_addr_of};
use std::alloc::Global;
use stream_base::decimal::parse_decimal;

// The loops that a text asks for, in digits without a zero ahead, or none where it has no such
// number.
fn loops_of(text: &str) -> Option<Loops>
    ensures { option_map (λ loops. loops.count) result ≡ loops_in text.now }
{
    Loops::of(parse_decimal(text.as_bytes())?)
}

// The loops that an option asks for, if it is there; none where it asks for no number of them.
pub(crate) fn loops_asked(given: Option<&str>) -> Option<Option<Loops>>
    ensures { option_map (option_map (λ loops. loops.count)) result
        ≡ loops_given (option_map (λ text. text.now) given.entry) }
{
    match given {
        None => Some(None),
        Some(text) => match loops_of(text) {
            Some(loops) => Some(Some(loops)),
            None => None,
        },
    }
}

// The connections that a text asks for, in digits without a zero ahead, or none where it has no
// such number.
fn pairs_of(text: &str) -> Option<PairLimit>
    ensures { option_map (λ pairs. pairs.count) result ≡ pairs_in text.now }
{
    PairLimit::of(parse_decimal(text.as_bytes())?)
}

// The connections that an option asks for, if it is there; none where it asks for no number of
// them. One function for these and the loops would need a trait over both types, for no less text.
pub(crate) fn pairs_asked(given: Option<&str>) -> Option<Option<PairLimit>>
    ensures { option_map (option_map (λ pairs. pairs.count)) result
        ≡ pairs_given (option_map (λ text. text.now) given.entry) }
{
    match given {
        None => Some(None),
        Some(text) => match pairs_of(text) {
            Some(pairs) => Some(Some(pairs)),
            None => None,
        },
    }
}

// How many milliseconds a target has by a text, in digits without a zero ahead; 0 is as long as the
// system takes.
fn connect_of(text: &str) -> Option<Option<u32>>
    ensures { result ≡ connect_in text.now }
{
    let ms = parse_decimal(text.as_bytes())?;
    if ms > MAX_CONNECT_MS {
        return None;
    }
    if ms == 0 {
        return Some(None);
    }
    Some(Some(ms as u32))
}

// How many milliseconds a target has by an option, if it is there; none where it asks for no time.
pub(crate) fn connect_asked(given: Option<&str>) -> Option<Option<Option<u32>>>
    ensures { result ≡ connect_given (option_map (λ text. text.now) given.entry) }
{
    match given {
        None => Some(None),
        Some(text) => match connect_of(text) {
            Some(time) => Some(Some(time)),
            None => None,
        },
    }
}

// The path of the log that an option asks for, if it is there; none where the path has no byte.
pub(crate) fn log_asked(
    alloc: Global,
    given: Option<&str>,
) -> Result<Option<Option<String>>, OutOfMemory>
    ensures { IfOk result (λ log. option_map (option_map string_bytes) log
        ≡ log_given (option_map (λ text. text.now) given.entry)) }
{
    match given {
        None => Ok(Some(None)),
        Some(path) if path.is_empty() => Ok(None),
        Some(path) => {
            let path = String::from_str(alloc, path)?;
            Ok(Some(Some(path)))
        }
    }
}

// The address for metrics that an option asks for, if it is there, as the key of a configuration has
// it; none where its text spells none.
pub(crate) fn metrics_asked(given: Option<&str>) -> Option<Option<Addr>>
    ensures { option_map (option_map address_of) result
        ≡ metrics_given (option_map (λ text. text.now) given.entry) }
{
    match given {
        None => Some(None),
        Some(text) => match relay_addr_of(text.as_bytes()) {
            Some(addr) => Some(Some(addr)),
            None => None,
        },
    }
}
