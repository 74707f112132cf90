//! How a relay runs, as far as somebody says it.

ghost use Rattle.std.specs.Prelude.{◌≡◌, ◌≤◌, IfOk, IfSome, IfNone, option_map};
ghost use Rattle.std.specs.String.{string_bytes};
ghost use Rattle.relay_settings.specs.Settings.{AreInForce, SaysNothing, first_said};

use base_types::OutOfMemory;
use config_values::DAY_MS;
use relay_admin::Addr;
use relay_config::Format;
use relay_core::{Capacity, Loops, PairLimit};
use std::alloc::Global;
use std::thread::Threads;

/// The most milliseconds that a target may be given to be connected: a day.
pub const MAX_CONNECT_MS: u64 = DAY_MS;

/// How a relay runs, as the words of a command line or a configuration say it. What is `None` isn't
/// said, and is as by default.
#[derive(Debug, PartialEq, Eq, Drop)]
pub struct Settings {
    /// The path at which admin sessions are served.
    pub admin: Option<String>,
    /// The mode of the socket there, at most 0777, else what the umask leaves of all. No word of a
    /// command line says it.
    pub admin_mode: Option<u16>,
    /// How many loops it has, else as many as suit the machine.
    pub loops: Option<Loops>,
    /// How many connections stand at once, else 512.
    pub pairs: Option<PairLimit>,
    /// How many connections of one rule stand at once, else as many as of all.
    pub per_rule: Option<PairLimit>,
    /// How many milliseconds a target has to be connected, where `Some(None)` is as long as the
    /// system takes; else 5,000.
    pub connect_ms: Option<Option<u32>>,
    /// Whether a Unix socket at which nobody listens any more gives way to a listener, else not.
    pub replaces_stale: Option<bool>,
    /// The path of its log, else it has none.
    pub log: Option<String>,
    /// How the lines of its log are written, else as text. No word of a command line says it.
    pub log_format: Option<Format>,
    /// Where its metrics are served, else nowhere.
    pub metrics: Option<Addr>,
}

// What was said first, if anything was.
fn first_said<T: Copy>(first: Option<T>, second: Option<T>) -> Option<T>
    ensures { result ≡ first_said first second }
{
    match first {
        Some(said) => Some(said),
        None => second,
    }
}

// The same of texts, in memory of its own.
fn first_text(
    alloc: Global,
    first: &Option<String>,
    second: &Option<String>,
) -> Result<Option<String>, OutOfMemory>
    ensures { IfOk result (λ said. option_map string_bytes said
        ≡ first_said (option_map string_bytes first.now) (option_map string_bytes second.now)) }
{
    match (first, second) {
        (Some(text), _) | (None, Some(text)) => {
            let text = String::from_str(alloc, text.as_str())?;
            Ok(Some(text))
        }
        (None, None) => Ok(None),
    }
}

/// The settings in force: what the words of the command line say wins over what the file says.
pub fn in_force(alloc: Global, words: &Settings, file: &Settings) -> Result<Settings, OutOfMemory>
    ensures { IfOk result (AreInForce words.now file.now) }
{
    let admin = first_text(alloc, &words.admin, &file.admin)?;
    let log = first_text(alloc, &words.log, &file.log)?;
    Ok(Settings {
        admin,
        admin_mode: first_said(words.admin_mode, file.admin_mode),
        loops: first_said(words.loops, file.loops),
        pairs: first_said(words.pairs, file.pairs),
        per_rule: first_said(words.per_rule, file.per_rule),
        connect_ms: first_said(words.connect_ms, file.connect_ms),
        replaces_stale: first_said(words.replaces_stale, file.replaces_stale),
        log,
        log_format: first_said(words.log_format, file.log_format),
        metrics: first_said(words.metrics, file.metrics),
    })
}

impl Settings {
    /// Nothing is said.
    pub fn none() -> Settings
        ensures { SaysNothing result }
    {
        Settings {
            admin: None,
            admin_mode: None,
            loops: None,
            pairs: None,
            per_rule: None,
            connect_ms: None,
            replaces_stale: None,
            log: None,
            log_format: None,
            metrics: None,
        }
    }

    /// How large the relay is on this machine. Where nothing else is asked for, it has as many loops
    /// as threads run at once there, at most 8, and 512 connections.
    pub fn capacity<R: Threads>(&self, rt: &R) -> Capacity
        ensures loops { IfSome self.now.loops (λ loops. result.loops ≡ loops) }
        ensures own_loops { IfNone self.now.loops (result.loops.count ≤ 8) }
        ensures pairs { IfSome self.now.pairs (λ pairs. result.pairs ≡ pairs) }
        ensures own_pairs { IfNone self.now.pairs (result.pairs.count ≡ 512) }
    {
        Capacity {
            loops: match self.loops {
                Some(loops) => loops,
                None => Loops::by_processors(rt),
            },
            pairs: match self.pairs {
                Some(pairs) => pairs,
                None => PairLimit::by_default(),
            },
        }
    }
}
