//! Which settings an operator is told of: those that are said twice, and those that a reload finds
//! changed.

ghost use Rattle.std.specs.Prelude.{◌≡◌, ◌==◌, ◌&&◌, not, option_map};
ghost use Rattle.std.specs.Str.{bytes_eq};
ghost use Rattle.std.specs.String.{string_bytes};
ghost use Rattle.relay_admin.specs.rules.Addr.{address_of, same_address};
ghost use Rattle.relay_config.specs.Fault.{key_word};
ghost use Rattle.relay_settings.specs.Telling.{is_json, key_of_setting, option_word};
ghost use Rattle.relay_settings.specs.Telling.{same_said, same_truth, say_same, says};

use crate::settings::Settings;
use relay_admin::{Addr, is_same_addr};
use relay_config::{Format, Key};
use relay_core::{Loops, PairLimit};

/// A setting that has a key of the configuration, and an option of the command line: but for the mode
/// of the admin socket and the format of the log, which a configuration alone says.
#[derive(Clone, Copy, Debug, PartialEq, Eq, Drop)]
pub enum Setting {
    Admin,
    AdminMode,
    Loops,
    Connections,
    ConnectionsPerRule,
    ConnectTimeout,
    ReplaceStale,
    Log,
    LogFormat,
    Metrics,
}

/// All of them, in the order in which they are told.
pub const SETTINGS: [Setting; 10] = [
    Setting::Connections,
    Setting::ConnectionsPerRule,
    Setting::ConnectTimeout,
    Setting::Loops,
    Setting::ReplaceStale,
    Setting::Metrics,
    Setting::Admin,
    Setting::AdminMode,
    Setting::Log,
    Setting::LogFormat,
];

impl Setting {
    /// The option of the command line, without its dashes; for the mode of the admin socket and the
    /// format of the log, which have none, the word of the key.
    pub fn option(self) -> &'static str
        ensures { result.now ≡ option_word self }
    {
        match self {
            Setting::Admin => "admin",
            Setting::AdminMode => "mode",
            Setting::Loops => "loops",
            Setting::Connections => "connections",
            Setting::ConnectionsPerRule => "connections-per-rule",
            Setting::ConnectTimeout => "connect-timeout",
            Setting::ReplaceStale => "replace-stale",
            Setting::Log => "log",
            Setting::LogFormat => "format",
            Setting::Metrics => "metrics",
        }
    }

    /// The key of the configuration.
    pub fn key(self) -> &'static str
        ensures { result.now ≡ key_word (key_of_setting self) }
    {
        match self {
            Setting::Admin => Key::Admin.word(),
            Setting::AdminMode => Key::Mode.word(),
            Setting::Loops => Key::Loops.word(),
            Setting::Connections => Key::Connections.word(),
            Setting::ConnectionsPerRule => Key::ConnectionsPerRule.word(),
            Setting::ConnectTimeout => Key::ConnectTimeout.word(),
            Setting::ReplaceStale => Key::ReplaceStale.word(),
            Setting::Log => Key::Log.word(),
            Setting::LogFormat => Key::Format.word(),
            Setting::Metrics => Key::Metrics.word(),
        }
    }
}

/// Whether settings say this one.
fn says(settings: &Settings, setting: Setting) -> bool
    ensures { result ≡ says settings.now setting }
{
    match setting {
        Setting::Admin => settings.admin.is_some(),
        Setting::AdminMode => settings.admin_mode.is_some(),
        Setting::Loops => settings.loops.is_some(),
        Setting::Connections => settings.pairs.is_some(),
        Setting::ConnectionsPerRule => settings.per_rule.is_some(),
        Setting::ConnectTimeout => settings.connect_ms.is_some(),
        Setting::ReplaceStale => settings.replaces_stale.is_some(),
        Setting::Log => settings.log.is_some(),
        Setting::LogFormat => settings.log_format.is_some(),
        Setting::Metrics => settings.metrics.is_some(),
    }
}

/// Whether both the words of the command line and the file say this one: then the words win.
pub fn wins_over_file(words: &Settings, file: &Settings, setting: Setting) -> bool
    ensures { result ≡ (says words.now setting && says file.now setting) }
{
    says(words, setting) && says(file, setting)
}

/// Whether the file says otherwise than at the start of the relay, where the words of the command
/// line don't say it: a running relay goes on as it was started.
pub fn needs_restart(words: &Settings, before: &Settings, file: &Settings, setting: Setting) -> bool
    ensures { result ≡ (not (says words.now setting) && not (say_same setting before.now file.now)) }
{
    !says(words, setting) && !say_same(setting, before, file)
}

fn same_text(one: &Option<String>, other: &Option<String>) -> bool
    ensures { result ≡ same_said bytes_eq (option_map string_bytes one.now)
        (option_map string_bytes other.now) }
{
    match (one, other) {
        (Some(one), Some(other)) => one.as_str() == other.as_str(),
        (None, None) => true,
        _ => false,
    }
}

fn same_addr(one: &Option<Addr>, other: &Option<Addr>) -> bool
    ensures { result ≡ same_said same_address (option_map address_of one.now)
        (option_map address_of other.now) }
{
    match (one, other) {
        (Some(one), Some(other)) => is_same_addr(one, other),
        (None, None) => true,
        _ => false,
    }
}

fn same_loops(one: Option<Loops>, other: Option<Loops>) -> bool
    ensures { result ≡ same_said (λ a b. a.count == b.count) one other }
{
    match (one, other) {
        (Some(one), Some(other)) => one.count == other.count,
        (None, None) => true,
        _ => false,
    }
}

fn same_pairs(one: Option<PairLimit>, other: Option<PairLimit>) -> bool
    ensures { result ≡ same_said (λ a b. a.count == b.count) one other }
{
    match (one, other) {
        (Some(one), Some(other)) => one.count == other.count,
        (None, None) => true,
        _ => false,
    }
}

fn same_ms(one: Option<u32>, other: Option<u32>) -> bool
    ensures { result ≡ same_said (λ a b. a == b) one other }
{
    match (one, other) {
        (Some(one), Some(other)) => one == other,
        (None, None) => true,
        _ => false,
    }
}

fn same_mode(one: Option<u16>, other: Option<u16>) -> bool
    ensures { result ≡ same_said (λ a b. a == b) one other }
{
    match (one, other) {
        (Some(one), Some(other)) => one == other,
        (None, None) => true,
        _ => false,
    }
}

fn same_time(one: Option<Option<u32>>, other: Option<Option<u32>>) -> bool
    ensures { result ≡ same_said (same_said (λ a b. a == b)) one other }
{
    match (one, other) {
        (Some(one), Some(other)) => same_ms(one, other),
        (None, None) => true,
        _ => false,
    }
}

fn same_flag(one: Option<bool>, other: Option<bool>) -> bool
    ensures { result ≡ same_said same_truth one other }
{
    match (one, other) {
        (Some(one), Some(other)) => one == other,
        (None, None) => true,
        _ => false,
    }
}

fn is_json(format: Option<Format>) -> bool
    ensures { result ≡ is_json format }
{
    match format {
        Some(Format::Json) => true,
        Some(Format::Text) | None => false,
    }
}

// Where no format is said, the log is text.
fn same_format(one: Option<Format>, other: Option<Format>) -> bool
    ensures { result ≡ same_truth (is_json one) (is_json other) }
{
    is_json(one) == is_json(other)
}

fn say_same(setting: Setting, one: &Settings, other: &Settings) -> bool
    ensures { result ≡ say_same setting one.now other.now }
{
    match setting {
        Setting::Admin => same_text(&one.admin, &other.admin),
        Setting::AdminMode => same_mode(one.admin_mode, other.admin_mode),
        Setting::Loops => same_loops(one.loops, other.loops),
        Setting::Connections => same_pairs(one.pairs, other.pairs),
        Setting::ConnectionsPerRule => same_pairs(one.per_rule, other.per_rule),
        Setting::ConnectTimeout => same_time(one.connect_ms, other.connect_ms),
        Setting::ReplaceStale => same_flag(one.replaces_stale, other.replaces_stale),
        Setting::Log => same_text(&one.log, &other.log),
        Setting::LogFormat => same_format(one.log_format, other.log_format),
        Setting::Metrics => same_addr(&one.metrics, &other.metrics),
    }
}
