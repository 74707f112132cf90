//! The configuration that a text is.

ghost use Rattle.std.specs.Prelude.{◌≡◌, ◌≢◌, ◌≤◌, Some, None, map, length, take, IfOk, IfErr, MatchResult};
ghost use Rattle.std.specs.Str.{IsUtf8};
ghost use Rattle.toml.specs.Parse.{parse_document};
ghost use Rattle.toml.specs.View.{table_view};
ghost use Rattle.relay_config.specs.Config.{SaysConfig, SaysFault, config_in, limits_in, rules_of};
ghost use Rattle.relay_config.specs.Entries.{config_entry, limits_entry, rule_entry};
ghost use Rattle.relay_config.specs.Fault.{Answers, IsNoToml, Reads};
ghost use Rattle.relay_config.specs.Fronts.{IsInColumn, IsInLine};

use crate::fault::{Fault, Key, Place};
use crate::items::items_in;
use crate::log::{Log, log_in};
use crate::rule::{Rule, rules_in};
use crate::service::{Service, service_of};
use crate::spelled::time_in;
use crate::table::known_alone;
use crate::values::number_in;
use std::alloc::Global;
use toml::Table;

/// The most bytes of a text: a mebibyte.
pub const MAX_BYTES: usize = 1_048_576;

/// The most rules of a configuration.
pub const MAX_RULES: usize = 1_024;

/// The most connections that may be asked for.
pub const MAX_CONNECTIONS: u32 = 50_000;

/// The limits of a relay, as far as the text says them: what is in force without it is its reader's.
#[derive(Clone, Copy, Debug, PartialEq, Eq, Drop)]
pub struct Limits {
    /// How many connections may stand at once: 1 to 50,000.
    pub connections: Option<u32>,
    /// How many of them may be those of one rule: 1 to 50,000.
    pub rule_connections: Option<u32>,
    /// How long a connect to a target may take, in milliseconds; with `Some(None)` for ever.
    pub connect_ms: Option<Option<u64>>,
}

/// A configuration.
#[derive(Drop)]
pub struct Config {
    pub limits: Limits,
    pub service: Service,
    /// Where ended and refused connections are told; with `None` nowhere.
    pub log: Option<Log>,
    pub rules: Vec<Rule>,
}

/// The keys of a configuration.
pub(crate) const KEYS: &[Key] = &[
    Key::Connections,
    Key::ConnectionsPerRule,
    Key::ConnectTimeout,
    Key::Loops,
    Key::ReplaceStale,
    Key::Metrics,
    Key::Admin,
    Key::Log,
    Key::Rule,
];

impl Config {
    /// The configuration that a text is, or its first fault, in this order: a text that is too
    /// long; one that is no TOML; then of each table a key that it may not have, and its keys in
    /// turn: `connections`, `connections_per_rule`, `connect_timeout`, `loops`, `replace_stale`,
    /// `metrics`, `admin` with `path` and `mode`, `log` with `file` and `format`, `rule`; of a rule
    /// `name`, `idle`, `balance`, `resolve`, `connections`, `connections_per_source`,
    /// `accepts_per_source`, `keepalive`, `user_timeout`, `backlog`, `source`, `mode`, `health` with
    /// `every`, `timeout`, `fall` and `rise`, `allow`, `deny`, `proxy_protocol` with `from_client`
    /// and `to_target`, `listen`, `target`; of a target `at`, `weight`, `backup`. `Memory` may come
    /// at any time.
    pub fn parse(alloc: Global, text: &[u8]) -> Result<Config, Fault>
        ensures config { IfOk result (λ config. SaysConfig text.now (config_entry config)) }
        ensures fault { IfErr result (λ fault. fault ≢ Fault.Memory → SaysFault text.now fault) }
    {
        if text.len() > MAX_BYTES {
            return Err(Fault::TooLong);
        }
        match table_of(alloc, text) {
            Ok(table) => config_of(alloc, &table),
            Err(fault) => Err(fault),
        }
    }
}

fn table_of(alloc: Global, text: &[u8]) -> Result<Table, Fault>
    ensures utf8 { IfOk result (λ table. IsUtf8 text.now) }
    ensures table { IfOk result (λ table. parse_document text.now ≡ Some (table_view table)) }
    ensures fault { IfErr result (λ fault. IsNoToml text.now fault) }
{
    match toml::table_from_slice(alloc, text) {
        Ok(table) => Ok(table),
        Err(error) => match error.span() {
            Some(span) => {
                let (line, column) = place_of(text, span.start);
                Err(Fault::Toml(line, column))
            }
            None => Err(Fault::Memory),
        },
    }
}

/// The line and the column of a byte, both from 1. A column counts characters.
fn place_of(text: &[u8], at: usize) -> (usize, usize)
    ensures line { IsInLine (take at text.now) result.0 }
    ensures column { IsInColumn (take at text.now) result.1 }
{
    let mut line = 1usize;
    let mut column = 1usize;
    for byte in &text[..at.min(text.len())] {
        if *byte == b'\n' {
            line = line.saturating_add(1);
            column = 1;
        } else if *byte < 0x80 || 0xbf < *byte {
            column = column.saturating_add(1);
        }
    }
    (line, column)
}

#[tactic(auto, unfolding(crate::specs::Config::config_in))]
fn config_of(alloc: Global, table: &Table) -> Result<Config, Fault>
    ensures { Answers config_entry result (config_in (table_view table.now)) }
{
    let limits = limits_of(table)?;
    let service = service_of(table)?;
    let log = log_in(alloc, table)?;
    let rules = rules_of(alloc, table)?;
    Ok(Config {
        limits,
        service,
        log,
        rules,
    })
}

#[tactic(auto, unfolding(crate::specs::Config::limits_in))]
fn limits_of(table: &Table) -> Result<Limits, Fault>
    ensures { Reads limits_entry result (limits_in (table_view table.now)) }
{
    known_alone(KEYS, Place::Top, table)?;
    let connections = number_in(table, Place::Top, Key::Connections, 1, MAX_CONNECTIONS)?;
    let each = number_in(
        table,
        Place::Top,
        Key::ConnectionsPerRule,
        1,
        MAX_CONNECTIONS,
    )?;
    let connect = time_in(table, Place::Top, Key::ConnectTimeout)?;
    Ok(Limits {
        connections,
        rule_connections: each,
        connect_ms: connect,
    })
}

#[tactic(auto, unfolding(crate::specs::Config::rules_of))]
fn rules_of(alloc: Global, table: &Table) -> Result<Vec<Rule>, Fault>
    ensures { Answers (λ found. map rule_entry found.items) result
        (rules_of (table_view table.now)) }
{
    let items = items_in(table, Place::Top, Key::Rule, MAX_RULES)?;
    rules_in(alloc, items)
}
