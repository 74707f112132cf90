//! What is wanted of each key, in words.

ghost use Rattle.std.specs.Prelude.{◌≡◌};
ghost use Rattle.relay_config.specs.Wanted.{wanted, wanted_type};

use crate::fault::{Key, Spot};

/// What a value isn't, which is of the key's type.
pub(crate) fn wanted(key: Key) -> &'static str
    ensures { result.now ≡ wanted key }
{
    match key {
        Key::ConnectTimeout | Key::Idle | Key::UserTimeout | Key::Resolve =>
            "no time (as 500ms, 30s, 5m, 2h, at most a day; or never)",
        Key::Connections | Key::ConnectionsPerRule | Key::ConnectionsPerSource =>
            "not from 1 to 50000",
        Key::AcceptsPerSource => "no rate (as 100/s, 30/m, 5/h; at most 1000000)",
        Key::Keepalive => "no time of whole seconds (as 30s, 5m, at most 32767s; or never)",
        Key::Loops => "not from 1 to 64",
        Key::Weight => "not from 0 to 65535",
        Key::Admin | Key::Path => "no path of a socket (1 to 100 bytes)",
        Key::Allow | Key::Deny | Key::FromClient =>
            "no network (as 10.0.0.0/8, 2001:db8::/32, 10.0.0.1)",
        Key::Every | Key::Timeout => "no time (as 500ms, 30s, 5m, 2h, at most a day)",
        Key::Fall | Key::Rise => "not from 1 to 100",
        Key::Backlog => "not from 1 to 65535",
        Key::Source => "no IP address (as 10.0.0.1, 2001:db8::1)",
        Key::ToTarget => "none of \"v1\", \"v2\"",
        Key::Mode => "no mode (0 and three octal digits, as 0660)",
        Key::Log | Key::File => "no path of a file (1 to 4095 bytes; - is standard error)",
        Key::Format => "none of \"text\", \"json\"",
        Key::Name => "no name (a letter, then letters, digits and \"-\", all small, at most 16)",
        Key::Balance => "none of \"round-robin\", \"least-connections\", \"first\", \"source\"",
        Key::Listen | Key::Metrics => {
            "no address to listen at (as tcp:0.0.0.0:443, tcp:[::]:443, unix:/run/x.sock)"
        }
        _ => "no address (as tcp:10.0.0.1:443, tcp:[::1]:443, unix:/run/x.sock)",
    }
}

/// The type that a key or an item has to have.
pub(crate) fn wanted_type(spot: Spot) -> &'static str
    ensures { result.now ≡ wanted_type spot }
{
    match (spot.key, spot.item) {
        (Key::Rule, None) => "a list of tables ([[rule]])",
        (Key::Target, None) => "a list of tables ([[rule.target]])",
        (Key::Listen | Key::Allow | Key::Deny | Key::FromClient, None) => "a list of texts",
        (Key::Admin, _) => "a path in quotes or a table ({ path = .., mode = .. })",
        (Key::Log, _) => "a path in quotes or a table ({ file = .., format = .. })",
        (Key::ProxyProtocol, _) => "a table ({ from_client = [..], to_target = .. })",
        (Key::Health, _) => "a table ({ every = .., timeout = .., fall = .., rise = .. })",
        (Key::Rule, Some(_)) | (Key::Target, Some(_)) => "a table",
        (Key::Connections | Key::ConnectionsPerRule | Key::ConnectionsPerSource, _) =>
            "a whole number",
        (Key::Loops | Key::Weight | Key::Backlog | Key::Fall | Key::Rise, _) => "a whole number",
        (Key::Backup | Key::ReplaceStale, _) => "true or false",
        _ => "a text in quotes",
    }
}
