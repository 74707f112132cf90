//! Why a text is no configuration, and where.

ghost use Rattle.std.specs.Prelude.{◌≡◌};
ghost use Rattle.relay_config.specs.Fault.{item_spot, key_word, spot};

/// A key of a configuration.
#[derive(Clone, Copy, Debug, PartialEq, Eq, Drop)]
pub enum Key {
    AcceptsPerSource,
    Admin,
    Allow,
    At,
    Backlog,
    Backup,
    Balance,
    ConnectTimeout,
    Connections,
    ConnectionsPerRule,
    ConnectionsPerSource,
    Deny,
    Every,
    Fall,
    File,
    Format,
    FromClient,
    Health,
    Idle,
    Keepalive,
    Listen,
    Log,
    Loops,
    Metrics,
    Mode,
    Name,
    Path,
    ProxyProtocol,
    ReplaceStale,
    Resolve,
    Rise,
    Rule,
    Source,
    Target,
    Timeout,
    ToTarget,
    UserTimeout,
    Weight,
}

impl Key {
    /// The key as a configuration spells it.
    pub fn word(self) -> &'static str
        ensures { result.now ≡ key_word self }
    {
        match self {
            Key::AcceptsPerSource => "accepts_per_source",
            Key::Admin => "admin",
            Key::Allow => "allow",
            Key::At => "at",
            Key::Backlog => "backlog",
            Key::Backup => "backup",
            Key::Balance => "balance",
            Key::ConnectTimeout => "connect_timeout",
            Key::Connections => "connections",
            Key::ConnectionsPerRule => "connections_per_rule",
            Key::ConnectionsPerSource => "connections_per_source",
            Key::Deny => "deny",
            Key::Every => "every",
            Key::Fall => "fall",
            Key::File => "file",
            Key::Format => "format",
            Key::FromClient => "from_client",
            Key::Health => "health",
            Key::Idle => "idle",
            Key::Keepalive => "keepalive",
            Key::Listen => "listen",
            Key::Log => "log",
            Key::Loops => "loops",
            Key::Metrics => "metrics",
            Key::Mode => "mode",
            Key::Name => "name",
            Key::Path => "path",
            Key::ProxyProtocol => "proxy_protocol",
            Key::ReplaceStale => "replace_stale",
            Key::Resolve => "resolve",
            Key::Rise => "rise",
            Key::Rule => "rule",
            Key::Source => "source",
            Key::Target => "target",
            Key::Timeout => "timeout",
            Key::ToTarget => "to_target",
            Key::UserTimeout => "user_timeout",
            Key::Weight => "weight",
        }
    }
}

/// A table of a configuration: the whole, that of `admin` or `log`, a rule by its number, its table
/// of `proxy_protocol` or of `health`, or one of its targets. Numbers are from 0.
#[derive(Clone, Copy, Debug, PartialEq, Eq, Drop)]
pub enum Place {
    Top,
    Admin,
    Log,
    Rule(usize),
    Proxy(usize),
    Health(usize),
    Target(usize, usize),
}

/// A key of a table, or an item of the list that is its value, by its number from 0.
#[derive(Clone, Copy, Debug, PartialEq, Eq, Drop)]
pub struct Spot {
    pub place: Place,
    pub key: Key,
    pub item: Option<usize>,
}

impl Spot {
    /// A key of a table.
    pub fn of(place: Place, key: Key) -> Spot
        ensures { result ≡ spot place key }
    {
        Spot {
            place,
            key,
            item: None,
        }
    }

    /// An item of the list at a key.
    pub fn item(place: Place, key: Key, number: usize) -> Spot
        ensures { result ≡ item_spot place key number }
    {
        Spot {
            place,
            key,
            item: Some(number),
        }
    }
}

/// What is wrong with a key.
#[derive(Clone, Copy, Debug, PartialEq, Eq, Drop)]
pub enum Wrong {
    /// The table doesn't have it, and has to.
    Missing,
    /// Its value is of another type than the key's.
    Type,
    /// Its value is of the key's type, and spells nothing that the key may have.
    Value,
    /// It has no item, and has to.
    Empty,
    /// It has more items than it may have.
    TooMany,
    /// Another rule has its name, or a listener before it has its address.
    Twice,
    /// The reader of the configuration doesn't carry it out. No text has this fault by itself.
    Unserved,
}

/// The first fault of a text, or want of memory.
#[derive(Clone, Copy, Debug, PartialEq, Eq, Drop)]
pub enum Fault {
    /// Memory is refused. It says nothing of the text.
    Memory,
    /// The text has more than 1,048,576 bytes.
    TooLong,
    /// The text is no TOML from this line and column on, both from 1.
    Toml(usize, usize),
    /// The table has a key that isn't one of its own: in the order of keys, the one of this number.
    Unknown(Place, usize),
    /// Something is wrong here.
    At(Spot, Wrong),
}
