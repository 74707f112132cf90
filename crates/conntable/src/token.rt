//! A token is one `u64`, which the poller hands back with an event:
//!
//! | bits | field | greatest value |
//! |---|---|---|
//! | 0 to 11 | key, which no two entries have at once | 4,095 |
//! | 12 to 63 | id, which is never given twice | 4,503,599,627,370,494 |
//!
//! The id above, 4,503,599,627,370,495, is never given, so the greatest `u64` is no token.

ghost use Rattle.std.specs.Prelude.{◌≡◌, ◌<◌, ◌≤◌};
ghost use Rattle.conntable.specs.Token.{token_of, key_of, id_of};

/// How many keys there are, and how many entries a table holds at most.
pub const KEYS: u64 = 4096;

/// The last id that a table gives.
pub const LAST_ID: u64 = 4_503_599_627_370_494;

/// The token of this key and this id.
pub(crate) fn join(key: u64, id: u64) -> u64
    requires key { key < 4096 }
    requires id { id ≤ 4503599627370494 }
    ensures { result ≡ token_of key id }
{
    key + KEYS * id
}

/// The id in a token.
pub(crate) fn id_in(token: u64) -> u64
    ensures { result ≡ id_of token }
{
    token / KEYS
}

/// The key in a token.
pub(crate) fn key_in(token: u64) -> u64
    ensures key { result ≡ key_of token }
    ensures below { result < 4096 }
{
    token % KEYS
}
