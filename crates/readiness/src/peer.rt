//! Who is at the other end of a connection, as the system's accept said it.

ghost use Rattle.std.specs.Prelude.{◌≡◌};
ghost use Rattle.std.specs.Option.{option_map};
ghost use Rattle.std.specs.Path.{path_bytes};
ghost use Rattle.readiness.specs.Peers.{path_kept, bytes_of};

use crate::addr::MAX_PATH_BYTES;
use arrayvec::ArrayString;
use std::ops::Deref;
use std::path::Path;

/// A stream of the system's with the address of its peer, where an accept gave one: for TCP as the
/// system has it, for a Unix socket the path.
#[derive(Drop)]
pub struct PeerStream<S, P> {
    pub(crate) stream: S,
    pub(crate) peer: Option<P>,
}

impl<S, P> Deref for PeerStream<S, P> {
    type Target = S;

    ghost deref_gives = { λ own stream. stream ≡ own.stream };

    fn deref(&self) -> &S {
        &self.stream
    }
}

/// What is kept of the path that an accept gave, where it gave one: nothing of one that is too long
/// for an address.
pub(crate) fn path_of(path: Option<Path<'_>>) -> Option<ArrayString<MAX_PATH_BYTES>>
    ensures { option_map bytes_of result ≡ path_kept (option_map path_bytes path.entry) }
{
    match path {
        Some(path) => ArrayString::from(path.as_str()).ok(),
        None => None,
    }
}
