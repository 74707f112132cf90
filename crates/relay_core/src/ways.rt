//! The sides of a pair, and the ways of its bytes between them.

ghost use Rattle.std.specs.Prelude.{◌≡◌};
ghost use Rattle.relay_core.specs.PairTasks.{source, sink, called_side};

use base_types::Dir;

/// A side of a pair.
#[derive(Clone, Copy, Debug, PartialEq, Eq, Drop)]
pub enum Side {
    /// Who connected to the relay.
    Client,
    /// Whom the relay connected to.
    Target,
}

/// A way of bytes through a pair.
#[derive(Clone, Copy, Debug, PartialEq, Eq, Drop)]
pub enum Way {
    /// From the client to the target.
    Up,
    /// From the target to the client.
    Down,
}

/// The side that a way reads from.
pub fn source_of(way: Way) -> Side
    ensures { result ≡ source way }
{
    match way {
        Way::Up => Side::Client,
        Way::Down => Side::Target,
    }
}

/// The side that a way writes to.
pub fn sink_of(way: Way) -> Side
    ensures { result ≡ sink way }
{
    match way {
        Way::Up => Side::Target,
        Way::Down => Side::Client,
    }
}

/// The side whose deadline a call of a way sets: a read its source's, a write its sink's. This
/// project's own rule.
pub fn deadline_side(way: Way, dir: Dir) -> Side
    ensures { result ≡ called_side way dir }
{
    match dir {
        Dir::Read => source_of(way),
        Dir::Write => sink_of(way),
    }
}
