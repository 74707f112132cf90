//! Who has what stands: a connection belongs to a task of one of the loops, a listener to a task of
//! the main thread.

ghost use Rattle.std.specs.Prelude.{◌≡◌, IfSome, IfNone};
ghost use Rattle.relay_shared.specs.Standing.{IsShownSide, IsWhere, NamesNoSide, token_on};

use crate::index::{Index, Standing};
use readiness::Place;
use relay_admin::{Shown, ShownSide};
use relay_facts::connection_facts::ConnectionFacts;
use relay_facts::served_rule::ServedRule;
use relay_facts::shown::shown_side;
use std::sync::Arc;

/// A connection as others know it.
#[derive(Drop)]
pub struct Connected {
    /// What is known of it, also whose it is.
    pub facts: Arc<ConnectionFacts>,
    /// The place of its task in its loop.
    pub place: Place,
}

/// What stands in a relay.
pub type RelayIndex = Index<Connected, Arc<ServedRule>>;

/// Where a side of a connection is: the place of the loop that has it, and the token of its task
/// there on that side.
#[derive(Clone, Copy, Debug, PartialEq, Eq)]
pub struct Whereabouts {
    pub loop_place: usize,
    pub token: u64,
}

// The token of a task on a side of its connection.
fn token_on(side: ShownSide, place: Place) -> u64
    ensures { result ≡ token_on side place }
{
    match side {
        ShownSide::Target => place.second,
        _ => place.first,
    }
}

/// Where the side of a connection is that has this id; none of a listener.
pub fn find_side(index: &RelayIndex, id: u64) -> Option<Whereabouts>
    ensures there { IfSome result (λ at. IsWhere index.now id at) }
    ensures none { IfNone result (NamesNoSide index.now id) }
{
    match index.find(id) {
        Some((side, Standing::Connection(connected))) => Some(Whereabouts {
            loop_place: connected.facts.loop_place,
            token: token_on(side, connected.place),
        }),
        Some((_, Standing::Listener(_))) => None,
        None => None,
    }
}

/// What is shown at this moment of the side of a connection that has this id; none of a listener.
pub fn shown_of_side(index: &RelayIndex, id: u64, now: u64) -> Option<Shown>
    ensures own { IfSome result (λ seen. seen.id ≡ id) }
    ensures side { IfSome result (λ seen. IsShownSide index.now id seen.side seen.rule) }
    ensures none { IfNone result (NamesNoSide index.now id) }
{
    match index.find(id) {
        Some((side, Standing::Connection(connected))) => {
            Some(shown_side(&connected.facts, id, side, now))
        }
        Some((_, Standing::Listener(_))) => None,
        None => None,
    }
}
