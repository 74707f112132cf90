//! A client that is awaited to say who it is, as a value. (its calls stand in `awaiting`: their clauses go
//! by definitions that name it, and its own can't)

ghost use Rattle.std.specs.Prelude.{◌≡◌};
ghost use Rattle.relay_conn.specs.HeaderMoment.{header_moment};

use crate::refused::Unheard;
use readiness::Sock;
use relay_facts::connection_facts::Acceptance;
use relay_shared::inbox::Counted;

/// A client that is awaited to say who it is.
#[derive(Drop)]
pub struct Awaiting {
    pub(crate) sock: Sock,
    pub(crate) acceptance: Acceptance,
    /// It is counted as a connection that stands.
    pub(crate) counted: Counted,
    /// The moment by which its header is to be whole.
    pub(crate) until: u64,
    /// The token under which the poller tells of it, once it does.
    pub(crate) token: u64,
    /// How it ends, where it does.
    pub(crate) failure: Unheard,
    ghost timed: { until ≡ header_moment acceptance },
}
