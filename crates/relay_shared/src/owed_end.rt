//! What the end of a connection owes to a relay that finishes: its main thread sleeps until the last one
//! has ended.

use crate::inbox::Counted;
use crate::shared::Shared;

/// That a connection or a client is counted no more: the main thread is to be told, where it waits for the
/// last. It can't be dropped, so that none ends and tells nobody.
pub struct OwedEnd {
    by_end: (),
}

impl OwedEnd {
    /// That of a connection, which this has counted so far.
    pub fn of(counted: Counted) -> OwedEnd {
        drop(counted);
        OwedEnd { by_end: () }
    }

    /// That of a client that isn't served, which nothing counts any more.
    pub fn of_refused() -> OwedEnd {
        OwedEnd { by_end: () }
    }

    /// Tells the main thread, where it waits for the last.
    pub fn tell(self, shared: &Shared) {
        let OwedEnd { by_end: () } = self;
        shared.note_end();
    }
}
