//! The end of what a relay's threads share, once all of them have ended.

use crate::threads::Joined;
use relay_shared::bound_path::BoundPaths;
use relay_shared::inbox::Inbox;
use relay_shared::shared::Shared;
use std::alloc::Global;
use std::fs::Files;
use std::sync::Wait;

/// Removes these paths. The main thread's loop has closed its listeners, the others their
/// connections.
pub(crate) fn remove_paths<R: Files>(rt: &R, paths: BoundPaths, _joined: &Joined) {
    paths.end(rt);
}

/// That nothing is left in the inboxes of loops that have ended: their emptying alone makes one.
#[derive(Drop)]
pub(crate) struct Emptied {
    by_all: (),
}

/// Drops the sockets that no loop has set up.
pub(crate) fn empty_inboxes<R: Wait>(
    rt: &R,
    alloc: Global,
    shared: &Shared,
    _joined: &Joined,
) -> Emptied {
    for handle in shared.loops.iter() {
        handle.give_all(rt, &mut Inbox::empty(alloc));
    }
    Emptied { by_all: () }
}
