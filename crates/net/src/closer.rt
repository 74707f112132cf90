//! What ends a service, for all who may: by a time for its tasks, or at once.

ghost use Rattle.std.specs.Prelude.{◌≡◌, IfOk};
ghost use Rattle.net.specs.Asked.{IsAskedOf};
ghost use Rattle.net.specs.Service.{ends_of, loops_in};
ghost use Rattle.net.specs.Failures.{FailsForMemory};

use crate::asked::{Asked, ToldAll};
use crate::door::Door;
use crate::limits::moment_in;
use crate::runs::Runs;
use crate::shared::Shared;
use fd_descriptor::Deadline;
use std::io;
use std::sync::Arc;
use std::time::Duration;

/// What there is of a service for who ends it.
#[derive(Drop)]
pub(crate) struct Ends<R: Runs> {
    pub(crate) shared: Arc<Shared<R>>,
    /// The id of its listener in the net's table.
    pub(crate) listener: u64,
    pub(crate) doors: Vec<Arc<Door>>,
}

impl<R: Runs> Ends<R> {
    // Tells each loop by when its tasks end.
    fn tell(&self, until: Deadline) -> ToldAll
        ensures all { result ≡ record { loops = loops_in self.now; until = until } }
    {
        let mut told = ToldAll::none(until);
        let doors = self.doors.as_slice();
        for at in 0..doors.len() {
            told = told.and(doors[at].end_by(&self.shared.rt, until));
        }
        told
    }

    /// Says at each door that nobody comes any more.
    pub(crate) fn no_more(&self) {
        for door in self.doors.as_slice() {
            door.no_more(&self.shared.rt);
        }
    }

    /// Whether a loop goes on to an end that was asked for.
    pub(crate) fn is_ending(&self) -> bool {
        for door in self.doors.as_slice() {
            if door.is_ending(&self.shared.rt) {
                return true;
            }
        }
        false
    }

    /// Shuts each door, so that each loop ends its tasks.
    pub(crate) fn shut(&self) {
        for door in self.doors.as_slice() {
            door.shut(&self.shared.rt);
        }
    }
}

/// A handle that ends a service. Any thread may have one, and each task has the one of its service
/// (`Conn::closer`). It keeps nothing open.
#[derive(Drop)]
pub struct ServiceCloser<R: Runs> {
    pub(crate) ends: Arc<Ends<R>>,
}

impl<R: Runs> ServiceCloser<R> {
    /// Another handle that ends the same service.
    pub fn try_clone(&self) -> io::Result<ServiceCloser<R>>
        ensures same { IfOk result (λ other. ends_of other ≡ ends_of self.now) }
        ensures fails { FailsForMemory result }
    {
        Ok(ServiceCloser {
            ends: Arc::try_clone(&self.ends)?,
        })
    }

    /// Asks the service to end, and returns: who has connected and waits at its listener is taken in,
    /// and then it listens no more; each of its tasks has a step by `Cause::Ending` and may go on for
    /// so long, and those that stand then are ended. Of two times the earlier counts. `Service::wait`
    /// or `Service::shutdown` waits for the end.
    ///
    /// A task that asks goes on as any: what it answers still goes out.
    pub fn shutdown(&self, within: Duration) -> Asked
        ensures asked { IsAskedOf (ends_of self.now) within result }
    {
        let ends = &*self.ends;
        let until = moment_in(ends.shared.now(), Some(within));
        // The doors come first: who waits for the service looks at them once nobody accepts any more.
        let told = ends.tell(until);
        Asked::new(told, ends.shared.call_last(ends.listener))
    }
}
