//! Who tells a connection that it is ready: the poller of its net, for threads that wait, or the one
//! of a loop, which has a task for it.

ghost use Rattle.std.specs.Prelude.{◌≡◌, IfOk, is_some};
ghost use Rattle.net.specs.Home.{is_loop};

use crate::closer::ServiceCloser;
use crate::runs::Runs;
use readiness::{LoopRemote, Poller, RemoteAlarms};
use std::io;
use std::sync::Arc;

/// A loop's place for a task, with what its connection needs of the loop.
#[derive(Drop)]
pub(crate) struct TaskPlace<'a, R: Runs> {
    pub(crate) poller: &'a Poller,
    pub(crate) remote: &'a Arc<LoopRemote>,
    /// The token under which its socket is told, which is the key of its deadlines.
    pub(crate) token: u64,
    /// What ends the service that has the task.
    pub(crate) closer: &'a ServiceCloser<R>,
}

/// Where a connection is told of what may go on.
#[derive(Drop)]
pub(crate) enum Home<'a, R: Runs> {
    /// By its net's poller.
    Net,
    /// By a loop's, under the token of its task.
    Loop(TaskPlace<'a, R>),
}

impl<'a, R: Runs> TaskPlace<'a, R> {
    // What a connection has of this place.
    fn link(&self, rt: R) -> io::Result<LoopLink<R>> {
        let seat = self.seat()?;
        let alarms = RemoteAlarms::new(rt, Arc::try_clone(self.remote)?);
        let closer = self.closer.try_clone()?;
        Ok(LoopLink {
            alarms,
            seat,
            closer,
        })
    }

    fn seat(&self) -> io::Result<TaskSeat> {
        Ok(TaskSeat {
            remote: Arc::try_clone(self.remote)?,
            token: self.token,
        })
    }
}

impl<'a, R: Runs> Home<'a, R> {
    /// What a connection has of the loop, where a loop has a task for it.
    pub(crate) fn link(&self, rt: R) -> io::Result<Option<LoopLink<R>>>
        ensures linked { IfOk result (λ link. is_some link ≡ is_loop self.now) }
    {
        match self {
            Home::Net => Ok(None),
            Home::Loop(place) => Ok(Some(place.link(rt)?)),
        }
    }

    /// Who hears that the connection was closed, where a loop has a task for it.
    pub(crate) fn seat(&self) -> io::Result<Option<TaskSeat>>
        ensures seated { IfOk result (λ seat. is_some seat ≡ is_loop self.now) }
    {
        match self {
            Home::Net => Ok(None),
            Home::Loop(place) => Ok(Some(place.seat()?)),
        }
    }
}

/// What all that share a connection have of the loop that has its task.
#[derive(Drop)]
pub(crate) struct LoopLink<R: Runs> {
    /// The alarms of its deadlines.
    pub(crate) alarms: RemoteAlarms<R>,
    /// The task, for who has it go on.
    pub(crate) seat: TaskSeat,
    /// What ends its service.
    pub(crate) closer: ServiceCloser<R>,
}

/// A task of a loop, for who tells it something from another thread.
#[derive(Drop)]
pub(crate) struct TaskSeat {
    remote: Arc<LoopRemote>,
    token: u64,
}

impl TaskSeat {
    /// Has the task go on, if it is there.
    pub(crate) fn tell<R: Runs>(&self, rt: &R) {
        self.remote.tell(rt, self.token);
    }
}
