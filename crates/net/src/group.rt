//! A group of connections, which one may end together, count, and wait for.

ghost use Rattle.std.specs.Prelude.{◌≡◌, IfOk, IfErr, vec_len};
ghost use Rattle.net.specs.Failures.{FailsForMemory};
ghost use Rattle.net.specs.Group.{FailsToJoin, group_of, group_in};

use crate::gone::Gone;
use crate::limits::moment_in;
use crate::members::{Joined, Members, NoneLeft};
use crate::running::Net;
use crate::runs::Runs;
use crate::shared::Shared;
use crate::socket_closer::SocketCloser;
use crate::stream::Conn;
use fd_descriptor::Deadline;
use std::io;
use std::sync::{Arc, Condvar, Mutex, MutexGuard};
use std::thread::Threads;
use std::time::Duration;

// What all have in common who are in a group.
#[derive(Drop)]
pub(crate) struct Common<R: Runs> {
    shared: Arc<Shared<R>>,
    members: Mutex<Members<R>>,
    // Told each time that somebody leaves.
    left: Condvar,
}

/// A group of connections, as those that one client has, or that one part of a program serves. It
/// keeps none of them open, and a connection may be in many groups.
#[derive(Drop)]
pub struct ConnGroup<R: Runs> {
    common: Arc<Common<R>>,
}

/// A connection's place in a group. Once it is let go, the connection isn't in the group any more.
pub struct Member<R: Runs> {
    common: Arc<Common<R>>,
    joined: Joined,
}

impl<R: Runs + Threads> ConnGroup<R> {
    /// A group in which nobody is.
    pub fn new(net: &Net<R>) -> io::Result<ConnGroup<R>>
        ensures fails { FailsForMemory result }
    {
        let shared = Arc::try_clone(&net.shared)?;
        let alloc = shared.alloc;
        let common = Common {
            shared,
            members: Mutex::new(Members::none(alloc)),
            left: Condvar::new(),
        };
        Ok(ConnGroup {
            common: Arc::new(alloc, common)?,
        })
    }
}

impl<R: Runs> ConnGroup<R> {
    /// The same group, for another thread.
    pub fn try_clone(&self) -> io::Result<ConnGroup<R>>
        ensures same { IfOk result (λ other. group_of other ≡ group_of self.now) }
        ensures fails { FailsForMemory result }
    {
        Ok(ConnGroup {
            common: Arc::try_clone(&self.common)?,
        })
    }

    /// Has a connection be in the group, for as long as who serves it keeps what this gives. Once
    /// the group was ended it is refused, as `NotConnected`.
    pub fn join(&self, conn: &Conn<R>) -> io::Result<Member<R>>
        ensures own { IfOk result (λ member. group_in member ≡ group_of self.now) }
        ensures fails { FailsToJoin result }
    {
        let closer = conn.socket_closer()?;
        let common = Arc::try_clone(&self.common)?;
        let joined = common.members.lock(&common.shared.rt).join(closer)?;
        Ok(Member { common, joined })
    }

    /// How many connections are in it now.
    pub fn count(&self) -> usize {
        let common = &*self.common;
        common.members.lock(&common.shared.rt).count()
    }

    /// Closes all connections that are in it, for all who share them, and has nobody join any more.
    /// It gives how many were still open. They are in the group until those who serve them let go.
    pub fn end(&self) -> usize {
        let common = &*self.common;
        let closers = common
            .members
            .lock(&common.shared.rt)
            .end(common.shared.alloc);
        close_all(closers.as_slice())
    }

    /// Waits until nobody is in it, for so long at most: `None` says that the time was over.
    pub fn wait(&self, within: Option<Duration>) -> Option<NoneLeft> {
        let common = &*self.common;
        let until = moment_in(common.shared.now(), within);
        let mut members = common.members.lock(&common.shared.rt);
        for _ in common.shared.rt.forever() {
            if let Some(none) = members.none_left() {
                return Some(none);
            }
            members = common.wait_on(members, until)?;
        }
        unreachable!()
    }
}

// Closes all, and says how many were open.
fn close_all<R: Runs>(closers: &[SocketCloser<R>]) -> usize {
    let mut open: usize = 0;
    for closer in closers {
        if closer.close().was_open() {
            open = open.saturating_add(1);
        }
    }
    open
}

impl<R: Runs> Common<R> {
    // Waits until somebody leaves, or may have, unless the moment has come.
    fn wait_on<'a>(
        &'a self,
        members: MutexGuard<'a, Members<R>>,
        until: Deadline,
    ) -> Option<MutexGuard<'a, Members<R>>> {
        let rt = self.shared.rt;
        let Deadline::At(at) = until else {
            return Some(self.left.wait(&rt, members));
        };
        let now = self.shared.now();
        if at <= now {
            return None;
        }
        let time = Duration::from_nanos(at - now);
        let (members, _) = self.left.wait_timeout(&rt, members, time);
        Some(members)
    }
}

impl<R: Runs> Drop for Member<R> {
    fn drop(self) {
        let Member { common, joined } = self;
        common.members.lock(&common.shared.rt).leave(joined);
        common.left.notify_all();
    }
}
