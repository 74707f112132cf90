//! A task of a loop with its connection.

ghost use Rattle.std.specs.Prelude.{◌≡◌, ◌⊎◌, ◌&&◌, ◌||◌, not, ℕ, None, IfSome, IfErr, OnOk, OnErr};
ghost use Rattle.readiness.specs.declared.tasks.Turn.{Turn};
ghost use Rattle.net.specs.Conn.{HasEnded, guard_of, handle_of, is_closed};
ghost use Rattle.net.specs.Limits.{moment_of};
ghost use Rattle.net.specs.Polled.{blocked_of};
ghost use Rattle.net.specs.Task.{time_of, turn_after, cause_of, unblocked};

use crate::limits::moment_in;
use crate::runs::Runs;
use crate::stream::Conn;
use crate::task::{Blocked, Cause, Next, Task};
use fd_descriptor::{Alarms, Deadline, Dir, Dirs, OutOfMemory, PollCell};
use readiness::{Place, RemoteAlarms, Turn, Why};
use std::io;
use std::sync::Arc;

/// A task, its connection, and what it said last.
#[derive(Drop)]
pub(crate) struct Served<T, R: Runs> {
    task: T,
    conn: Conn<R>,
    /// Where other threads wait for the connection, by clones.
    pub(crate) cell: Arc<PollCell>,
    place: Place,
    next: Next,
    // When its time is over.
    until: Deadline,
}

// What is known of a connection's directions after its loop told this.
fn told_of(blocked: Blocked, why: Why) -> Blocked
    ensures { result ≡ unblocked blocked why }
{
    match why {
        Why::Ready { read, write, .. } => Blocked {
            read: blocked.read && !read,
            write: blocked.write && !write,
        },
        _ => blocked,
    }
}

impl<T: Task<R>, R: Runs> Served<T, R> {
    /// A task that has done nothing yet: its first step comes by `again`.
    pub(crate) fn new(task: T, conn: Conn<R>, place: Place) -> Option<Served<T, R>>
        ensures task { IfSome result (λ served. served.task ≡ task) }
        ensures conn { IfSome result (λ served. served.conn ≡ conn) }
        ensures next { IfSome result (λ served. served.next ≡ Next.Again) }
    {
        let cell = conn.handle.cell().ok()?;
        Some(Served {
            task,
            conn,
            cell,
            place,
            next: Next::Again,
            until: Deadline::Never,
        })
    }

    // Wakes the threads that wait for the connection by clones.
    fn notify(&self, rt: &R, why: Why) {
        if let Why::Ready { read, write, .. } = why {
            if read {
                self.cell.notify(rt, Dir::Read);
            }
            if write {
                self.cell.notify(rt, Dir::Write);
            }
        }
    }

    // Keeps to the time that the task said.
    fn set_time(&mut self, now: u64, alarms: &RemoteAlarms<R>) -> Result<(), OutOfMemory>
        ensures set { OnOk result (self.new.until ≡ moment_of now (time_of self.old.next)) }
        ensures task { self.new.task ≡ self.old.task }
        ensures next { self.new.next ≡ self.old.next }
        ensures conn { self.new.conn ≡ self.old.conn }
    {
        let before = self.until;
        self.until = moment_in(now, self.next.time());
        match self.until {
            Deadline::At(at) => alarms.arm(self.place.second, Dirs::Read, at),
            Deadline::Never => {
                if before != Deadline::Never {
                    alarms.disarm(self.place.second, Dirs::Read);
                }
                Ok(())
            }
        }
    }

    /// Has the task go on, if what its loop tells is what it waits for. Where the alarm of its time
    /// is refused, it is over.
    pub(crate) fn go_on(
        &mut self,
        rt: &R,
        now: u64,
        alarms: &RemoteAlarms<R>,
        why: Why,
        ending: bool,
    ) -> Turn
        ensures passed { cause_of self.old.next self.old.until why ending ≡ None
            → (result ≡ Turn.Waits) × (self.new.task ≡ self.old.task)
            × (self.new.next ≡ self.old.next) × (self.new.until ≡ self.old.until) }
        ensures told { cause_of self.old.next self.old.until why ending ≡ None
            → blocked_of self.new.conn ≡ unblocked (blocked_of self.old.conn) why }
        ensures stepped { IfSome (cause_of self.old.next self.old.until why ending) (λ cause.
            T.steps self.old.task cause self.new.next self.new.task) }
        ensures turn { IfSome (cause_of self.old.next self.old.until why ending) (λ _.
            (result ≡ Turn.Over) ⊎ (result ≡ turn_after self.new.next (blocked_of self.new.conn))
            × (self.new.until ≡ moment_of now (time_of self.new.next))) }
    {
        self.notify(rt, why);
        self.conn.blocked = told_of(self.conn.blocked, why);
        let Some(cause) = self.next.cause(self.until, why, ending) else {
            return Turn::Waits;
        };
        self.next = self.task.step(rt, &mut self.conn, cause);
        if self.set_time(now, alarms).is_err() {
            return Turn::Over;
        }
        self.next.turn(self.conn.blocked)
    }

    /// Closes the connection of a task that is over, and lets its alarms go.
    pub(crate) fn close(self, alarms: &RemoteAlarms<R>) -> (io::Result<()>, Conn<R>)
        ensures closed { OnOk result.0 (HasEnded result.1) }
        ensures own { guard_of result.1 ≡ guard_of self.conn }
    {
        let Served {
            task: _,
            conn,
            cell: _,
            place,
            next: _,
            until: _,
        } = self;
        let mut conn = conn;
        let closed = conn.close();
        alarms.disarm(place.first, Dirs::Both);
        alarms.disarm(place.second, Dirs::Both);
        (closed, conn)
    }
}
