//! The time of a call, counted from the moment at which it has its direction to itself.

ghost use Rattle.std.specs.Prelude.{◌≡◌, true, Err, IfErr};
ghost use Rattle.fd_descriptor.specs.FdHandle.{KeepsHandle, saw_closed};
ghost use Rattle.fd_descriptor.specs.HandleCalls.{SetsDeadline, IsOwnFault};
ghost use Rattle.net.specs.Failures.{IsFaultOf};
ghost use Rattle.rwloops.specs.declared.fault.Fault.{Fault};

use crate::guard::Guard;
use crate::limits::Limits;
use crate::runs::Runs;
use fd_descriptor::{BegunCall, CallTimes, Deadline, Dir, Fault, FdHandle};
use readiness::SockRes;

/// The times of one direction of a connection.
#[derive(Drop)]
pub(crate) struct DirTimes<'a, R: Runs> {
    pub(crate) guard: &'a Guard<R>,
    pub(crate) dir: Dir,
}

impl<'a, R: Runs> CallTimes for DirTimes<'a, R> {
    // The limits are locked until the deadline is set, so that who sets another meanwhile comes
    // before or after.
    fn begins(&self, call: &BegunCall<'_>) -> Result<(), Fault>
        ensures allowed { IfErr result (IsOwnFault SetsDeadline) }
    {
        let shared = &*self.guard.shared;
        let mut limits = self.guard.limits.lock(&shared.rt);
        let before = *limits;
        let time = before.each(self.dir);
        if time.is_none() {
            return Ok(());
        }
        let now = shared.now();
        let next = before.with_time(self.dir, time, now);
        *limits = next;
        call.set_deadline(&shared.rt, next.until(self.dir), now, self.guard)
    }
}

/// Sets the deadline of one direction, for the call under way and for later ones.
pub(crate) fn arm<R: Runs>(
    guard: &Guard<R>,
    handle: &mut FdHandle<SockRes>,
    dir: Dir,
    until: Deadline,
    now: u64,
) -> Result<(), Fault>
    ensures keeps { KeepsHandle handle.old handle.new }
    ensures closed { saw_closed handle.old ≡ true → result ≡ Err Fault.Closed }
    ensures faults { IfErr result (IsFaultOf SetsDeadline) }
{
    match dir {
        Dir::Read => handle.set_read_deadline(&guard.shared.rt, until, now, guard),
        Dir::Write => handle.set_write_deadline(&guard.shared.rt, until, now, guard),
    }
}

/// Sets the deadline of both directions, each the earlier of its call's own time and the moment for
/// all calls.
pub(crate) fn arm_both<R: Runs>(
    guard: &Guard<R>,
    handle: &mut FdHandle<SockRes>,
    limits: Limits,
    now: u64,
) -> Result<(), Fault>
    ensures keeps { KeepsHandle handle.old handle.new }
    ensures closed { saw_closed handle.old ≡ true → result ≡ Err Fault.Closed }
    ensures faults { IfErr result (IsFaultOf SetsDeadline) }
{
    arm(guard, handle, Dir::Read, limits.until(Dir::Read), now)?;
    arm(guard, handle, Dir::Write, limits.until(Dir::Write), now)
}
