//! The time of an accept, counted from the moment at which it has the listener to itself.
//!
//! A deadline is set only while the listener's entry stands in its net's table, under the table's
//! lock: the last call takes the entry out before it sets its own, and so nobody sets one after it.

ghost use Rattle.std.specs.Prelude.{◌≡◌, true, Err, IfErr};
ghost use Rattle.base_types.specs.declared.direction.Dir.TheVariants as dir;
ghost use Rattle.deadline_core.specs.declared.deadline.Dirs.TheVariants as dirs;
ghost use Rattle.fd_descriptor.specs.FdHandle.{KeepsHandle, saw_closed};
ghost use Rattle.fd_descriptor.specs.HandleCalls.{SetsDeadline};
ghost use Rattle.rwloops.specs.declared.fault.Fault.{Fault};
ghost use Rattle.net.specs.Failures.{IsAcceptFault, IsFaultOf};
ghost use Rattle.net.specs.Limits.{begun_from, until_of};

use crate::guard::Guard;
use crate::limits::Limits;
use crate::runs::Runs;
use fd_descriptor::{
    CellWaits, Deadline, Dir, Dirs, Fault, FdHandle, PollCell, Setting, TaskReader, Waits,
};
use readiness::{NotedListenRes, Sock};
use std::time::Duration;

// The limits once an accept begins that has a time, all of which is its own.
fn begun(before: Limits, now: u64) -> Option<Limits>
    ensures { result ≡ begun_from before dir.Read now }
{
    let time = before.each(Dir::Read)?;
    Some(before.with_time(Dir::Read, Some(time), now))
}

// What these limits set for accepts.
fn setting_by(limits: Limits, now: u64) -> Setting
    ensures { result ≡ record {
      dirs = dirs.Read;
      deadline = until_of limits dir.Read;
      now = now;
    } }
{
    Setting::new(Dirs::Read, limits.until(Dir::Read), now)
}

// Sets the deadline of an accept that has the listener to itself, where accepts have a time.
fn begin<R: Runs>(guard: &Guard<R>, half: &mut TaskReader<NotedListenRes, R>) -> Result<(), Fault>
    ensures faults { IfErr result (IsFaultOf SetsDeadline) }
{
    let shared = &*guard.shared;
    let mut limits = guard.limits.lock(&shared.rt);
    let now = shared.now();
    let Some(next) = begun(*limits, now) else {
        return Ok(());
    };
    let Some(_listed) = shared.keep_listed(guard.id) else {
        return Err(Fault::Closed);
    };
    *limits = next;
    half.set(guard, setting_by(next, now))
}

// Waits until somebody may be accepted.
fn wait_for_client<R: Runs>(rt: &R, cell: &PollCell) -> Result<(), Fault>
    ensures faults { IfErr result IsAcceptFault }
{
    let mut waits = CellWaits::new(cell, rt);
    match waits.wait(Dir::Read) {
        Ok(()) => Ok(()),
        Err(refusal) => Err(Fault::from(refusal)),
    }
}

/// Accepts by a handle of its own, which is let go with it, and gives up when its time is over. It
/// has the listener to itself until it ends, as an accept without a time.
pub(crate) fn accept_timed<R: Runs>(
    guard: &Guard<R>,
    own: FdHandle<NotedListenRes>,
) -> Result<Sock, Fault>
    ensures faults { IfErr result IsAcceptFault }
{
    let rt = guard.shared.rt;
    let Ok(cell) = own.cell() else {
        return Err(Fault::OutOfMemory);
    };
    let mut half = TaskReader::new(rt, own);
    half.begin()?;
    begin(guard, &mut half)?;
    for _ in rt.forever() {
        if let Some(answer) = half.poll_accept() {
            return answer;
        }
        wait_for_client(&rt, &cell)?;
    }
    unreachable!()
}

/// Has each accept of a listener give up after so long, those that wait now too.
pub(crate) fn set_accept_time<R: Runs>(
    guard: &Guard<R>,
    handle: &mut FdHandle<NotedListenRes>,
    time: Option<Duration>,
) -> Result<(), Fault>
    ensures keeps { KeepsHandle handle.old handle.new }
    ensures closed { saw_closed handle.old ≡ true → result ≡ Err Fault.Closed }
    ensures faults { IfErr result (IsFaultOf SetsDeadline) }
{
    let shared = &*guard.shared;
    let mut limits = guard.limits.lock(&shared.rt);
    let now = shared.now();
    let Some(_listed) = shared.keep_listed(guard.id) else {
        return Err(Fault::Closed);
    };
    let before = *limits;
    let next = before.with_time(Dir::Read, time, now);
    *limits = next;
    handle.set_read_deadline(&shared.rt, next.until(Dir::Read), now, guard)
}

/// Lifts the deadline of accepts where its time is over, for accepts that know none, and says
/// whether the listener is still in its net. A deadline that is still to come is left to the accept
/// that set it.
pub(crate) fn lift_late<R: Runs>(guard: &Guard<R>, handle: &mut FdHandle<NotedListenRes>) -> bool
    ensures keeps { KeepsHandle handle.old handle.new }
{
    let shared = &*guard.shared;
    let limits = guard.limits.lock(&shared.rt);
    let now = shared.now();
    let Some(_listed) = shared.keep_listed(guard.id) else {
        return false;
    };
    match limits.until(Dir::Read) {
        Deadline::At(at) if now < at => {}
        _ => {
            let _ = handle.set_read_deadline(&shared.rt, Deadline::Never, now, guard);
        }
    }
    true
}
