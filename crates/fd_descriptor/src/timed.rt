//! Calls that set their own deadline once they have the lock of their half: a caller who queues for
//! the lock so moves nobody else's. And the wait until a connection is made.

ghost use Rattle.std.specs.Prelude.{◌≡◌, ◌≤◌, ◌<◌, true, length, Err, IfOk, IfErr};
ghost use Rattle.rwloops.specs.declared.fault.Fault.{Fault};
ghost use Rattle.fd_descriptor.specs.FdHandle.{KeepsHandle, marks_of, saw_closed, saw_draining};
ghost use Rattle.fd_descriptor.specs.FdHandle.{closes_of, drains_of, HearsOn};
ghost use Rattle.fd_descriptor.specs.HandleCalls.{TimedReads, TimedWrites, Connects, MayTell};
ghost use Rattle.fd_descriptor.specs.HandleCalls.{SetsDeadline, IsOwnFault, IsRefusedWrite};
ghost use Rattle.fd_descriptor.specs.Entry.{IsEntry};

use crate::deadlines::Setting;
use crate::descriptor::{Fd, FdHandle};
use crate::half_use::{read_in, with_half, write_in};
use crate::poll_cell::{CellWaits, PollCell};
use crate::resource::{Alarms, HalfClose, Resource};
use base_types::Dir;
use deadline_core::{Deadline, Dirs};
use lockword::{Reading, Writing};
use rwloops::{Fault, TryRead, TryWrite, Waits, WriteFault};
use std::alloc::Allocator;
use std::sync::Wait;

/// A call that has the lock of its half, and has tried nothing yet.
#[derive(Drop)]
pub struct BegunCall<'a> {
    cell: &'a PollCell,
    dirs: Dirs,
}

impl<'a> BegunCall<'a> {
    /// Sets the deadline of the call's direction, as `FdHandle::set_read_deadline` and
    /// `set_write_deadline` do, for this call and for later ones, until it is set again.
    pub fn set_deadline<T: Wait, L: Alarms>(
        &self,
        rt: &T,
        deadline: Deadline,
        now: u64,
        alarms: &L,
    ) -> Result<(), Fault>
        ensures allowed { IfErr result (IsOwnFault SetsDeadline) }
    {
        self.cell
            .set(rt, alarms, Setting::new(self.dirs, deadline, now))
    }
}

/// How long calls may wait, for who counts that from the moment at which a call has its lock.
pub trait CallTimes {
    /// Sets the call's deadline, or leaves the one that there is. Where it fails, so does the call.
    fn begins(&self, call: &BegunCall<'_>) -> Result<(), Fault>
        ensures allowed { IfErr result (IsOwnFault SetsDeadline) };
}

// Reads from a half whose lock is held, once its deadline is set.
fn read_timed_in<H: TryRead, T: Wait, C: CallTimes>(
    rt: &T,
    cell: &PollCell,
    half: &mut H,
    buf: &mut [u8],
    times: &C,
) -> Result<usize, Fault>
    ensures within { IfOk result (λ count. count ≤ length buf.old) }
    ensures some { 0 < length buf.old → IfOk result (λ count. 0 < count) }
    ensures faults { IfErr result (IsOwnFault TimedReads) }
{
    let dirs = Dirs::Read;
    times.begins(&BegunCall { cell, dirs })?;
    read_in(rt, cell, half, buf)
}

// Writes to a half whose lock is held, once its deadline is set.
fn write_timed_in<H: TryWrite, T: Wait, C: CallTimes>(
    rt: &T,
    cell: &PollCell,
    half: &mut H,
    bytes: &[u8],
    times: &C,
) -> Result<usize, WriteFault>
    ensures whole { IfOk result (λ count. count ≡ length bytes.now) }
    ensures part { IfErr result (λ failed. failed.count ≤ length bytes.now) }
    ensures faults { IfErr result (λ failed. IsOwnFault TimedWrites failed.fault) }
    ensures untimed { IfErr result (λ failed.
        failed.fault ≡ Fault.OutOfMemory → failed.count ≡ 0) }
{
    let dirs = Dirs::Write;
    if let Err(fault) = times.begins(&BegunCall { cell, dirs }) {
        return Err(WriteFault { fault, count: 0 });
    }
    write_in(rt, cell, half, bytes)
}

// Waits until a half's connection is made, and says what came of it. A deadline or a close ends the
// wait, and leaves the half as it is.
fn connected_in<H: HalfClose, T: Wait>(rt: &T, cell: &PollCell, half: &mut H) -> Result<(), Fault>
    ensures faults { IfErr result (IsOwnFault Connects) }
{
    let mut waits = CellWaits::new(cell, rt);
    for _ in rt.forever() {
        if !half.is_connecting() {
            return match half.connected() {
                Ok(()) => Ok(()),
                Err(kind) => Err(Fault::Device(kind)),
            };
        }
        if let Err(refusal) = waits.wait(Dir::Write) {
            return Err(Fault::from(refusal));
        }
    }
    unreachable!()
}

impl<X: Resource, A: Allocator> FdHandle<X, A> {
    /// Reads as `read` does, once these times have set its deadline.
    pub fn read_timed<T: Wait, C: CallTimes>(
        &mut self,
        rt: &T,
        buf: &mut [u8],
        times: &C,
    ) -> Result<usize, Fault>
    where
        X::R: TryRead,
        ensures entry { IsEntry TimedReads self.old self.new result }
        ensures within { IfOk result (λ count. count ≤ length buf.old) }
        ensures some { 0 < length buf.old → IfOk result (λ count. 0 < count) }
    {
        let fd: &Fd<X, A> = &self.fd;
        with_half::<Reading, X, A, T, _, _>(rt, fd, &mut self.seat, |half| {
            read_timed_in(rt, &fd.cell, half, buf, times)
        })?
    }

    /// Writes as `write` does, once these times have set its deadline.
    pub fn write_timed<T: Wait, C: CallTimes>(
        &mut self,
        rt: &T,
        bytes: &[u8],
        times: &C,
    ) -> Result<usize, WriteFault>
    where
        X::W: TryWrite,
        ensures keeps { KeepsHandle self.old self.new }
        ensures heard { HearsOn self.old self.new }
        ensures no_close { closes_of self.new ≡ closes_of self.old }
        ensures no_drain { drains_of self.new ≡ drains_of self.old }
        ensures allowed { IfErr result (λ failed.
            MayTell TimedWrites (marks_of self.old) (marks_of self.new) failed.fault) }
        ensures closed { saw_closed self.old ≡ true
            → result ≡ Err (record { fault = Fault.Closed; count = 0 }) }
        ensures draining { saw_draining self.old ≡ true → IsRefusedWrite result }
        ensures whole { IfOk result (λ count. count ≡ length bytes.now) }
        ensures part { IfErr result (λ failed. failed.count ≤ length bytes.now) }
        ensures untimed { IfErr result (λ failed.
            failed.fault ≡ Fault.OutOfMemory → failed.count ≡ 0) }
    {
        let fd: &Fd<X, A> = &self.fd;
        match with_half::<Writing, X, A, T, _, _>(rt, fd, &mut self.seat, |half| {
            write_timed_in(rt, &fd.cell, half, bytes, times)
        }) {
            Ok(answer) => answer,
            Err(fault) => Err(WriteFault { fault, count: 0 }),
        }
    }

    /// Waits until the connection is made, after the writer before it, and says what came of it: a
    /// fault of the device where it was refused. A write deadline or a close ends the wait, and the
    /// connection goes on being made.
    pub fn connected<T: Wait>(&mut self, rt: &T) -> Result<(), Fault>
    where
        X::W: HalfClose,
        ensures entry { IsEntry Connects self.old self.new result }
    {
        let fd: &Fd<X, A> = &self.fd;
        with_half::<Writing, X, A, T, _, _>(rt, fd, &mut self.seat, |half| {
            connected_in(rt, &fd.cell, half)
        })?
    }
}
