//! What handles do on a descriptor, each under the lock of a half or under a reference.

ghost use Rattle.std.specs.Prelude.{◌≡◌, ◌≤◌, ◌<◌, true, length, Ok, Err, IfOk, IfErr};
ghost use Rattle.fd_descriptor.specs.FdHandle.{KeepsHandle, marks_of, saw_closed, saw_draining};
ghost use Rattle.fd_descriptor.specs.FdHandle.{closes_of, destroys_of, drains_of, HearsOn};
ghost use Rattle.fd_descriptor.specs.HandleCalls.{IsLockFault, MayTell, HasEnded};
ghost use Rattle.fd_descriptor.specs.HandleCalls.{IsRefusedWrite};
ghost use Rattle.fd_descriptor.specs.HandleCalls.{TellsWhoClosed, TellsOwnDestroy, WhereEvicted};
ghost use Rattle.fd_descriptor.specs.HandleCalls.{Reads, Accepts, Writes, Shuts, SetsDeadline};
ghost use Rattle.fd_descriptor.specs.HandleCalls.{Closes};
ghost use Rattle.fd_descriptor.specs.Entry.{IsEntry, IsShutAtHome};
ghost use Rattle.fd_descriptor.specs.FdHandle.{key_of};
ghost use Rattle.fd_descriptor.specs.Deadlines.{HasSet, setting_of};
ghost use Rattle.fd_descriptor.specs.Parking.{WasEvicted};
ghost use Rattle.deadline_core.specs.declared.deadline.Dirs.TheVariants as dirs;

use crate::close::{AtEviction, Nobody, close_by};
use crate::deadlines::Setting;
use crate::descriptor::{Fd, FdHandle};
use crate::half_use::{accept_in, read_in, shut_connected, with_half, write_in};
use crate::leave::{leave, lock_fault};
use crate::poll_cell::CellWaits;
use crate::resource::{Alarms, HalfClose, Resource};
use deadline_core::{Deadline, Dirs};
use fdmutex::{decref, incref};
use lockword::{Reading, Writing};
use rwloops::{Fault, TryAccept, TryRead, TryWrite, WriteFault};
use std::alloc::Allocator;
use std::sync::Wait;

impl<X: Resource, A: Allocator> FdHandle<X, A> {
    /// Reads at least one byte, or answers 0 for a buffer of length 0; one reader at a time.
    pub fn read<T: Wait>(&mut self, rt: &T, buf: &mut [u8]) -> Result<usize, Fault>
    where
        X::R: TryRead,
        ensures entry { IsEntry Reads self.old self.new result }
        ensures within { IfOk result (λ count. count ≤ length buf.old) }
        ensures some { 0 < length buf.old → IfOk result (λ count. 0 < count) }
        ensures empty { length buf.old ≡ 0
            → IfErr result (IsLockFault (marks_of self.old) (marks_of self.new)) }
    {
        let fd: &Fd<X, A> = &self.fd;
        with_half::<Reading, X, A, T, _, _>(rt, fd, &mut self.seat, |half| {
            read_in(rt, &fd.cell, half, buf)
        })?
    }

    /// Accepts one connection; one caller at a time, as for reads.
    pub fn accept<T: Wait>(&mut self, rt: &T) -> Result<<X::R as TryAccept>::T, Fault>
    where
        X::R: TryAccept,
        ensures entry { IsEntry Accepts self.old self.new result }
    {
        let fd: &Fd<X, A> = &self.fd;
        with_half::<Reading, X, A, T, _, _>(rt, fd, &mut self.seat, |half| {
            accept_in(rt, &fd.cell, half)
        })?
    }

    /// Writes all bytes, or says how many were taken; one writer at a time.
    pub fn write<T: Wait>(&mut self, rt: &T, bytes: &[u8]) -> Result<usize, WriteFault>
    where
        X::W: TryWrite,
        ensures keeps { KeepsHandle self.old self.new }
        ensures heard { HearsOn self.old self.new }
        ensures no_close { closes_of self.new ≡ closes_of self.old }
        ensures no_drain { drains_of self.new ≡ drains_of self.old }
        ensures allowed { IfErr result (λ failed.
            MayTell Writes (marks_of self.old) (marks_of self.new) failed.fault) }
        ensures closed { saw_closed self.old ≡ true
            → result ≡ Err (record { fault = Fault.Closed; count = 0 }) }
        ensures draining { saw_draining self.old ≡ true → IsRefusedWrite result }
        ensures whole { IfOk result (λ count. count ≡ length bytes.now) }
        ensures part { IfErr result (λ failed. failed.count ≤ length bytes.now) }
        ensures nothing { IfErr result (λ failed. failed.fault ≡ Fault.TooMany
            → failed.count ≡ 0) }
        ensures nothing_draining { IfErr result (λ failed. failed.fault ≡ Fault.Draining
            → failed.count ≡ 0) }
    {
        let fd: &Fd<X, A> = &self.fd;
        match with_half::<Writing, X, A, T, _, _>(rt, fd, &mut self.seat, |half| {
            write_in(rt, &fd.cell, half, bytes)
        }) {
            Ok(answer) => answer,
            Err(fault) => Err(WriteFault { fault, count: 0 }),
        }
    }

    /// Shuts the write half, after the writer before it, and where the connection isn't made yet
    /// after that. A deadline refuses no shut: one that passes while the connection is being made
    /// ends the wait, and gives the connection up.
    pub fn close_write<T: Wait>(&mut self, rt: &T) -> Result<(), Fault>
    where
        X::W: HalfClose,
        ensures entry { IsEntry Shuts self.old self.new result }
        ensures shut { IsShutAtHome X.W.shut_told self.old self.new result }
    {
        let fd: &Fd<X, A> = &self.fd;
        match with_half::<Writing, X, A, T, _, _>(rt, fd, &mut self.seat, |half| {
            shut_connected(rt, half, &mut CellWaits::new(&fd.cell, rt))
        })? {
            Ok(()) => Ok(()),
            Err(kind) => Err(Fault::Device(kind)),
        }
    }

    fn set<T: Wait, L: Alarms>(&mut self, rt: &T, alarms: &L, setting: Setting) -> Result<(), Fault>
        ensures entry { IsEntry SetsDeadline self.old self.new result }
        ensures set { HasSet (L.armed alarms.now) (L.refused alarms.now) (L.disarmed alarms.now)
            (key_of self.old) setting result }
    {
        let Some(seat) = self.seat.take() else {
            unreachable!()
        };
        let held = match incref(rt, &self.fd.word, seat) {
            Ok(held) => held,
            Err((left, refusal)) => {
                self.seat = Some(left);
                return Err(lock_fault(refusal));
            }
        };
        let answer = self.fd.cell.set(rt, alarms, setting);
        self.seat = Some(leave::<X>(&self.fd.word, decref(&self.fd.word, held)));
        answer
    }

    /// Sets the deadline of both directions, for calls that wait now and for later ones, until it
    /// is set again. One that is at most `now` has passed at once. A descriptor that is draining
    /// refuses it, as all calls that begin, and keeps the deadline that it has.
    pub fn set_deadline<T: Wait, L: Alarms>(
        &mut self,
        rt: &T,
        deadline: Deadline,
        now: u64,
        alarms: &L,
    ) -> Result<(), Fault>
        ensures entry { IsEntry SetsDeadline self.old self.new result }
        ensures set { HasSet (L.armed alarms.now) (L.refused alarms.now) (L.disarmed alarms.now)
            (key_of self.old) (setting_of dirs.Both deadline now) result }
    {
        self.set(rt, alarms, Setting::new(Dirs::Both, deadline, now))
    }

    /// Sets the deadline of reads and accepts. The three differ in their directions alone; each is
    /// a call of Go's `net.Conn`.
    pub fn set_read_deadline<T: Wait, L: Alarms>(
        &mut self,
        rt: &T,
        deadline: Deadline,
        now: u64,
        alarms: &L,
    ) -> Result<(), Fault>
        ensures entry { IsEntry SetsDeadline self.old self.new result }
        ensures set { HasSet (L.armed alarms.now) (L.refused alarms.now) (L.disarmed alarms.now)
            (key_of self.old) (setting_of dirs.Read deadline now) result }
    {
        self.set(rt, alarms, Setting::new(Dirs::Read, deadline, now))
    }

    /// Sets the deadline of writes.
    pub fn set_write_deadline<T: Wait, L: Alarms>(
        &mut self,
        rt: &T,
        deadline: Deadline,
        now: u64,
        alarms: &L,
    ) -> Result<(), Fault>
        ensures entry { IsEntry SetsDeadline self.old self.new result }
        ensures set { HasSet (L.armed alarms.now) (L.refused alarms.now) (L.disarmed alarms.now)
            (key_of self.old) (setting_of dirs.Write deadline now) result }
    {
        self.set(rt, alarms, Setting::new(Dirs::Write, deadline, now))
    }

    /// Closes the descriptor for all handles: calls that wait end as `Closed`, and this one answers
    /// once the halves are destroyed. `Device` is the fault of destroying them, where this call
    /// did; `Closed` says that somebody closed before, `TooMany` that the descriptor is still open.
    /// One that is draining is closed as any other.
    pub fn close<T: Wait>(&mut self, rt: &T) -> Result<(), Fault>
        ensures keeps { KeepsHandle self.old self.new }
        ensures heard { HearsOn self.old self.new }
        ensures no_drain { drains_of self.new ≡ drains_of self.old }
        ensures closed { saw_closed self.old ≡ true → result ≡ Err Fault.Closed }
        ensures allowed { IfErr result (MayTell Closes (marks_of self.old) (marks_of self.new)) }
        ensures ended { HasEnded result (marks_of self.new) }
        ensures closer { TellsWhoClosed result (closes_of self.old) (closes_of self.new) }
        ensures destroyer { TellsOwnDestroy result (destroys_of self.old) (destroys_of self.new) }
        ensures evicted { WhereEvicted result WasEvicted }
    {
        self.close_telling(rt, &Nobody)
    }

    /// Closes as `close` does, and tells this once: when the calls that wait were sent out, and
    /// before it waits for the last user. A close that is refused, as `Closed` or `TooMany`, tells
    /// nobody. An event loop ends its own calls under way before it closes, since it would wait for
    /// itself.
    pub fn close_telling<T: Wait, E: AtEviction>(&mut self, rt: &T, who: &E) -> Result<(), Fault>
        ensures keeps { KeepsHandle self.old self.new }
        ensures heard { HearsOn self.old self.new }
        ensures no_drain { drains_of self.new ≡ drains_of self.old }
        ensures closed { saw_closed self.old ≡ true → result ≡ Err Fault.Closed }
        ensures allowed { IfErr result (MayTell Closes (marks_of self.old) (marks_of self.new)) }
        ensures ended { HasEnded result (marks_of self.new) }
        ensures closer { TellsWhoClosed result (closes_of self.old) (closes_of self.new) }
        ensures destroyer { TellsOwnDestroy result (destroys_of self.old) (destroys_of self.new) }
        ensures evicted { WhereEvicted result WasEvicted }
        ensures told { WhereEvicted result (E.told who.now) }
    {
        close_by(rt, &self.fd, &mut self.seat, who)
    }
}
