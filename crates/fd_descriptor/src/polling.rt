//! The calls of a task on its half. Each begins where none is under way, tries without waiting for
//! the half, and is over where it has its answer; where the half would block it stays under way. It
//! has the lock of its half from its beginning to its end, as a call that waits has: a drain lets it
//! go on, and a close waits for its end.
//!
//! A try answers as a call that waits: closing comes before expiry, and expiry before what the half
//! gives. Nothing wakes a call under way: whoever closes the descriptor, or sets or lifts a
//! deadline, has to tell the loop, which then tries again. No call here takes memory.

ghost use Rattle.std.specs.Prelude.{◌≡◌, ◌≤◌, ◌<◌, true, false, length, Ok};
ghost use Rattle.std.specs.Prelude.{IfOk, IfErr, IfSome, IfNone, IsSomeAnd};
ghost use Rattle.rwloops.specs.TryNow.{ReadNow, AcceptNow, WriteNow, IsPartOf};
ghost use Rattle.fd_descriptor.specs.HandleCalls.{Begins, Reads, Accepts, Writes, Shuts};
ghost use Rattle.fd_descriptor.specs.HandleCalls.{SetsDeadline, IfFailed};
ghost use Rattle.fd_descriptor.specs.Polled.{fails_by, write_fails_by, is_over};
ghost use Rattle.fd_descriptor.specs.TaskHalf.{IsHalfOf, IsHandleOf, IsHalfEntry, IsPolled};
ghost use Rattle.fd_descriptor.specs.TaskHalf.{KeepsHalf, StaysUnderWay, IsKeptOut, MayTellHalf};
ghost use Rattle.fd_descriptor.specs.TaskHalf.{is_under_way, descriptor_of_half, marks_of_half};
ghost use Rattle.fd_descriptor.specs.TaskHalf.{operations_of_half, destroys_of_half};
ghost use Rattle.fd_descriptor.specs.TaskHalf.{held_by, heard_of_half, key_of_half, IsShutOfItsHalf};
ghost use Rattle.fd_descriptor.specs.TaskHalf.{UsesItsHalf};
ghost use Rattle.fd_descriptor.specs.FdHandle.{descriptor_of, marks_of, heard_of, DidNothing};
ghost use Rattle.fd_descriptor.specs.Deadlines.{HasSet};

use crate::deadlines::Setting;
use crate::descriptor::{Fd, FdHandle};
use crate::half_lock::{another, hold, put, rest};
use crate::half_use::{accept_now_in, prepare_read, read_now_in, shut_now_in, write_now_in};
use crate::resource::{Alarms, HalfClose, Resource};
use crate::task_half::{HalfState, TaskHalf};
use base_types::Dir;
use lockword::{Guards, Reading, Writing};
use rwloops::{Fault, Progress, TryAccept, TryRead, TryWrite, WriteFault};
use std::alloc::Allocator;
use std::sync::{Arc, Wait};

impl<D: Guards<X::R, X::W>, X: Resource, T: Wait + Copy, A: Allocator> TaskHalf<D, X, T, A> {
    /// A half of this handle's descriptor, of which no call is under way.
    pub fn new(rt: T, handle: FdHandle<X, A>) -> TaskHalf<D, X, T, A>
        ensures half { IsHalfOf handle result }
        ensures idle { is_under_way result ≡ false }
    {
        let FdHandle { fd, seat } = handle;
        let Some(free) = seat else { unreachable!() };
        let state = Some(HalfState::Idle(free));
        TaskHalf { rt, fd, state }
    }

    /// Ends the call under way, if there is one, and gives a handle back. Where a close waits for it
    /// and it is the last, it destroys the halves.
    pub fn into_handle(self) -> FdHandle<X, A>
        ensures { IsHandleOf self result }
    {
        let (fd, left) = self.end();
        let seat = Some(left);
        FdHandle { fd, seat }
    }

    /// A handle on this half's descriptor, which has seen the same. A call that is under way keeps
    /// its lock. What is done by the handle is done to the descriptor: a drain lets the call go on,
    /// a deadline holds for it, and a close waits for its end, so a task that has the call must not
    /// close by this handle. It takes no memory; refused is only a descriptor that is held too
    /// often.
    pub fn share(&mut self) -> Result<FdHandle<X, A>, Fault>
        ensures keeps { KeepsHalf self.old self.new }
        ensures under_way { is_under_way self.new ≡ is_under_way self.old }
        ensures kept { marks_of_half self.new ≡ marks_of_half self.old }
        ensures operations { operations_of_half self.new ≡ operations_of_half self.old }
        ensures no_destroy { destroys_of_half self.new ≡ destroys_of_half self.old }
        ensures half { held_by self.new ≡ held_by self.old }
        ensures shared { IfOk result (λ handle. descriptor_of handle
            ≡ descriptor_of_half self.old) }
        ensures seen { IfOk result (λ handle. marks_of handle ≡ marks_of_half self.old) }
        ensures idle { IfOk result DidNothing }
        ensures heard { IfOk result (λ handle. heard_of handle ≡ heard_of_half self.old) }
        ensures refused { IfErr result (λ fault. fault ≡ Fault.OutOfMemory) }
    {
        let Ok(fd) = Arc::try_clone(&self.fd) else {
            return Err(Fault::OutOfMemory);
        };
        let seat = Some(another(&self.fd.word, &mut self.state));
        Ok(FdHandle { fd, seat })
    }

    /// Whether a call is under way.
    pub fn is_under_way(&self) -> bool
        ensures { result ≡ is_under_way self.now }
    {
        match &self.state {
            Some(HalfState::UnderWay(_)) => true,
            _ => false,
        }
    }

    /// Begins a call, where none is under way. It queues for the lock where another has it, so an
    /// event loop has one task for each half of a descriptor. It is refused as a read that gets no
    /// lock, as `Closed`, `Draining` or `TooMany`.
    pub fn begin(&mut self) -> Result<(), Fault>
        ensures entry { IsHalfEntry Begins self.old self.new result }
        ensures no_destroy { destroys_of_half self.new ≡ destroys_of_half self.old }
    {
        let held = hold(&self.rt, &*self.fd, &mut self.state)?;
        put(&mut self.state, HalfState::UnderWay(held));
        Ok(())
    }

    /// Sets deadlines as asked, under the call that is under way, or else under one that begins now.
    /// Where they are refused no call is under way.
    pub fn set<L: Alarms>(&mut self, alarms: &L, setting: Setting) -> Result<(), Fault>
        ensures entry { IsHalfEntry SetsDeadline self.old self.new result }
        ensures set { HasSet (L.armed alarms.now) (L.refused alarms.now) (L.disarmed alarms.now)
            (key_of_half self.old) setting result }
    {
        let fd: &Fd<X, A> = &self.fd;
        let held = hold(&self.rt, fd, &mut self.state)?;
        let answer = fd.cell.set(&self.rt, alarms, setting);
        rest(&self.rt, fd, &mut self.state, held, answer.is_err());
        answer
    }
}

impl<X: Resource, T: Wait + Copy, A: Allocator> TaskHalf<Reading, X, T, A> {
    /// Reads at least one byte, or answers 0 for a buffer of length 0; `None` says that the half
    /// would block.
    pub fn poll_read(&mut self, buf: &mut [u8]) -> Option<Result<usize, Fault>>
    where
        X::R: TryRead,
        ensures keeps { KeepsHalf self.old self.new }
        ensures within { IfSome result (λ answer. IfOk answer (λ count. count ≤ length buf.old)) }
        ensures some { 0 < length buf.old
            → IfSome result (λ answer. IfOk answer (λ count. 0 < count)) }
        ensures empty { length buf.old ≡ 0
            → IsSomeAnd result (λ answer. IfErr answer (IsKeptOut self.old self.new)) }
        ensures allowed { IfSome result (λ answer.
            IfErr answer (MayTellHalf Reads self.old self.new)) }
        ensures polled { IsPolled fails_by X.R.tells (λ tries. ReadNow buf.new tries result)
            self.old self.new result }
        ensures over { IfSome result (λ answer. is_under_way self.new ≡ false) }
        ensures stays { IfNone result (StaysUnderWay self.old self.new) }
    {
        let fd: &Fd<X, A> = &self.fd;
        let mut held = match hold(&self.rt, fd, &mut self.state) {
            Ok(held) => held,
            Err(fault) => return Some(Err(fault)),
        };
        let prepared = prepare_read(&self.rt, &fd.cell, buf);
        let answer = read_now_in(prepared, held.half(&fd.word), buf);
        rest(&self.rt, fd, &mut self.state, held, answer.is_some());
        answer
    }

    /// Accepts one connection; `None` says that nobody waits to be accepted.
    pub fn poll_accept(&mut self) -> Option<Result<<X::R as TryAccept>::T, Fault>>
    where
        X::R: TryAccept,
        ensures keeps { KeepsHalf self.old self.new }
        ensures allowed { IfSome result (λ answer.
            IfErr answer (MayTellHalf Accepts self.old self.new)) }
        ensures polled { IsPolled fails_by X.R.tells (λ tries. AcceptNow tries result)
            self.old self.new result }
        ensures over { IfSome result (λ answer. is_under_way self.new ≡ false) }
        ensures stays { IfNone result (StaysUnderWay self.old self.new) }
    {
        let fd: &Fd<X, A> = &self.fd;
        let mut held = match hold(&self.rt, fd, &mut self.state) {
            Ok(held) => held,
            Err(fault) => return Some(Err(fault)),
        };
        let prepared = fd.cell.prepare(&self.rt, Dir::Read);
        let answer = accept_now_in(prepared, held.half(&fd.word));
        rest(&self.rt, fd, &mut self.state, held, answer.is_some());
        answer
    }
}

// Whether a write is over.
fn is_over(progress: &Progress) -> bool
    ensures { result ≡ is_over progress.now }
{
    match progress {
        Progress::Part(_) => false,
        _ => true,
    }
}

impl<X: Resource, T: Wait + Copy, A: Allocator> TaskHalf<Writing, X, T, A> {
    /// Writes all bytes, from the front; a `Part` says that the half would block before the rest.
    /// What it took is written, and the next call offers what comes after it.
    pub fn poll_write(&mut self, bytes: &[u8]) -> Progress
    where
        X::W: TryWrite,
        ensures keeps { KeepsHalf self.old self.new }
        ensures part { IsPartOf (length bytes.now) result }
        ensures allowed { IfFailed result (λ failed.
            MayTellHalf Writes self.old self.new failed.fault) }
        ensures polled { IsPolled write_fails_by X.W.tells
            (λ tries. WriteNow bytes.now tries result) self.old self.new result }
        ensures over { is_over result ≡ true → is_under_way self.new ≡ false }
        ensures stays { is_over result ≡ false → StaysUnderWay self.old self.new }
    {
        let fd: &Fd<X, A> = &self.fd;
        let mut held = match hold(&self.rt, fd, &mut self.state) {
            Ok(held) => held,
            Err(fault) => return Progress::Failed(WriteFault { fault, count: 0 }),
        };
        let prepared = fd.cell.prepare(&self.rt, Dir::Write);
        let progress = write_now_in(prepared, held.half(&fd.word), bytes);
        rest(&self.rt, fd, &mut self.state, held, is_over(&progress));
        progress
    }

    /// Shuts the half; `None` says that its connection isn't made yet. As for `close_write` a
    /// deadline that passes, or a close, gives the connection up.
    pub fn poll_shut(&mut self) -> Option<Result<(), Fault>>
    where
        X::W: HalfClose,
        ensures keeps { KeepsHalf self.old self.new }
        ensures allowed { IfSome result (λ answer.
            IfErr answer (MayTellHalf Shuts self.old self.new)) }
        ensures shut { IfSome result (λ answer. IsShutOfItsHalf X.W.shut_told
            self.old self.new answer) }
        ensures connecting { IfNone result (UsesItsHalf self.old self.new
            (λ first last. X.W.connecting last)) }
        ensures over { IfSome result (λ answer. is_under_way self.new ≡ false) }
        ensures stays { IfNone result (StaysUnderWay self.old self.new) }
    {
        let fd: &Fd<X, A> = &self.fd;
        let mut held = match hold(&self.rt, fd, &mut self.state) {
            Ok(held) => held,
            Err(fault) => return Some(Err(fault)),
        };
        let answer = shut_now_in(&self.rt, &fd.cell, held.half(&fd.word));
        rest(&self.rt, fd, &mut self.state, held, answer.is_some());
        answer
    }
}
