//! A side of a connection: its descriptor, by the half that is read and the half that is written.

ghost use Rattle.std.specs.Prelude.{◌≡◌, true, IfOk, IfSome, OnOk};
ghost use Rattle.fd_descriptor.specs.TaskHalf.{IsHalfOf, IsHandleOf, KeepsHalf, is_under_way};
ghost use Rattle.fd_descriptor.specs.TaskHalf.{descriptor_of_half};
ghost use Rattle.fd_descriptor.specs.FdHandle.{descriptor_of};
ghost use Rattle.readiness.specs.Sockets.{is_tcp};
ghost use Rattle.relay_conn.specs.Side.{HasComeTo, IsWhole, connect_told, key_of_side};
ghost use Rattle.relay_core.specs.SourceState.{unknown_source};
ghost use Rattle.relay_shared.specs.Drained.{WasDrained};

use crate::refused::Refused;
use base_types::OutOfMemory;
use deadline_core::{Deadline, Dirs};
use fd_descriptor::{Alarms, FdHandle, TaskReader, TaskWriter};
use readiness::{Poller, Sock, SockRes};
use relay_core::SourceState;
use rwloops::Fault;
use std::alloc::Global;
use std::sync::Wait;

/// Nobody arms an alarm: for deadlines that have passed, and for none.
#[derive(Drop)]
struct NoAlarms;

impl Alarms for NoAlarms {
    fn arm(&self, _key: u64, _dirs: Dirs, _at: u64) -> Result<(), OutOfMemory> {
        Ok(())
    }

    fn disarm(&self, _key: u64, _dirs: Dirs) {}
}

/// A side: what is read of its descriptor, what is known of that, and what is written to it. Until
/// its writes begin their deadline has passed, so that asking for its connection never waits.
#[derive(Drop)]
pub(crate) struct OpenSide<R: Wait + Copy> {
    pub(crate) reader: TaskReader<SockRes, R>,
    pub(crate) state: SourceState,
    pub(crate) writer: TaskWriter<SockRes, R>,
}

/// A side that is to be closed, of which no call is under way. It can't be dropped, so that none is
/// left open, and it is closed once.
pub(crate) struct LeftSide {
    handle: FdHandle<SockRes>,
}

/// A side of a socket, of which the poller tells under this token. A read is under way, which a
/// drain lets go on.
pub(crate) fn open_side<R: Wait + Copy>(
    rt: R,
    alloc: Global,
    poller: &Poller,
    sock: Sock,
    token: u64,
) -> Result<OpenSide<R>, Refused>
    ensures whole { IfOk result IsWhole }
    ensures key { IfOk result (λ side. key_of_side side ≡ token) }
    ensures state { IfOk result (λ side. side.state ≡ unknown_source (is_tcp sock)) }
    ensures reads { IfOk result (λ side. is_under_way side.reader ≡ true) }
{
    let state = SourceState::new(sock.is_tcp());
    match poller.open(alloc, sock, token) {
        Ok(handle) => match side_of(rt, handle, state) {
            Some(side) => Ok(side),
            None => Err(Refused::Memory),
        },
        Err(fault) => Err(Refused::of_hold(fault)),
    }
}

// A side by this handle and one that shares its descriptor.
fn side_of<R: Wait + Copy>(
    rt: R,
    handle: FdHandle<SockRes>,
    state: SourceState,
) -> Option<OpenSide<R>>
    ensures whole { IfSome result IsWhole }
    ensures of { IfSome result (λ side. descriptor_of_half side.reader ≡ descriptor_of handle) }
    ensures state { IfSome result (λ side. side.state ≡ state) }
    ensures reads { IfSome result (λ side. is_under_way side.reader ≡ true) }
{
    let mut handle = handle;
    let mut other = handle.share().ok()?;
    other
        .set_write_deadline(&rt, Deadline::At(0), 0, &NoAlarms)
        .ok()?;
    let mut reader = TaskReader::new(rt, handle);
    let writer = TaskWriter::new(rt, other);
    reader.begin().ok()?;
    Some(OpenSide {
        reader,
        state,
        writer,
    })
}

/// Drains the side that is read by this half: the read and the write that are under way there go
/// on, and none begins. `Draining` says that it was drained before.
pub(crate) fn drain_side<R: Wait + Copy>(
    rt: &R,
    reader: &mut TaskReader<SockRes, R>,
) -> Result<(), Fault>
    ensures keeps { KeepsHalf reader.old reader.new }
    ensures under_way { is_under_way reader.new ≡ is_under_way reader.old }
    ensures drained { OnOk result (WasDrained (descriptor_of_half reader.old)) }
{
    let mut handle = reader.share()?;
    handle.drain(rt)
}

/// Whether the side that is read by this half takes a deadline: not where it is drained or closed.
pub(crate) fn takes_deadline<R: Wait + Copy>(
    reader: &mut TaskReader<SockRes, R>,
) -> Result<(), Fault>
    ensures keeps { KeepsHalf reader.old reader.new }
    ensures under_way { is_under_way reader.new ≡ is_under_way reader.old }
{
    let mut handle = reader.share()?;
    let word = handle.look();
    if word.closed {
        return Err(Fault::Closed);
    }
    if word.drain {
        return Err(Fault::Draining);
    }
    Ok(())
}

// What a connection came to of which a half says this whose deadline has passed. One that is drained can't
// be asked, and counts as made.
fn connect_told(answer: Result<(), Fault>) -> Option<Result<(), Fault>>
    ensures { result ≡ connect_told answer }
{
    match answer {
        Err(Fault::DeadlineExceeded) => None,
        Err(Fault::Draining) => Some(Ok(())),
        answer => Some(answer),
    }
}

impl<R: Wait + Copy> OpenSide<R> {
    /// What came of its connection; `None` says that it isn't made yet. One that is drained can't be
    /// asked, and counts as made: its next write finds the drain.
    pub(crate) fn connected(&mut self, rt: &R) -> Option<Result<(), Fault>>
        ensures came { HasComeTo result }
        ensures keeps { KeepsHalf self.old.writer self.new.writer }
        ensures kept { self.new ≡ record self.old { writer = self.new.writer } }
    {
        connect_told(connected_now(rt, &mut self.writer))
    }

    /// Its writes begin from now on.
    pub(crate) fn begin_writes(&mut self, rt: &R)
        ensures keeps { KeepsHalf self.old.writer self.new.writer }
        ensures kept { self.new ≡ record self.old { writer = self.new.writer } }
    {
        if let Ok(handle) = self.writer.share() {
            let mut handle = handle;
            let _ = handle.set_write_deadline(rt, Deadline::Never, 0, &NoAlarms);
        }
    }
}

// What came of the connection of a half, whose deadline has passed.
fn connected_now<R: Wait + Copy>(rt: &R, writer: &mut TaskWriter<SockRes, R>) -> Result<(), Fault>
    ensures keeps { KeepsHalf writer.old writer.new }
{
    let mut handle = writer.share()?;
    handle.connected(rt)
}

impl LeftSide {
    /// Ends the calls under way of both halves of a side.
    pub(crate) fn of<R: Wait + Copy>(
        reader: TaskReader<SockRes, R>,
        writer: TaskWriter<SockRes, R>,
    ) -> LeftSide
        ensures { IsHandleOf reader result.handle }
    {
        drop(writer);
        LeftSide {
            handle: reader.into_handle(),
        }
    }

    /// Closes it.
    pub(crate) fn close<R: Wait>(self, rt: &R) {
        let LeftSide { handle } = self;
        let mut handle = handle;
        let _ = handle.close(rt);
    }
}
