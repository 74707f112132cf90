//! What a task copies through: two descriptors, of which one is read and the other written, by
//! calls that give way where they would wait.

ghost use Rattle.std.specs.Prelude.{◌≡◌, ◌≤◌, ◌<◌, ◌↔◌, length, true, false, Some, None};
ghost use Rattle.std.specs.Prelude.{OnOk, IfOk, IfErr, IfSome, IfNone};
ghost use Rattle.base_types.specs.declared.direction.Dir.{Dir};
ghost use Rattle.fd_descriptor.specs.TaskHalf.{is_under_way};
ghost use Rattle.relay_conn.specs.Deadlines.{IsTimed, IsOver};
ghost use Rattle.relay_core.specs.SourceState.{resumed, ReadsAll};

use crate::way_time::WayTime;
use base_types::Dir;
use fd_descriptor::{TaskReader, TaskWriter};
use readiness::SockRes;
use relay_core::{PollGate, SourceState};
use relay_facts::clock::Moments;
use rwloops::{Fault, Progress, WriteFault};
use std::sync::Wait;

/// Reads from `source` and writes to `target`. With an idle time each read and each write that
/// begins gives up that long from then. Its loop tells when that moment has come: the gate itself
/// ends no call that is under way, and refuses one that begins too late.
///
/// A source that is known to be empty isn't read, and the answer is that it would block. A close or
/// a drain that ends the read is told where its way is resumed next, as after a read that did block.
#[derive(Drop)]
pub(crate) struct TaskGate<R: Wait + Copy, C> {
    pub(crate) time: WayTime<C>,
    pub(crate) source: TaskReader<SockRes, R>,
    pub(crate) source_state: SourceState,
    pub(crate) target: TaskWriter<SockRes, R>,
    /// The direction of the call that would have blocked since its way was resumed, if one would
    /// have.
    blocked: Option<Dir>,
}

impl<R: Wait + Copy, C: Moments> TaskGate<R, C> {
    /// A gate between these halves, of which nothing was called yet.
    pub(crate) fn new(
        time: WayTime<C>,
        source: TaskReader<SockRes, R>,
        source_state: SourceState,
        target: TaskWriter<SockRes, R>,
    ) -> TaskGate<R, C>
        ensures time { result.time ≡ time }
        ensures source { result.source ≡ source }
        ensures state { result.source_state ≡ source_state }
        ensures target { result.target ≡ target }
    {
        TaskGate {
            time,
            source,
            source_state,
            target,
            blocked: None,
        }
    }

    /// The way of this gate is resumed; `stop_ahead` is what the poller told of its source, where it
    /// is resumed for that.
    pub(crate) fn resume(&mut self, stop_ahead: bool)
        ensures resumed { self.new ≡ record self.old {
          source_state = resumed self.old.source_state stop_ahead;
          blocked = None;
        } }
    {
        self.source_state.resume(stop_ahead);
        self.blocked = None;
    }

    // Begins a read, where none is under way.
    fn begin_read(&mut self) -> Result<(), Fault>
        ensures begun { OnOk result (is_under_way self.new.source ≡ true) }
        ensures timed { OnOk result (IsTimed (is_under_way self.old.source) self.old.time.idle.idle_ms
            self.old.time.deadlines self.new.time.deadlines Dir.Read) }
        ensures state { self.new.source_state ≡ self.old.source_state }
        ensures target { self.new.target ≡ self.old.target }
        ensures idle { self.new.time.idle ≡ self.old.time.idle }
    {
        if self.source.is_under_way() {
            return Ok(());
        }
        self.source.begin()?;
        self.time.begin(Dir::Read)
    }

    // Begins a write, where none is under way.
    fn begin_write(&mut self) -> Result<(), Fault>
        ensures begun { OnOk result (is_under_way self.new.target ≡ true) }
        ensures timed { OnOk result (IsTimed (is_under_way self.old.target) self.old.time.idle.idle_ms
            self.old.time.deadlines self.new.time.deadlines Dir.Write) }
        ensures source { self.new.source ≡ self.old.source }
        ensures state { self.new.source_state ≡ self.old.source_state }
        ensures idle { self.new.time.idle ≡ self.old.time.idle }
    {
        if self.target.is_under_way() {
            return Ok(());
        }
        self.target.begin()?;
        self.time.begin(Dir::Write)
    }

    // Reads, unless nothing is left there, and notes what it gave.
    fn read(&mut self, buf: &mut [u8]) -> Option<Result<usize, Fault>>
        ensures within { IfSome result (λ answer. IfOk answer (λ count. count ≤ length buf.old)) }
        ensures some { 0 < length buf.old → IfSome result (λ answer. IfOk answer (λ count.
            0 < count)) }
        ensures blocked { IfNone result (self.new.blocked ≡ Some Dir.Read) }
        ensures noted { IfSome result (λ answer. IfOk answer (λ count.
            self.new.source_state.is_empty ≡ true
            ↔ ReadsAll self.old.source_state (length buf.old) count)) }
        ensures unread { IfNone result (self.new.source_state ≡ self.old.source_state) }
        ensures empty { IfSome result (λ answer. OnOk answer
            (self.old.source_state.is_empty ≡ false)) }
        ensures target { self.new.target ≡ self.old.target }
        ensures stays { IfNone result (is_under_way self.new.source ≡ true) }
        ensures waits { IfNone result (IsTimed (is_under_way self.old.source)
            self.old.time.idle.idle_ms self.old.time.deadlines self.new.time.deadlines Dir.Read) }
        ensures ended { IfSome result (λ answer. OnOk answer
            (is_under_way self.new.source ≡ false)) }
        ensures over { IfSome result (λ answer. OnOk answer (IsOver (is_under_way self.old.source)
            self.old.time.idle.idle_ms self.old.time.deadlines self.new.time.deadlines Dir.Read)) }
    {
        if let Err(fault) = self.begin_read() {
            return Some(Err(fault));
        }
        if self.source_state.is_empty {
            self.blocked = Some(Dir::Read);
            return None;
        }
        let Some(answer) = self.source.poll_read(buf) else {
            self.blocked = Some(Dir::Read);
            return None;
        };
        self.time.end(Dir::Read);
        if let Ok(count) = answer {
            self.source_state.note_read(buf.len(), count);
        }
        Some(answer)
    }

    // Writes. A write of which a part was taken stays under way: the rest is offered to the same
    // call.
    fn write(&mut self, bytes: &[u8]) -> Option<Result<usize, WriteFault>>
        ensures within { IfSome result (λ answer. IfOk answer (λ count. count ≤ length bytes.now)) }
        ensures some { 0 < length bytes.now → IfSome result (λ answer. IfOk answer (λ count.
            0 < count)) }
        ensures failed { IfSome result (λ answer. IfErr answer (λ failed.
            failed.count ≤ length bytes.now)) }
        ensures blocked { IfNone result (self.new.blocked ≡ Some Dir.Write) }
        ensures stays { IfNone result (is_under_way self.new.target ≡ true) }
        ensures waits { IfNone result (IsTimed (is_under_way self.old.target)
            self.old.time.idle.idle_ms self.old.time.deadlines self.new.time.deadlines Dir.Write) }
        ensures part { IfSome result (λ answer. IfOk answer (λ count. count < length bytes.now
            → IsTimed (is_under_way self.old.target) self.old.time.idle.idle_ms
            self.old.time.deadlines self.new.time.deadlines Dir.Write)) }
        ensures over { IfSome result (λ answer. IfOk answer (λ count. count ≡ length bytes.now
            → IsOver (is_under_way self.old.target) self.old.time.idle.idle_ms
            self.old.time.deadlines self.new.time.deadlines Dir.Write)) }
        ensures source { self.new.source ≡ self.old.source }
        ensures state { self.new.source_state ≡ self.old.source_state }
    {
        if let Err(fault) = self.begin_write() {
            return Some(Err(WriteFault { fault, count: 0 }));
        }
        match self.target.poll_write(bytes) {
            Progress::Part(0) => {
                self.blocked = Some(Dir::Write);
                None
            }
            Progress::Part(count) => Some(Ok(count)),
            Progress::Whole => {
                self.time.end(Dir::Write);
                Some(Ok(bytes.len()))
            }
            Progress::Failed(failed) => {
                self.time.end(Dir::Write);
                Some(Err(failed))
            }
        }
    }
}

impl<R, C> PollGate for TaskGate<R, C>
where
    R: Wait + Copy,
    C: Moments,
{
    // What a socket carried can't be told.
    ghost tells = { λ _ _. ⊥ };

    ghost takes = { λ offered count. (0 < count) × (count ≤ offered) };

    ghost blocked = { λ gate dir. gate.blocked ≡ Some dir };

    fn poll_read(&mut self, buf: &mut [u8]) -> Option<Result<usize, Fault>> {
        self.read(buf)
    }

    fn poll_write(&mut self, bytes: &[u8]) -> Option<Result<usize, WriteFault>> {
        self.write(bytes)
    }

    fn poll_close_write(&mut self) -> Option<Result<(), Fault>> {
        let answer = self.target.poll_shut();
        if answer.is_none() {
            self.blocked = Some(Dir::Write);
        }
        answer
    }
}
