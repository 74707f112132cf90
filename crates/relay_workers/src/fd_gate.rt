//! What a worker copies through: two descriptors, of which one is read and the other written.

ghost use Rattle.std.specs.Prelude.{◌≡◌, ◌+◌, ◌*◌, ◌-◌, ◌^◌, ℕ, min, Some, None, Ok, IfSome, IfNone};
ghost use Rattle.deadline_core.specs.declared.deadline.Deadline.{Deadline};
ghost use Rattle.deadline_core.specs.declared.deadline.Dirs.TheVariants as dirs;
ghost use Rattle.fd_descriptor.specs.Deadlines.{HasSet};
ghost use Rattle.fd_descriptor.specs.FdHandle.{KeepsHandle, key_of};
ghost use Rattle.relay_workers.specs.FdGate.{gate_idle, idle_setting, gate_source, gate_target};

use crate::gate::CopyGate;
use deadline_core::Deadline;
use fd_descriptor::{Alarms, FdHandle, HalfClose, Resource};
use relay_core::{Moments, idle_deadline};
use rwloops::{Fault, TryRead, TryWrite, WriteFault};
use std::sync::Wait;

/// Reads from `source` and writes to `target`. With an idle time each read and each write first
/// sets the deadline of its own direction to that long from now; where that is refused it is the
/// answer, of a write with count 0.
#[derive(Drop)]
pub struct FdGate<X: Resource, R, C, A> {
    rt: R,
    clock: C,
    idle_ms: Option<u32>,
    alarms: A,
    source: FdHandle<X>,
    target: FdHandle<X>,
}

impl<X: Resource, R: Wait, C: Moments, A: Alarms> FdGate<X, R, C, A> {
    /// A gate with this idle time in milliseconds, or with none.
    pub fn new(
        rt: R,
        clock: C,
        alarms: A,
        idle_ms: Option<u32>,
        source: FdHandle<X>,
        target: FdHandle<X>,
    ) -> FdGate<X, R, C, A>
        ensures idle { gate_idle result ≡ idle_ms }
        ensures source { gate_source result ≡ source }
        ensures target { gate_target result ≡ target }
    {
        FdGate {
            rt,
            clock,
            idle_ms,
            alarms,
            source,
            target,
        }
    }

    // The moment now, and the deadline of a call that begins now; none without an idle time.
    fn next_deadline(&self) -> Option<(u64, Deadline)>
        ensures none { IfNone result (self.now.idle_ms ≡ None) }
        ensures idle { IfSome result (λ r. (ms : ℕ) × (self.now.idle_ms ≡ Some ms)
            × (r.1 ≡ Deadline.At (min (r.0 + ms * 1000000) (2 ^ 64 - 1)))) }
    {
        let idle_ms = self.idle_ms?;
        let now = self.clock.now();
        Some((now, Deadline::At(idle_deadline(now, idle_ms))))
    }

    // Sets the deadline of the read that begins now.
    fn time_the_read(&mut self) -> Result<(), Fault>
        ensures none { self.old.idle_ms ≡ None → (result ≡ Ok tt) × (self.new ≡ self.old) }
        ensures kept { self.new ≡ record self.old { source = self.new.source } }
        ensures handle { KeepsHandle self.old.source self.new.source }
        ensures set { (ms : ℕ) → self.old.idle_ms ≡ Some ms → (now : ℕ)
            × HasSet (A.armed self.old.alarms) (A.refused self.old.alarms)
            (A.disarmed self.old.alarms) (key_of self.old.source)
            (idle_setting dirs.Read now ms) result }
    {
        match self.next_deadline() {
            Some((now, deadline)) => {
                self.source
                    .set_read_deadline(&self.rt, deadline, now, &self.alarms)
            }
            None => Ok(()),
        }
    }

    // Sets the deadline of the write that begins now.
    fn time_the_write(&mut self) -> Result<(), Fault>
        ensures none { self.old.idle_ms ≡ None → (result ≡ Ok tt) × (self.new ≡ self.old) }
        ensures kept { self.new ≡ record self.old { target = self.new.target } }
        ensures handle { KeepsHandle self.old.target self.new.target }
        ensures set { (ms : ℕ) → self.old.idle_ms ≡ Some ms → (now : ℕ)
            × HasSet (A.armed self.old.alarms) (A.refused self.old.alarms)
            (A.disarmed self.old.alarms) (key_of self.old.target)
            (idle_setting dirs.Write now ms) result }
    {
        match self.next_deadline() {
            Some((now, deadline)) => {
                self.target
                    .set_write_deadline(&self.rt, deadline, now, &self.alarms)
            }
            None => Ok(()),
        }
    }
}

impl<X, R, C, A> CopyGate for FdGate<X, R, C, A>
where
    X: Resource,
    X::R: TryRead,
    X::W: TryWrite + HalfClose,
    R: Wait,
    C: Moments,
    A: Alarms,
{
    // What a socket carried can't be told.
    ghost tells = { λ _ _. ⊥ };

    fn read(&mut self, buf: &mut [u8]) -> Result<usize, Fault> {
        self.time_the_read()?;
        self.source.read(&self.rt, buf)
    }

    fn write(&mut self, bytes: &[u8]) -> Result<usize, WriteFault> {
        match self.time_the_write() {
            Ok(()) => self.target.write(&self.rt, bytes),
            Err(fault) => Err(WriteFault { fault, count: 0 }),
        }
    }

    fn close_write(&mut self) -> Result<(), Fault> {
        self.target.close_write(&self.rt)
    }
}
