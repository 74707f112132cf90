//! Halves and alarms of which what they tell excludes something: what calls over them can't answer.

ghost use Rattle.std.specs.Prelude.{◌≡◌, ◌<◌, ◌≤◌, Err, IfOk, IfSome, IsErr, IsSome};
ghost use Rattle.rwloops.specs.declared.fault.Fault.{Fault};
ghost use Rattle.rwloops.specs.declared.outcome.DevKind.{DevKind};

use base_types::OutOfMemory;
use deadline_core::{Deadline, Dirs};
use fd_descriptor::{Alarms, FdHandle, HalfClose, Resource, TaskWriter};
use rwloops::{DevKind, Fault};
use std::alloc::Global;
use std::sync::Wait;

/// A half whose connection is made and which refuses each shut, and says so.
#[derive(Drop)]
struct Refusing;

impl HalfClose for Refusing {
    ghost shut_told = { λ _ answer. answer ≡ Err DevKind.BrokenPipe };

    ghost connecting = { λ _. ⊥ };

    fn is_connecting(&mut self) -> bool {
        false
    }

    fn shut(&mut self) -> Result<(), DevKind> {
        Err(DevKind::BrokenPipe)
    }
}

/// Two such halves.
#[derive(Drop)]
struct Refusals;

impl Resource for Refusals {
    type R = Refusing;

    type W = Refusing;

    type Control = ();

    fn control_of(_read: &Refusing) {}

    fn destroy(_read: Refusing, _write: Refusing) -> Result<(), DevKind> {
        Ok(())
    }
}

// A half that always refuses its shut is never answered to be shut.
fn shut_refused<T: Wait>(rt: &T, handle: &mut FdHandle<Refusals>) -> Result<(), Fault>
    ensures { IsErr result }
{
    handle.close_write(rt)
}

// Nor is it by a task, which waits for no connection either; and what the device says is its fault.
fn polled_refused<T: Wait + Copy>(half: &mut TaskWriter<Refusals, T>) -> Option<Result<(), Fault>>
    ensures refused { IfSome result (λ answer. IsErr answer) }
    ensures over { IsSome result }
{
    half.poll_shut()
}

/// Alarms that take each moment up to this one, refuse each later one, and say so.
#[derive(Drop)]
struct UpTo {
    last: u64,
}

impl Alarms for UpTo {
    ghost armed = { λ alarms key dirs at. at ≤ alarms.last };

    ghost refused = { λ alarms key dirs at. alarms.last < at };

    fn arm(&self, _key: u64, _dirs: Dirs, at: u64) -> Result<(), OutOfMemory> {
        if at <= self.last {
            Ok(())
        } else {
            Err(OutOfMemory)
        }
    }

    fn disarm(&self, _key: u64, _dirs: Dirs) {}
}

// A deadline that is to come is set only where such alarms take its moment, and want of memory is
// told only where they refuse it.
fn set_up_to<X: Resource, T: Wait>(
    rt: &T,
    handle: &mut FdHandle<X>,
    at: u64,
    alarms: &UpTo,
) -> Result<(), Fault>
    ensures taken { IfOk result (λ _. 0 < at → at ≤ alarms.now.last) }
    ensures refused { result ≡ Err Fault.OutOfMemory → alarms.now.last < at }
{
    handle.set_deadline(rt, Deadline::At(at), 0, alarms)
}

/// A moment, and what setting a deadline to it answers.
const ROWS: &[(u64, Result<(), Fault>)] = &[
    (0, Ok(())),
    (10, Ok(())),
    (11, Err(Fault::OutOfMemory)),
];

fn sets<T: Wait>(rt: &T, handle: &mut FdHandle<Refusals>) -> bool {
    for (at, answer) in ROWS {
        if set_up_to(rt, handle, *at, &UpTo { last: 10 }) != *answer {
            return false;
        }
    }
    true
}

const BROKEN: Result<(), Fault> = Err(Fault::Device(DevKind::BrokenPipe));

/// Whether deadlines and shuts are answered so.
fn goes<T: Wait + Copy>(rt: T, alloc: Global) -> Option<bool> {
    let mut handle = FdHandle::<Refusals>::open(alloc, Refusing, Refusing, 1).ok()?;
    let is_so = sets(&rt, &mut handle) && shut_refused(&rt, &mut handle) == BROKEN;
    let mut half = TaskWriter::new(rt, handle);
    let polled = polled_refused(&mut half);
    let mut handle = half.into_handle();
    let closed = handle.close(&rt);
    Some(is_so && polled == Some(BROKEN) && closed == Ok(()))
}

#[test]
fn what_halves_and_alarms_tell_excludes_answers(rt: HostRuntime) {
    assert!(rt; goes(&rt, rt.alloc()) == Some(true));
}
