//! How a connection ended, in the words of the log and of the metrics.

ghost use Rattle.std.specs.Prelude.{◌≡◌};
ghost use Rattle.relay_facts.specs.HowEnded as spec;

use base_types::Dir;
use relay_core::{Ended, Way};
use relay_log::ended::{Cause, Ended as How, Reason};
use rwloops::{DevKind, Fault};

// The log's word for what a device said.
fn reason_of(kind: DevKind) -> Reason
    ensures { result ≡ spec.reason_of kind }
{
    match kind {
        DevKind::Reset => Reason::Reset,
        DevKind::Aborted => Reason::Aborted,
        DevKind::BrokenPipe => Reason::BrokenPipe,
        DevKind::Refused => Reason::Refused,
        DevKind::Other => Reason::Other,
    }
}

/// The log's word for a fault of an accept.
pub fn reason_of_fault(fault: Fault) -> Reason
    ensures { result ≡ spec.reason_of_fault fault }
{
    match fault {
        Fault::Device(kind) => reason_of(kind),
        _ => Reason::Other,
    }
}

// A call in this direction failed so.
fn failed(dir: Dir, reason: Reason) -> How
    ensures { result ≡ spec.failed dir reason }
{
    match dir {
        Dir::Read => How::Read(reason),
        Dir::Write => How::Write(reason),
    }
}

// What the fault of a call in this direction means. A connection that was made is never refused
// later, so that one which is has no target.
fn how_of_fault(dir: Dir, fault: Fault) -> How
    ensures { result ≡ spec.how_of_fault dir fault }
{
    match fault {
        Fault::Closed => How::Closed,
        Fault::Draining => How::Drained,
        Fault::DeadlineExceeded => How::Idle,
        Fault::Device(DevKind::Refused) => How::NoTarget(Cause::Refused),
        Fault::Device(kind) => failed(dir, reason_of(kind)),
        _ => failed(dir, Reason::Other),
    }
}

/// How a way's end ends its connection.
pub fn how_of(ended: &Ended) -> How
    ensures { result ≡ spec.how_of ended.now }
{
    match ended {
        Ended::Eof => How::Eof,
        Ended::ReadFault(fault) => how_of_fault(Dir::Read, *fault),
        Ended::WriteFault(failed) => how_of_fault(Dir::Write, failed.fault),
        Ended::CloseFault(fault) => how_of_fault(Dir::Write, *fault),
        Ended::BookFull(_) => How::Write(Reason::Other),
    }
}

// The fault by which a way ended, if it ended by one of a call.
fn fault_in(ended: &Ended) -> Option<Fault>
    ensures { result ≡ spec.fault_in ended.now }
{
    match ended {
        Ended::ReadFault(fault) | Ended::CloseFault(fault) => Some(*fault),
        Ended::WriteFault(failed) => Some(failed.fault),
        Ended::Eof | Ended::BookFull(_) => None,
    }
}

// Whether a way ended by the fault of a call on the target.
fn is_of_target(way: Way, ended: &Ended) -> bool
    ensures { result ≡ spec.is_of_target way ended.now }
{
    match ended {
        Ended::ReadFault(_) => way == Way::Down,
        Ended::WriteFault(_) | Ended::CloseFault(_) => way == Way::Up,
        Ended::Eof | Ended::BookFull(_) => false,
    }
}

// Why a target that isn't connected yet isn't reached, where a call failed so.
fn cause_of(of_target: bool, fault: Fault) -> Option<Cause>
    ensures { result ≡ spec.cause_of of_target fault }
{
    match fault {
        Fault::Device(DevKind::Refused) => Some(Cause::Refused),
        Fault::Device(DevKind::Other) if of_target => Some(Cause::Unreachable),
        Fault::DeadlineExceeded => Some(Cause::Timeout),
        _ => None,
    }
}

/// How a way's end ends a connection whose target isn't connected yet.
pub fn how_unreached(way: Way, ended: &Ended) -> How
    ensures { result ≡ spec.how_unreached way ended.now }
{
    let Some(fault) = fault_in(ended) else {
        return how_of(ended);
    };
    match cause_of(is_of_target(way, ended), fault) {
        Some(cause) => How::NoTarget(cause),
        None => how_of(ended),
    }
}
