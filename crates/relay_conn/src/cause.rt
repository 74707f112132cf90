//! How a connection ends: by the first of its ways that failed, by both their ends, by its target,
//! or with the relay.

ghost use Rattle.std.specs.Prelude.{◌≡◌};
ghost use Rattle.relay_conn.specs.Cause as spec;

use base_types::Dir;
use relay_core::{Ended, FlowState, PairTasks, Step, Way};
use relay_facts::how_ended::{how_of, how_unreached};
use relay_log::ended::Ended as How;
use rwloops::{Fault, WriteFault};

// How a connection ended of which no way has failed, and whose ways stand so. Where one goes on
// still, the relay has ended it.
fn how_unfailed(up: FlowState, down: FlowState) -> How
    ensures { result ≡ spec.how_unfailed up down }
{
    match up {
        FlowState::Over => match down {
            FlowState::Over => How::Eof,
            _ => How::Closed,
        },
        _ => How::Closed,
    }
}

/// How a connection ended with this failure of a way, or none, and its ways standing so.
pub(crate) fn how_ended(failure: Option<How>, tasks: &PairTasks) -> How
    ensures { result ≡ spec.how_connection_ended failure tasks.now }
{
    match failure {
        Some(how) => how,
        None => how_unfailed(tasks.up, tasks.down),
    }
}

// The end of a way that failed, where a step is that.
fn failure_in(step: &Step) -> Option<Ended>
    ensures { result ≡ spec.failure_in step.now }
{
    match step {
        Step::Ended(Ended::Eof) => None,
        Step::Ended(ended) => Some(*ended),
        _ => None,
    }
}

/// How the first way failed that did, after a step of one of them.
pub(crate) fn failure_after(before: Option<How>, step: &Step) -> Option<How>
    ensures { result ≡ spec.failure_after before step.now }
{
    if before.is_some() {
        return before;
    }
    match failure_in(step) {
        Some(ended) => Some(how_of(&ended)),
        None => None,
    }
}

/// How a connection ends whose target can't be connected, by this fault of the dial.
pub(crate) fn how_undialled(fault: Fault) -> How
    ensures { result ≡ spec.how_undialled fault }
{
    how_unreached(Way::Down, &Ended::ReadFault(fault))
}

/// How a way ends whose call in this direction has given up.
pub(crate) fn given_up(dir: Dir) -> Step
    ensures { result ≡ spec.given_up dir }
{
    let fault = Fault::DeadlineExceeded;
    Step::Ended(match dir {
        Dir::Read => Ended::ReadFault(fault),
        Dir::Write => Ended::WriteFault(WriteFault { fault, count: 0 }),
    })
}
