//! A turn over a host that tells its calls: its list is the one that the steps of the turn make.

ghost use Rattle.std.specs.Prelude.{◌≡◌, ◌∷◌, [], None, reverse, IsTrue, OnOk};
ghost use Rattle.readiness.specs.Agenda.{steps_of};
ghost use Rattle.readiness.specs.EventLoop.{tasks_of, events_in, told_in};
ghost use Rattle.readiness.specs.Tasks.{gone_again};
ghost use Rattle.readiness.specs.Turns.{MakesTurn};
ghost use Rattle.readiness_tests.specs.Recorded.{host_calls_of};

use fd_descriptor::{Fault, PollCell};
use readiness::{EventLoop, Host, Side, Turn, Why};
use std::alloc::Global;
use std::net::Net;
use std::sync::Wait;

/// A task, why it was resumed, its answer and how it was left; or that it has ended.
type Call = (u64, Option<(Why, Turn, u64)>);

/// Has tasks count down to their end, one a turn, and tells its calls.
#[derive(Drop)]
struct TellingHost {
    /// Oldest first.
    calls: Vec<Call>,
    /// Nothing is missing: memory was never refused.
    is_whole: bool,
}

impl TellingHost {
    fn keep(&mut self, call: Call)
        ensures before { IsTrue self.new.is_whole → IsTrue self.old.is_whole }
        ensures kept { IsTrue self.new.is_whole
            → reverse self.new.calls.items ≡ call ∷ reverse self.old.calls.items }
    {
        if self.calls.push(call).is_err() {
            self.is_whole = false;
        }
    }
}

impl Host for TellingHost {
    type Task = u64;

    ghost tells = { λ host calls. IsTrue host.is_whole → host_calls_of host.calls.items ≡ calls };

    ghost has_cell = { λ _ _ _ cell. cell ≡ None };

    ghost awaited = { λ _. None };

    fn cell<'a>(&self, _task: &'a u64, _side: Side) -> Option<&'a PollCell> {
        None
    }

    fn resume(&mut self, task: &mut u64, why: Why) -> Turn {
        let before = *task;
        if before == 0 {
            self.keep((before, Some((why, Turn::Over, before))));
            return Turn::Over;
        }
        let left = before - 1;
        *task = left;
        self.keep((before, Some((why, Turn::Again, left))));
        Turn::Again
    }

    fn until(&self, _task: &u64) -> Option<u64> {
        None
    }

    fn over(&mut self, task: u64) {
        self.keep((task, None));
    }
}

// What the contract of a turn says over such a host: the calls of its steps are those that the host
// kept.
fn turn_told<R: Wait>(
    rt: &R,
    tasks: &mut EventLoop<u64>,
    now: u64,
    host: &mut TellingHost,
) -> Result<(), Fault>
    requires { host.old.calls.items ≡ [] }
    ensures { IsTrue host.new.is_whole → OnOk result (MakesTurn (λ _. None) (λ calls. [] ≡ calls)
        (λ calls. host_calls_of host.new.calls.items ≡ calls) now
        (steps_of (events_in tasks.new) (told_in tasks.new) (gone_again (tasks_of tasks.old)))
        (tasks_of tasks.old) (tasks_of tasks.new)) }
{
    tasks.turn(rt, now, host)
}

/// What a turn has its host told, oldest first.
fn told_in_turn<R: Wait>(rt: &R, alloc: Global, tasks: &mut EventLoop<u64>) -> Option<Vec<Call>> {
    let mut host = TellingHost {
        calls: Vec::new(alloc),
        is_whole: true,
    };
    match turn_told(rt, tasks, 0, &mut host) {
        Ok(()) => Some(host.calls),
        Err(_) => None,
    }
}

/// What the turns have their host told over one task that counts down from 1.
const TURNS: &[&[Call]] = &[
    &[(1, Some((Why::Again, Turn::Again, 0)))],
    &[(0, Some((Why::Again, Turn::Over, 0))), (0, None)],
];

/// Whether the turns go so.
fn goes<R: Wait + Net>(rt: &R, alloc: Global) -> Option<bool> {
    let mut tasks: EventLoop<u64> = EventLoop::new(rt, alloc).ok()?;
    let place = tasks.vacant().ok()?;
    let put = tasks.put(1);
    tasks.again(place.first);
    for calls in TURNS {
        match told_in_turn(rt, alloc, &mut tasks) {
            Some(told) if told.as_slice() == *calls => {}
            _ => return Some(false),
        }
    }
    Some(put.is_ok())
}

#[test]
fn a_turn_tells_its_host_the_calls_of_its_steps(rt: HostRuntime) {
    assert!(rt; goes(&rt, rt.alloc()) == Some(true));
}
