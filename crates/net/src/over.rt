//! What a service that is over leaves, which only the ends of its loops give.

ghost use Rattle.std.specs.Prelude.{◌≡◌, ◌<◌, ◌+◌, ◌-◌, ◌^◌, ℕ, Option, Some, None};
ghost use Rattle.readiness.specs.EventLoop.{tasks_of};
ghost use Rattle.readiness.specs.Tasks.{task_in};
ghost use Rattle.net.specs.Over.{over_loops, over_listener, over_asked, cut_of};

use crate::asked::Asked;
use crate::gone::Gone;
use readiness::EventLoop;

/// That a loop is over: it has no task, and so no connection.
#[derive(Drop)]
pub(crate) struct LoopEnd {
    // How many of its tasks were ended with it.
    cut: usize,
}

impl LoopEnd {
    /// Of a loop without tasks, of which so many were ended with it.
    pub(crate) fn of<T: Drop>(tasks: EventLoop<T>, cut: usize) -> LoopEnd
        requires none { (token : ℕ) → task_in (tasks_of tasks) token ≡ None }
        ensures { result.cut ≡ cut }
    {
        drop(tasks);
        LoopEnd { cut }
    }
}

/// That so many loops are over.
#[derive(Drop)]
pub(crate) struct LoopsEnded {
    loops: usize,
    cut: usize,
}

impl LoopsEnded {
    /// None so far.
    pub(crate) fn none() -> LoopsEnded
        ensures { result ≡ record { loops = 0; cut = 0 } }
    {
        LoopsEnded { loops: 0, cut: 0 }
    }

    /// And one more.
    pub(crate) fn and(self, end: LoopEnd) -> LoopsEnded
        requires room { self.loops < 2 ^ 64 - 1 }
        ensures loops { result.loops ≡ self.loops + 1 }
        ensures cut { self.cut + end.cut < 2 ^ 64 → result.cut ≡ self.cut + end.cut }
    {
        LoopsEnded {
            loops: self.loops + 1,
            cut: self.cut.saturating_add(end.cut),
        }
    }
}

/// That a service is over: each of its loops has ended, so that no connection is left, and its
/// listener is out of the net. A wait for the service gives this, and nothing else does.
#[derive(Drop)]
pub struct Ended {
    loops: LoopsEnded,
    listener: Gone,
    asked: Option<Asked>,
}

impl Ended {
    /// Of loops that ended, and the listener, with what who waits had asked for, if it did.
    pub(crate) fn new(loops: LoopsEnded, listener: Gone) -> Ended
        ensures loops { over_loops result ≡ loops.loops }
        ensures cut { cut_of result ≡ loops.cut }
        ensures listener { over_listener result ≡ listener }
        ensures asked { over_asked result ≡ None }
    {
        Ended {
            loops,
            listener,
            asked: None,
        }
    }

    /// With the end that was asked for.
    pub(crate) fn by(self, asked: Asked) -> Ended
        ensures loops { over_loops result ≡ over_loops self }
        ensures cut { cut_of result ≡ cut_of self }
        ensures listener { over_listener result ≡ over_listener self }
        ensures asked { over_asked result ≡ Some asked }
    {
        let Ended {
            loops,
            listener,
            asked: _,
        } = self;
        Ended {
            loops,
            listener,
            asked: Some(asked),
        }
    }

    /// How many connections were cut off: their tasks still stood when their time was over, or when
    /// the service was stopped.
    pub fn cut_off(&self) -> usize
        ensures { result ≡ cut_of self.now }
    {
        self.loops.cut
    }
}
