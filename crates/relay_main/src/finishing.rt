//! A relay that finishes: it takes nobody more, checks no target, lets its connections go on to their
//! own ends, and ends once none stands and no session waits for the answer of a loop, or a moment has
//! come.

ghost use Rattle.std.specs.Prelude.{◌≡◌, ◌↔◌, ℕ, true, [], Some};
ghost use Rattle.readiness.specs.EventLoop.{tasks_of};
ghost use Rattle.relay_main.specs.Checks.{moment_behind};
ghost use Rattle.relay_main.specs.Finishing.{HasFinished, IsOver};
ghost use Rattle.relay_main.specs.ListenersEnd.{AreEnded};
ghost use Rattle.relay_shared.specs.BoundPath.{paths_in};

use crate::listeners_end::LastClients;
use crate::main_loop::MainLoop;
use relay_core::{has_come, pause_end};
use relay_facts::clock::Moments;
use std::fs::Files;
use std::mem;
use std::net::Net;
use std::sync::Wait;
use std::sync::atomic::Ordering;
use std::time::Clock;

/// The key of the alarm for the moment, which no task has as a token.
const FINISH_KEY: u64 = 0;

// Whether a relay has finished that finishes at this moment at the latest, or doesn't at all, where
// so many connections stand, and sessions' replies wait for answers or don't.
fn has_finished(finish_at: Option<u64>, now: u64, standing: u64, is_held: bool) -> bool
    ensures { result ≡ true ↔ HasFinished finish_at now standing is_held }
{
    match finish_at {
        Some(at) => at <= now || (standing == 0 && !is_held),
        None => false,
    }
}

/// Whether no turn more is wanted: a session said stop, or the relay has finished.
pub(crate) fn is_over(
    is_stopped: bool,
    finish_at: Option<u64>,
    now: u64,
    standing: u64,
    is_held: bool,
) -> bool
    ensures { result ≡ true ↔ IsOver is_stopped finish_at now standing is_held }
{
    is_stopped || has_finished(finish_at, now, standing, is_held)
}

impl<R: Wait + Net + Files + Clock + Copy> MainLoop<R> {
    /// Has the relay take nobody more from now on, and end in so many milliseconds at the latest. A
    /// later call changes the moment.
    pub(crate) fn finish(&mut self, after_ms: u64)
        ensures moment { (now : ℕ) × (self.new.finish_at ≡ Some (moment_behind now after_ms)) }
    {
        if !self.host.shared.is_finishing.swap(true, Ordering::SeqCst) {
            self.listen_no_more();
            self.end_checks();
        }
        let at = pause_end(self.host.clock.now(), after_ms);
        // Where that is refused, it is looked at once a second.
        let _ = self.host.arm(FINISH_KEY, at);
        self.finish_at = Some(at);
        // The last connection may have ended before its end told anybody.
        self.host.shared.main.wake();
    }

    // Removes the paths of all rules, lets their last clients in, and closes their listeners.
    fn listen_no_more(&mut self)
        ensures ended { AreEnded self.old.listening.items
            (tasks_of self.old.tasks) (tasks_of self.new.tasks) }
        ensures none { self.new.listening.items ≡ [] }
        ensures paths { paths_in self.new.paths ≡ [] }
    {
        let rt = self.host.rt;
        self.paths.remove_all(&rt);
        let listening = mem::replace(&mut self.listening, Vec::new(self.alloc));
        self.end_rules(listening.as_slice(), LastClients::AreLetIn);
    }
}
