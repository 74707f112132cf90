//! An event loop: one thread that resumes tasks, by what its own poller, its own timers and other
//! threads tell. Why no wake-up is lost stands at the remote.

ghost use Rattle.std.specs.Prelude.{◌≡◌, ◌≢◌, ◌⊎◌, ◌+◌, ℕ, None, IfOk, OnOk, IfErr, OnErr, IsOk};
ghost use Rattle.std.specs.Prelude.{Some, false, Option};
ghost use Rattle.rwloops.specs.declared.fault.Fault.{Fault};
ghost use Rattle.rwloops.specs.declared.outcome.DevKind.{DevKind};
ghost use Rattle.readiness.specs.Tasks.{HasPlace, SameTasks, IsPut, RefusesPlace};
ghost use Rattle.readiness.specs.Tasks.{task_in, next_place, next_serial, task_count};
ghost use Rattle.readiness.specs.Tasks.{gave_way_in, ComesNext, StillCome};
ghost use Rattle.std.specs.Arc.{arc_value};
ghost use Rattle.readiness.specs.LoopToken.{place_in};
ghost use Rattle.std.specs.Borrow.{sem};
ghost use Rattle.std.specs.Option.{option_copied, option_copied_mut};
ghost use Rattle.readiness.specs.Lends.{lends_loop_task};
ghost use Rattle.readiness.specs.EventLoop.{tasks_of, remote_in, poller_of, waker_behind};
ghost use Rattle.readiness.specs.EventLoop.{driver_poller, driver_remote};
ghost use Rattle.readiness.specs.TaskAlarms.{AreArmed, AreArmedBut, KeepsArmed, IsArmed};
ghost use Rattle.readiness.specs.Poller.{waker_of};

use crate::loop_driver::LoopDriver;
use crate::loop_remote::LoopRemote;
use crate::loop_token::{Place, place_of};
use crate::poller::Poller;
use crate::tasks::{Host, NoPlace, Tasks};
use base_types::OutOfMemory;
use rwloops::Fault;
use std::alloc::{Allocator, Global};
use std::net::Net;
use std::sync::Arc;

/// An event loop: its tasks by places, its poller, and its remote.
#[derive(Drop)]
pub struct EventLoop<T, A: Allocator = Global> {
    alloc: A,
    pub(crate) poller: Poller<A>,
    pub(crate) remote: Arc<LoopRemote<A>, A>,
    pub(crate) tasks: Tasks<T, A>,
    // Those that gave way in the turn before, and those that were told: for one turn.
    pub(crate) round: Vec<u64, A>,
    pub(crate) told: Vec<u64, A>,
}

impl<T, A: Allocator + Copy> EventLoop<T, A> {
    /// A loop without tasks.
    pub fn new<R: Net>(rt: &R, alloc: A) -> Result<EventLoop<T, A>, Fault>
        ensures none { IfOk result (λ made. (token : ℕ) → task_in (tasks_of made) token ≡ None) }
        ensures waker { IfOk result (λ made.
            waker_behind (remote_in made) ≡ waker_of (poller_of made)) }
        ensures armed { IfOk result (λ made.
            (awaited : T → Option ℕ) → AreArmed awaited (tasks_of made)) }
        ensures faults { IfErr result (λ fault. (fault ≡ Fault.OutOfMemory)
            ⊎ (fault ≡ Fault.Device DevKind.Other)) }
    {
        let driver = LoopDriver::new(rt, alloc)?;
        Ok(EventLoop::on(driver))
    }

    /// The loop of this driver, without tasks. It takes no memory.
    pub fn on(driver: LoopDriver<A>) -> EventLoop<T, A>
        ensures none { (token : ℕ) → task_in (tasks_of result) token ≡ None }
        ensures poller { poller_of result ≡ driver_poller driver }
        ensures remote { remote_in result ≡ driver_remote driver }
        ensures armed { (awaited : T → Option ℕ) → AreArmed awaited (tasks_of result) }
    {
        let LoopDriver {
            alloc,
            poller,
            remote,
            told,
        } = driver;
        EventLoop {
            alloc,
            poller,
            remote,
            tasks: Tasks::new(alloc),
            round: Vec::new(alloc),
            told,
        }
    }

    /// Makes room for one task more and for its alarm, and gives the place that `put` gives next: its
    /// descriptors are registered under the place's tokens. It tests `Full`, then `SerialsSpent`.
    pub fn vacant(&mut self) -> Result<Place, NoPlace>
        ensures place { IfOk result (λ place. place ≡ next_place (tasks_of self.new)) }
        ensures room { OnOk result (HasPlace (tasks_of self.new)) }
        ensures unused { IfOk result (λ place. (token : ℕ) →
            place_in token ≡ place_in place.first → task_in (tasks_of self.new) token ≡ None) }
        ensures kept { SameTasks (tasks_of self.old) (tasks_of self.new) }
        ensures come { StillCome (tasks_of self.old) (tasks_of self.new) }
        ensures why { IfErr result (RefusesPlace (tasks_of self.old)) }
        ensures armed { KeepsArmed (tasks_of self.old) (tasks_of self.new) }
    {
        let place = self.tasks.vacant()?;
        if self
            .round
            .reserve(self.tasks.len().saturating_add(1))
            .is_err()
        {
            return Err(NoPlace::OutOfMemory);
        }
        Ok(place)
    }

    /// Hands all tasks to the host, at the end of a loop.
    pub fn end_all<H: Host<Task = T>>(&mut self, host: &mut H)
    where
        T: Drop,
        ensures none { (token : ℕ) → task_in (tasks_of self.new) token ≡ None }
        ensures serial { next_serial (tasks_of self.new) ≡ next_serial (tasks_of self.old) }
        ensures armed { (awaited : T → Option ℕ) → AreArmed awaited (tasks_of self.new) }
    {
        self.tasks.end_all(self.alloc, host);
    }
}

impl<T, A: Allocator> EventLoop<T, A> {
    /// The poller, with which the descriptors of tasks are registered, under the tokens of their
    /// places.
    pub fn poller(&self) -> &Poller<A>
        ensures own { result.now ≡ poller_of self.now }
    {
        &self.poller
    }

    /// The remote, for other threads and for alarms. It takes no memory; refused is only a remote
    /// that is held too often.
    pub fn remote(&self) -> Result<Arc<LoopRemote<A>, A>, OutOfMemory>
        ensures own { IfOk result (λ remote. arc_value remote ≡ remote_in self.now) }
    {
        match Arc::try_clone(&self.remote) {
            Ok(remote) => Ok(remote),
            Err(_) => Err(OutOfMemory),
        }
    }

    /// How many tasks there are.
    pub fn len(&self) -> usize
        ensures { result ≡ task_count (tasks_of self.now) }
    {
        self.tasks.len()
    }

    /// Puts a task into the place that `vacant` gave last, which is refused only without such a
    /// call. It takes no memory. The task waits for its first event; where it is to go on by
    /// itself, `again` has it do so, and where it awaits a moment, `keep_time` gives it its alarm.
    pub fn put(&mut self, task: T) -> Result<Place, T>
        ensures given { IfOk result (λ place. place ≡ next_place (tasks_of self.old)) }
        ensures put { IfOk result (λ place.
            IsPut (tasks_of self.old) (tasks_of self.new) place task) }
        ensures stays { IfOk result (λ place.
            gave_way_in (tasks_of self.new) place.first ≡ Some false) }
        ensures come { StillCome (tasks_of self.old) (tasks_of self.new) }
        ensures serial { OnOk result
            (next_serial (tasks_of self.new) ≡ next_serial (tasks_of self.old) + 1) }
        ensures returned { IfErr result (λ other. other ≡ task) }
        ensures kept { OnErr result (SameTasks (tasks_of self.old) (tasks_of self.new)) }
        ensures placed { HasPlace (tasks_of self.old) → IsOk result }
        ensures apart { IfOk result (λ place. (awaited : T → Option ℕ)
            → AreArmed awaited (tasks_of self.old)
            → AreArmedBut awaited (Some (place_in place.first)) (tasks_of self.new)) }
        ensures armed { OnErr result (KeepsArmed (tasks_of self.old) (tasks_of self.new)) }
    {
        self.tasks.put(task)
    }

    /// Takes out the task that a token names, if it names one, for who ends it from outside.
    pub fn take(&mut self, token: u64) -> Option<T>
        ensures task { result ≡ task_in (tasks_of self.old) token }
        ensures gone { task_in (tasks_of self.new) token ≡ None }
        ensures others { (other : ℕ) → place_in other ≢ place_in token →
            task_in (tasks_of self.new) other ≡ task_in (tasks_of self.old) other }
        ensures serial { next_serial (tasks_of self.new) ≡ next_serial (tasks_of self.old) }
        ensures come { StillCome (tasks_of self.old) (tasks_of self.new) }
        ensures armed { KeepsArmed (tasks_of self.old) (tasks_of self.new) }
    {
        self.tasks.take(token)
    }

    /// The task that a token names, if it names one.
    pub fn task(&self, token: u64) -> Option<&T>
        ensures { option_copied result ≡ task_in (tasks_of self.now) token }
    {
        self.tasks.task(token)
    }

    /// The same, for a program that does something to it between two turns. Where the task is to go
    /// on, or has ended, by that, the program calls `again` or `take`; where it awaits an earlier
    /// moment than before, `keep_time`.
    pub fn task_mut(&mut self, token: u64) -> Option<&mut T>
        ensures* writes_back { sem 𝓛 (lends_loop_task T.row A.row A.Allocator self.entry token result) }
        ensures value { option_copied_mut result ≡ task_in (tasks_of self.old) token }
    {
        self.tasks.task_mut(token)
    }

    /// Has the task that a token names be resumed in the next turn, as one that gave way.
    pub fn again(&mut self, token: u64)
        ensures kept { SameTasks (tasks_of self.old) (tasks_of self.new) }
        ensures comes { gave_way_in (tasks_of self.old) token ≡ Some false
            → ComesNext (tasks_of self.new) token }
        ensures others { StillCome (tasks_of self.old) (tasks_of self.new) }
        ensures armed { KeepsArmed (tasks_of self.old) (tasks_of self.new) }
    {
        self.tasks.give_way(token);
    }

    /// Has the task that a token names an alarm by the moment that it awaits (`Host::until`): for one
    /// that was just put, or that somebody changed between two turns. A task that was resumed has
    /// its alarm already. It takes no memory.
    pub fn keep_time<H: Host<Task = T>>(&mut self, host: &H, token: u64)
        ensures kept { SameTasks (tasks_of self.old) (tasks_of self.new) }
        ensures come { StillCome (tasks_of self.old) (tasks_of self.new) }
        ensures armed { AreArmedBut H.awaited (Some (place_in token)) (tasks_of self.old)
            → AreArmed H.awaited (tasks_of self.new) }
        ensures idle { IsArmed H.awaited (tasks_of self.old) (place_in token)
            → tasks_of self.new ≡ tasks_of self.old }
    {
        self.tasks.keep_time(host, place_of(token));
    }
}
