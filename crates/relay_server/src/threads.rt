//! The loops' threads.

ghost use Rattle.std.specs.Prelude.{◌≡◌, ◌↔◌, ◌+◌, true, false, [], Some, None, Ok, Err, IfOk, IfErr};
ghost use Rattle.std.specs.Prelude.{IsOk, List, OnOk, length};
ghost use Rattle.relay_server.specs.Threads.{AreSumsOf, IsJoinOf, LoopEnd, told_by, told_with};
ghost use Rattle.relay_admin.specs.ServeFault.{IsRunFault};
ghost use Rattle.relay_loops.specs.Turns.{IsPollerFault};
ghost use Rattle.relay_admin.specs.declared.serve_fault.ServeFault.{ServeFault};

use crate::bounds::RelayRuntime;
use crate::shared_end::Emptied;
use crate::stacks::LOOP_STACK_BYTES;
use relay_admin::ServeFault;
use relay_core::LoopMemory;
use relay_facts::clock::RelayClock;
use relay_facts::totals::Totals;
use relay_loops::{LoopContext, run_loop};
use relay_main::{AcceptsEnded, MainLoop};
use relay_shared::loop_handle::LoopParts;
use relay_shared::shared::Shared;
use relay_shared::stopping::Stopped;
use std::alloc::Global;
use std::sync::{Arc, Wait};
use std::thread::{Builder, JoinHandle, Threads};
use std::time::{Clock, Instant};

/// The threads beside the main one, as far as they were started. It isn't `Drop`: `join` alone lets
/// it go, so that no thread is left.
pub(crate) struct StartedThreads {
    loops: Vec<JoinHandle<Result<Option<Totals>, ServeFault>>>,
}

/// That all threads have ended: their join alone makes one. What they may still have used is closed
/// only after that.
#[derive(Drop)]
pub(crate) struct Joined {
    /// Whether no loop's poller has failed.
    turned: bool,
    /// What the books of all loops came to; none where a share is missing.
    totals: Option<Totals>,
}

impl Joined {
    // No loop's thread has ended yet.
    fn nobody() -> Joined
        ensures turned { result.turned ≡ true }
        ensures totals { told_by result.totals ≡ Some (0, 0) }
    {
        Joined {
            turned: true,
            totals: Some(Totals::none()),
        }
    }

    // One loop's thread more, which has ended so: with the totals of its books, without them, since a
    // share is missing, or since its poller failed.
    fn and(self, one: Result<Option<Totals>, ServeFault>) -> Joined
        ensures turned { result.turned ≡ true ↔ ((self.turned ≡ true) × IsOk one) }
        ensures totals { told_by result.totals ≡ told_with one (told_by self.totals) }
    {
        let Joined { turned, totals } = self;
        match one {
            Ok(one) => Joined {
                turned,
                totals: sum_of(totals, one),
            },
            Err(_) => Joined {
                turned: false,
                totals,
            },
        }
    }

    /// The totals, once nothing is left in an inbox. A loop's fault is the relay's, and so is a share
    /// that is missing.
    pub(crate) fn totals(self, _emptied: Emptied) -> Result<Totals, ServeFault>
        ensures told { IfOk result (λ totals. told_by (Some totals) ≡ told_by self.totals) }
        ensures sums { IfOk result (λ totals. (ends : List LoopEnd) → IsJoinOf self ends
            → AreSumsOf totals (length ends)) }
        ensures turned { self.turned ≡ false → result ≡ Err ServeFault.Device }
        ensures missing { self.turned ≡ true → self.totals ≡ None
            → result ≡ Err ServeFault.Memory }
        ensures faults { IfErr result (λ fault. IsRunFault fault) }
    {
        let Joined { turned, totals } = self;
        if !turned {
            return Err(ServeFault::Device);
        }
        match totals {
            Some(totals) => Ok(totals),
            None => Err(ServeFault::Memory),
        }
    }
}

// The sum of both; none where one is missing.
fn sum_of(all: Option<Totals>, one: Option<Totals>) -> Option<Totals>
    ensures { told_by result ≡ told_with (Ok one) (told_by all) }
{
    let Some(one) = one else {
        return None;
    };
    match all {
        Some(all) => Some(all.plus(one)),
        None => None,
    }
}

// What goes to the thread of the loop at this place, beside the runtime, of which the thread makes the
// relay's clock again. The runtime's type stands in none of it, so that its proof of `Send` can be
// given part by part (`SharedCrosses`).
#[derive(Drop)]
struct LoopStart {
    alloc: Global,
    start: Instant,
    place: usize,
    shared: Arc<Shared>,
    parts: LoopParts,
    memory: LoopMemory,
}

impl LoopStart {
    // What the loop with these parts starts with, at this place.
    fn new<R: Wait + Clock + Copy>(
        main: &MainLoop<R>,
        start: Instant,
        place: usize,
        parts: LoopParts,
    ) -> Result<LoopStart, ServeFault>
        ensures faults { IfErr result (λ fault. fault ≡ ServeFault.Memory) }
        ensures start { IfOk result (λ loop. loop.start ≡ start) }
        ensures place { IfOk result (λ loop. loop.place ≡ place) }
        ensures parts { IfOk result (λ loop. loop.parts ≡ parts) }
    {
        let memory = LoopMemory::new(main.alloc)?;
        Ok(LoopStart {
            alloc: main.alloc,
            start,
            place,
            shared: Arc::try_clone(&main.host.shared)?,
            parts,
            memory,
        })
    }

    // Runs the loop to its end.
    fn run<R: RelayRuntime>(self, rt: R) -> Result<Option<Totals>, ServeFault>
        ensures faults { IfErr result IsPollerFault }
    {
        let LoopStart {
            alloc,
            start,
            place,
            shared,
            parts,
            memory,
        } = self;
        let context = LoopContext {
            rt,
            alloc,
            clock: RelayClock::new(rt, start),
            place,
            shared,
        };
        run_loop(context, parts, memory)
    }
}

fn spawn_loop<R: RelayRuntime>(
    rt: R,
    started: LoopStart,
) -> Result<JoinHandle<Result<Option<Totals>, ServeFault>>, ServeFault>
    ensures faults { IfErr result (λ fault. fault ≡ ServeFault.Memory) }
{
    let job = move || started.run(rt);
    match Builder::new().stack_size(LOOP_STACK_BYTES).spawn(&rt, job) {
        Ok(join) => Ok(join),
        Err(_) => Err(ServeFault::Memory),
    }
}

impl StartedThreads {
    /// None was started yet.
    pub(crate) fn none(alloc: Global) -> StartedThreads
        ensures { result.loops.items ≡ [] }
    {
        StartedThreads {
            loops: Vec::new(alloc),
        }
    }

    /// Starts the loops beside the main thread's, for a relay that began then. After a fault those that were started run on.
    pub(crate) fn start_loops<R: RelayRuntime>(
        &mut self,
        main: &MainLoop<R>,
        start: Instant,
        loops: Vec<LoopParts>,
    ) -> Result<(), ServeFault>
        ensures started { OnOk result (length self.new.loops.items
            ≡ length self.old.loops.items + length loops.items) }
        ensures faults { IfErr result (λ fault. fault ≡ ServeFault.Memory) }
    {
        self.loops.reserve(loops.len())?;
        for parts in loops {
            let started = LoopStart::new(main, start, self.loops.len(), parts)?;
            let started = spawn_loop(main.host.rt, started)?;
            // (its place was reserved, so that no thread is started that can't be joined)
            let Ok(()) = self.loops.push(started) else {
                unreachable!()
            };
        }
        Ok(())
    }

    /// Waits for all of them, once they see that the relay has stopped, and no accept is under way
    /// for which a loop that closes would wait. It adds up what the loops' books came to.
    pub(crate) fn join<R: Threads>(self, rt: &R, _stopped: Stopped, _ended: AcceptsEnded) -> Joined
        ensures joined { (ends : List LoopEnd) × (length ends ≡ length self.loops.items)
            × IsJoinOf result ends }
    {
        let StartedThreads { loops } = self;
        let mut joined = Joined::nobody();
        for one in loops {
            joined = joined.and(one.join(rt));
        }
        joined
    }
}
