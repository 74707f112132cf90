//! The thread that looks hosts' names up, from its start to its end.

ghost use Rattle.std.specs.Prelude.{◌≡◌, IfErr};
ghost use Rattle.relay_admin.specs.declared.serve_fault.ServeFault.{ServeFault};

use crate::bounds::NamesRuntime;
use crate::stacks::NAMES_STACK_BYTES;
use readiness::LoopRemote;
use relay_admin::ServeFault;
use relay_facts::clock::RelayClock;
use relay_shared::lookups::Lookups;
use std::sync::{Arc, Wait};
use std::thread;
use std::thread::{Builder, JoinHandle, Threads};
use std::time::{Clock, Duration, Instant};

/// How often the end looks whether the thread is over, a millisecond apart.
const FINISH_TURNS: u32 = 100;

/// A thread that looks names up.
pub(crate) struct NamesThread {
    lookups: Arc<Lookups>,
    join: JoinHandle<()>,
}

// What goes to the thread beside the runtime, of which the thread makes the relay's clock again. The
// runtime's type stands in none of it, so that its proof of `Send` can be given part by part
// (`SharedCrosses`).
#[derive(Drop)]
struct NamesStart {
    lookups: Arc<Lookups>,
    main: Arc<LoopRemote>,
    start: Instant,
}

impl NamesStart {
    // Looks names up until the end is asked for.
    fn run<R: NamesRuntime>(self, rt: R) {
        let NamesStart {
            lookups,
            main,
            start,
        } = self;
        lookups.run(&rt, &RelayClock::new(rt, start), &main);
    }
}

fn spawn_names<R: NamesRuntime>(rt: R, started: NamesStart) -> Result<JoinHandle<()>, ServeFault>
    ensures { IfErr result (λ fault. fault ≡ ServeFault.Memory) }
{
    let job = move || started.run(rt);
    match Builder::new().stack_size(NAMES_STACK_BYTES).spawn(&rt, job) {
        Ok(join) => Ok(join),
        Err(_) => Err(ServeFault::Memory),
    }
}

impl NamesThread {
    /// Starts it, for a relay that began then, whose main thread's loop it wakes by this remote.
    pub(crate) fn start<R: NamesRuntime>(
        rt: R,
        lookups: &Arc<Lookups>,
        main: &Arc<LoopRemote>,
        start: Instant,
    ) -> Result<NamesThread, ServeFault>
        ensures { IfErr result (λ fault. fault ≡ ServeFault.Memory) }
    {
        let started = NamesStart {
            lookups: Arc::try_clone(lookups)?,
            main: Arc::try_clone(main)?,
            start,
        };
        let lookups = Arc::try_clone(lookups)?;
        let join = spawn_names(rt, started)?;
        Ok(NamesThread { lookups, join })
    }

    /// Asks for its end, and joins it once it is over. One that waits for the system's resolver is left: it
    /// ends behind that, or with the process.
    pub(crate) fn end<R: Wait + Threads + Clock>(self, rt: &R) {
        let NamesThread { lookups, join } = self;
        let asked = lookups.end(rt);
        for _ in 0..FINISH_TURNS {
            if lookups.is_over(asked) {
                join.join(rt);
                return;
            }
            thread::sleep(rt, Duration::from_millis(1));
        }
    }
}
