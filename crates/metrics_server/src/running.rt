//! A server on a thread of its own, and how it is ended.

ghost use Rattle.std.specs.Prelude.{◌≡◌, IfOk, IfErr};
ghost use Rattle.rwloops.specs.declared.fault.Fault.{Fault};
ghost use Rattle.metrics_server.specs.Server.{remote_behind, woken_by_stop};

use crate::STACK_BYTES;
use crate::server::MetricsServer;
use fd_descriptor::Fault;
use readiness::LoopRemote;
use relay_metrics::Metered;
use std::random::RandomSource;
use std::sync::atomic::{AtomicBool, Ordering};
use std::sync::{Arc, Wait};
use std::thread::{Builder, JoinHandle, Threads};
use std::time::Clock;

/// A server that serves. One that is dropped and not stopped serves until the process ends.
#[derive(Drop)]
pub struct Running {
    stopped: Arc<AtomicBool>,
    remote: Arc<LoopRemote>,
    thread: JoinHandle<()>,
}

impl<R, M> MetricsServer<R, M>
where
    R: Wait + Threads + Clock + RandomSource + Copy + Send + Sync + 'static,
    M: Metered + Drop + Send + Sync + 'static,
{
    /// Serves from now on, on a thread of its own. Where memory or a thread is refused the listener
    /// is closed.
    pub fn start(self) -> Result<Running, Fault>
        ensures wakes { IfOk result (λ running. woken_by_stop running ≡ remote_behind self) }
        ensures faults { IfErr result (λ fault. fault ≡ Fault.OutOfMemory) }
    {
        let stopped = Arc::new(self.alloc, AtomicBool::new(false));
        let (Ok(stopped), Ok(remote)) = (stopped, self.tasks.remote()) else {
            return Err(Fault::OutOfMemory);
        };
        let Ok(watched) = Arc::try_clone(&stopped) else {
            return Err(Fault::OutOfMemory);
        };
        let rt = self.desk.rt();
        let mut server = self;
        let job = move || server.run(&watched);
        match Builder::new().stack_size(STACK_BYTES).spawn(&rt, job) {
            Ok(thread) => Ok(Running {
                stopped,
                remote,
                thread,
            }),
            Err(_) => Err(Fault::OutOfMemory),
        }
    }
}

impl Running {
    /// Has the server close its listener and all clients, and waits until its thread has ended.
    /// Figures that are being read are waited for.
    pub fn stop<R: Threads>(self, rt: &R) {
        self.stopped.store(true, Ordering::SeqCst);
        // (a loop that can't be woken turns by itself within a second)
        self.remote.wake();
        self.thread.join(rt)
    }
}
