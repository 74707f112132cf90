//! The pollers of a relay's threads.

ghost use Rattle.std.specs.Prelude.{◌≡◌, ◌+◌, IfErr, IfOk, OnOk, length};
ghost use Rattle.relay_admin.specs.ServeFault.{IsRunFault};

use readiness::LoopDriver;
use relay_admin::ServeFault;
use relay_core::Loops;
use relay_shared::loop_handle::{LoopHandle, LoopParts};
use relay_shared::poller_fault::of_poller;
use std::alloc::Global;
use std::net::Net;

/// The pollers of a relay's threads, before there is a socket, and what others reach the loops by.
#[derive(Drop)]
pub(crate) struct Pollers {
    pub(crate) main: LoopDriver,
    /// The loops', by their places.
    pub(crate) loops: Vec<LoopParts>,
    pub(crate) handles: Vec<LoopHandle>,
}

impl Pollers {
    /// Those of a relay with so many loops.
    pub(crate) fn open<R: Net>(rt: &R, alloc: Global, loops: Loops) -> Result<Pollers, ServeFault>
        ensures each { IfOk result (λ pollers. length pollers.loops.items ≡ loops.count) }
        ensures faults { IfErr result (λ fault. IsRunFault fault) }
    {
        let mut pollers = Pollers {
            main: LoopDriver::new(rt, alloc).map_err(of_poller)?,
            loops: Vec::new(alloc),
            handles: Vec::new(alloc),
        };
        for _ in 0..loops.count {
            pollers.open_loop(rt, alloc)?;
        }
        Ok(pollers)
    }

    // Those of one loop more.
    fn open_loop<R: Net>(&mut self, rt: &R, alloc: Global) -> Result<(), ServeFault>
        ensures one { OnOk result
            (length self.new.loops.items ≡ length self.old.loops.items + 1) }
        ensures faults { IfErr result (λ fault. IsRunFault fault) }
    {
        let driver = LoopDriver::new(rt, alloc).map_err(of_poller)?;
        let handle = LoopHandle::new(alloc, driver.remote()?)?;
        let Some(published) = handle.published.try_clone() else {
            return Err(ServeFault::Memory);
        };
        self.handles.push(handle)?;
        self.loops.push(LoopParts { driver, published })?;
        Ok(())
    }
}
