//! What a fault of a call below is to the relay.

ghost use Rattle.std.specs.Prelude.{◌≡◌};
ghost use Rattle.relay_shared.specs.PollerFault.{poller_fault};

use relay_admin::ServeFault;
use rwloops::Fault;

/// What a fault of the poller is to the relay.
pub fn of_poller(fault: Fault) -> ServeFault
    ensures { result ≡ poller_fault fault }
{
    match fault {
        Fault::OutOfMemory => ServeFault::Memory,
        _ => ServeFault::Device,
    }
}
