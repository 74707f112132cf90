//! What the program says on standard error, and its exit status for it.

ghost use Rattle.std.specs.Prelude.{◌≡◌, ◌≤◌};
ghost use Rattle.relay_command.specs.ExitStatus.{status_of_fault, fault_of_trace};
ghost use Rattle.relay_command.specs.declared.fault.Fault.TheVariants.{Relay};
ghost use Rattle.relay_admin.specs.declared.serve_fault.ServeFault.TheVariants.{Memory};

use base_types::OutOfMemory;
use lockword_script::TraceFault;
use relay_admin::ServeFault;
use thiserror::Error;

/// Why the program ends without doing its job. The texts are the lines on standard error.
#[derive(Clone, Copy, Debug, PartialEq, Eq, Drop, Error)]
pub enum Fault {
    #[error("bad command line")]
    BadCommandLine,
    #[error("trace fault: read")]
    TraceRead,
    #[error("trace fault: write")]
    TraceWrite,
    #[error("trace fault: memory")]
    TraceMemory,
    /// No relay answers at an admin socket in time, or not with a whole reply.
    #[error("cannot reach admin")]
    Reach,
    /// A relay's reply can't be printed.
    #[error("cannot print reply")]
    Print,
    /// A relay doesn't run, or a rules file can't be read.
    #[error("{0}")]
    Relay(ServeFault),
}

/// Memory was refused while the command line was read.
pub const NO_MEMORY: Fault = Fault::Relay(ServeFault::Memory);

impl From<ServeFault> for Fault {
    ghost from_gives = { λ why fault. fault ≡ Relay why };

    fn from(why: ServeFault) -> Fault {
        Fault::Relay(why)
    }
}

impl From<OutOfMemory> for Fault {
    ghost from_gives = { λ _ fault. fault ≡ Relay Memory };

    fn from(_: OutOfMemory) -> Fault {
        NO_MEMORY
    }
}

impl Fault {
    /// The exit status: 2 for a command line, 3 for a device or memory.
    pub fn status(self) -> u8
        ensures status { result ≡ status_of_fault self }
        ensures known { result ≤ 3 }
    {
        match self {
            Fault::BadCommandLine => 2,
            Fault::TraceRead | Fault::TraceWrite | Fault::TraceMemory => 3,
            Fault::Reach | Fault::Print => 3,
            Fault::Relay(ServeFault::BadRules(_)) => 1,
            Fault::Relay(_) => 3,
        }
    }

    /// The fault of the program that a fault of its trace is.
    pub fn of_trace(fault: TraceFault) -> Fault
        ensures { result ≡ fault_of_trace fault }
    {
        match fault {
            TraceFault::Read => Fault::TraceRead,
            TraceFault::Write => Fault::TraceWrite,
            TraceFault::OutOfMemory => Fault::TraceMemory,
        }
    }
}
