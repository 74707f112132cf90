//! Reading, writing and accepting over halves that may have to wait: Go's `internal/poll` loops,
//! made of pure loops that are fed one outcome at a time.
#![tactic(auto)]

mod accept_loop;
mod fault;
pub mod laws;
mod limits;
mod outcome;
mod pair;
mod read_loop;
mod retries;
mod tries;
mod waits;
mod write_loop;

pub use accept_loop::{AcceptLoop, AcceptTurns, TryAccept, accept, accept_in_turn};
pub use fault::{Fault, WriteFault};
pub use limits::{MAX_RETRIES, MAX_TRY_BYTES, chunk_of};
pub use outcome::{AcceptOutcome, DevKind, Outcome};
pub use read_loop::{ReadLoop, ReadTurns, TryRead, read, read_in_turn};
pub use retries::Next;
pub use tries::{Progress, accept_now, read_now, write_now};
pub use waits::Waits;
pub use write_loop::{TryWrite, WriteLoop, WriteTurns, write, write_in_turn};
