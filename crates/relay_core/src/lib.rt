//! What a relay does with bytes, connections and pairs, as far as it can be said without a socket
//! or a thread: copying and accepting as values that go on when they are told to, and the decisions
//! about pairs. What they copy and accept through are traits.
#![tactic(auto)]

mod accept_ended;
mod accept_pauses;
mod accept_task;
mod buffers;
mod capacity;
mod connection_close;
mod connection_limit;
mod copying;
mod credits;
mod front;
mod kept;
pub mod laws;
mod lent;
mod loops;
mod moments;
mod pair_tasks;
mod passing;
mod placing;
mod poll_accept;
mod poll_gate;
mod session_limit;
mod silence;
mod source_state;
mod ways;

pub use accept_ended::{AcceptEnded, MAX_FAULTS_IN_A_ROW};
pub use accept_pauses::{RESTART_MS, next_pause_ms};
pub use accept_task::{ACCEPTS_IN_A_ROW, AcceptStep, Accepting};
pub use buffers::LOOP_BUFFER_BYTES;
pub use capacity::Capacity;
pub use connection_limit::{DEFAULT_PAIRS, MAX_PAIRS, PairLimit, has_room_for_pair};
pub use copying::{Copying, Ended, TURNS_IN_A_ROW};
pub use credits::Credits;
pub use lent::LoopMemory;
pub use loops::{Loops, MAX_LOOPS};
pub use moments::{Moments, has_come, idle_deadline, pause_end};
pub use pair_tasks::{FlowState, PairNext, PairTasks, Ways};
pub use passing::Step;
pub use placing::{loop_of, place_of_pair};
pub use poll_accept::PollAcceptGate;
pub use poll_gate::PollGate;
pub use session_limit::MAX_SESSIONS;
pub use silence::silence_end;
pub use source_state::SourceState;
pub use ways::{Side, Way, deadline_side, sink_of, source_of};
