//! When a read or a write is refused, and which timers are due: a poll state and a set of timers,
//! both without a clock of their own.
//!
//! Moments are nanoseconds of a clock that the caller hands in, from 0 to `u64::MAX`; nothing here
//! reads a clock, waits or starts a thread. `poll_state` decides for one descriptor, `timers` holds
//! the moments of many, and `laws` says what follows from both.
#![tactic(auto)]

mod call_deadlines;
mod deadline;
pub mod laws;
mod moments;
mod place_alarms;
mod poll_state;
mod refusal;
mod timer_order;
mod timers;
mod tournament;

pub use call_deadlines::CallDeadlines;
pub use deadline::{Deadline, Dirs};
pub use moments::{earlier, is_covered};
pub use place_alarms::PlaceAlarms;
pub use poll_state::{Look, PollState};
pub use refusal::Refusal;
pub use timers::{MAX_DUE, Timers};
