//! What a relay's log says of a connection that ended or was refused, as text or as JSON, and the
//! bounded queue through which lines go to the thread that writes them. No thread, no socket, no clock
//! and no file.
#![tactic(auto)]

pub mod ended;
pub mod format;
mod json;
pub mod laws;
pub mod line;
pub mod moment;
pub mod queue;
pub mod words;
