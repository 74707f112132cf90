//! What other programs may use, and `pollrelay` doesn't: calls that wait, for a thread that copies, one
//! that accepts, and one that serves an admin session.
#![tactic(auto)]

mod accepting;
mod answering;
mod buffers;
mod copying;
mod delivering;
mod desk;
mod fd_gate;
mod gate;
pub mod laws;
mod line_answer;
mod pair;
mod reply;
mod session;

pub use accepting::{AcceptGate, accept_worker};
pub use buffers::{BUFFER_BYTES, FIRST_BUFFER_BYTES, copy_by_need};
pub use copying::copy_worker;
pub use desk::Desk;
pub use fd_gate::FdGate;
pub use gate::CopyGate;
pub use pair::{AtEnd, CopyOf, Done, Worker, start_pair};
pub use reply::reply_of;
pub use session::{AdminFault, serve_admin, serve_on};
