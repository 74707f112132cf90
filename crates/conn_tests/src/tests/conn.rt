//! The subjects are those of Go's conformance suite of `net.Conn`, written anew. Each is a
//! scene: the steps of some roles at the two ends of one connection (`scene`), each in a thread of
//! its own (`acting`), over TCP and Unix sockets (`playing`), while one thread more turns the poller
//! (`world`). A role that is answered otherwise than its step says ends the test, and so does a scene
//! that doesn't end. When all roles have ended the books of both ends have to balance (`stage`).

mod acting;
mod bytes;
mod closing;
mod concurrent;
mod deadlines;
mod playing;
mod racing;
mod scene;
mod stage;
pub(super) mod world;

use super::{TURNS, comes_to, holds, pause, watch};
