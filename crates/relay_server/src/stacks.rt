//! The stacks of the relay's own threads. A page that nobody touches takes no memory.

/// Of a loop's thread, in bytes. Its turns, and a set-up within them, hand on values of some KiB.
pub(crate) const LOOP_STACK_BYTES: usize = 262_144;

/// Of the thread that looks names up, in bytes: the system's resolver has buffers of some KiB on it.
pub(crate) const NAMES_STACK_BYTES: usize = 262_144;
