//! What gives its bytes without a wait.

ghost use Rattle.std.specs.Prelude.{ℕ, List, Option, None, IfSome, IsNone};
ghost use Rattle.std.specs.Io.{ReadsAtMost};
ghost use Rattle.std.specs.Io.KnownBytes.{ReadConsumes, Keeps};

use std::io;

/// A reader whose reads don't wait, as a connection in its task. A reader of the program's own may
/// stand in its place, as in a test.
pub trait PollRead {
    // The bytes that reads will give from here on, where they are known.
    ghost remaining: { Self → Option (List ℕ) } = { λ _. None };

    /// Reads what is there: so many bytes, 0 at the end, or what failed. `None` says that nothing is
    /// there yet.
    fn poll_read(&mut self, buf: &mut [u8]) -> Option<io::Result<usize>>
        ensures bound { IfSome result (λ read. ReadsAtMost read buf.new) }
        ensures bytes { IfSome result (λ read.
            ReadConsumes (remaining self.old) (remaining self.new) read buf.new) }
        ensures pending { IsNone result → Keeps (remaining self.old) (remaining self.new) };
}
