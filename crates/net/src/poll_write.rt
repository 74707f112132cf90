//! What takes bytes without a wait.

ghost use Rattle.std.specs.Prelude.{ℕ, List, Option, None, IfSome, IsNone};
ghost use Rattle.std.specs.Io.{WritesAtMost};
ghost use Rattle.std.specs.Io.KnownBytes.{WriteAppends, Keeps};

use crate::runs::Runs;
use crate::stream::Conn;
use std::io;

/// A writer whose writes don't wait, as a connection in its task. A writer of the program's own may
/// stand in its place, as in a test.
pub trait PollWrite {
    // The bytes that writes took so far, where they are known.
    ghost written: { Self → Option (List ℕ) } = { λ _. None };

    /// Writes what is taken at once: so many bytes from the front, or what failed. `None` says that
    /// none is taken yet.
    fn poll_write(&mut self, buf: &[u8]) -> Option<io::Result<usize>>
        ensures bound { IfSome result (λ wrote. WritesAtMost wrote buf.now) }
        ensures bytes { IfSome result (λ wrote.
            WriteAppends (written self.old) (written self.new) wrote buf.now) }
        ensures pending { IsNone result → Keeps (written self.old) (written self.new) };
}

impl<R: Runs> PollWrite for Conn<R> {
    fn poll_write(&mut self, buf: &[u8]) -> Option<io::Result<usize>> {
        Conn::poll_write(self, buf)
    }
}
