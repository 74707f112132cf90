//! What a server of lines does with a line.

ghost use Rattle.std.specs.Prelude.{◌≡◌, [], IfOk};

use crate::runs::Runs;
use std::alloc::Global;
use std::io;
use std::time::Duration;

/// What follows the answer to a line, once that is sent.
#[derive(Clone, Copy, Debug, PartialEq, Eq, Drop)]
pub enum AfterLine {
    /// The next line.
    Listen,
    /// The end of the connection.
    Leave,
    /// That, and the end of the service, whose tasks may go on for so long
    /// (`ServiceCloser::shutdown`).
    Shutdown(Duration),
}

/// What a server of lines does with the lines of a client. One is served by one thread, among many
/// others; what clients share stands behind a lock.
pub trait LineHandler<R: Runs>: Drop {
    ghost use Rattle.std.specs.Prelude.{ℕ, List};
    ghost use Rattle.net.specs.declared.line_handler.AfterLine.{AfterLine};

    /// To a line one gives this answer and this follows, and it is so then. Whoever has nothing to
    /// say of it leaves it out.
    ghost answers: { Self → List ℕ → List ℕ → AfterLine → Self → Type 0 } = { λ _ _ _ _ _. Unit {0} };

    /// Of this one such a one is begun. Whoever has nothing to say of it leaves it out.
    ghost begins: { Self → Self → Type 0 } = { λ _ _. Unit {0} };

    /// One like this for a client who just connected. Where it is refused, the connection is closed.
    fn begin(&self, alloc: Global) -> io::Result<Self>
        ensures begun { IfOk result (λ made. begins self.now made) };

    /// Answers a line, which stands without its line feed: all that it puts into `out` is sent
    /// before the next line is heard. An error ends the connection at once, with no answer. The
    /// runtime is for locks that are held for short; where memory is wanted, `out` has an allocator.
    fn answer(&mut self, rt: &R, line: &[u8], out: &mut Vec<u8>) -> io::Result<AfterLine>
        requires empty { out.old.items ≡ [] }
        ensures answered { IfOk result (λ after.
            answers self.old line.now out.new.items after self.new) };

    /// Says something to a client whose line is longer than the limit, before the connection ends:
    /// nothing, where a server doesn't say what.
    fn too_long(&mut self, rt: &R, out: &mut Vec<u8>) -> io::Result<()>
        requires empty { out.old.items ≡ [] }
    {
        Ok(())
    }
}
