//! A sink over a writer of std's.

ghost use Rattle.std.specs.Prelude.{◌≡◌, false, refl};
ghost use Rattle.std.proofs.Common.{◌∙◌};
ghost use Rattle.stream_base.specs.WriterSink.{writer_of};

use crate::attempt::{AttemptError, History};
use crate::sink::Sink;
use std::io::Write;

/// A writer whose writes and flushes are told apart by what it answered.
#[derive(Drop)]
pub struct WriterSink<'a, W> {
    writer: &'a mut W,
    history: History,
    took_nothing: bool,
    flushed: bool,
}

impl<'a, W: Write> WriterSink<'a, W> {
    /// A sink over this writer, which has neither failed, nor been interrupted, nor taken nothing.
    /// Once the sink is gone, the writer is as the sink left it; nothing is flushed then.
    pub fn new(writer: &'a mut W) -> WriterSink<'a, W>
        ensures same_reference { (writer_of result).ghost_name ≡ writer.entry.ghost_name }
        ensures bytes { ⟦<WriterSink<'a, W> as Sink>⟧.contents result ≡ W.contents writer.old }
        ensures row { ⟦<WriterSink<'a, W> as Sink>⟧.interruptions result ≡ 0 }
        ensures health { ⟦<WriterSink<'a, W> as Sink>⟧.failed result ≡ false }
        ensures progress { ⟦<WriterSink<'a, W> as Sink>⟧.took_nothing result ≡ false }
        ensures unflushed { ⟦<WriterSink<'a, W> as Sink>⟧.flushed result ≡ false }
    {
        WriterSink {
            writer,
            history: History::new(),
            took_nothing: false,
            flushed: false,
        }
    }
}

impl<'a, W: Write> Sink for WriterSink<'a, W> {
    ghost contents = { λ s. W.contents s.writer.now };

    ghost interruptions = { λ s. s.history.interruptions };

    ghost failed = { λ s. s.history.failed };

    ghost took_nothing = { λ s. s.took_nothing };

    ghost flushed = { λ s. s.flushed };

    ghost stays = { λ s t. s.writer.ghost_name ≡ t.writer.ghost_name };

    ghost stays_itself = { λ s. refl };

    ghost stays_on = { λ r s t p q. p ∙ q };

    fn try_write(&mut self, bytes: &[u8]) -> Result<usize, AttemptError> {
        let attempt = match self.writer.write(bytes) {
            Ok(n) => {
                if n > 0 {
                    self.flushed = false;
                } else if !bytes.is_empty() {
                    self.took_nothing = true;
                }
                Ok(n)
            }
            Err(error) => Err(AttemptError::of(&error)),
        };
        self.history.record(&attempt);
        attempt
    }

    fn try_flush(&mut self) -> Result<(), AttemptError> {
        let attempt = match self.writer.flush() {
            Ok(()) => {
                self.flushed = true;
                Ok(())
            }
            Err(error) => Err(AttemptError::of(&error)),
        };
        self.history.record(&attempt);
        attempt
    }
}
