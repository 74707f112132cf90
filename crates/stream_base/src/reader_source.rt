//! A source over a reader of std's.

ghost use Rattle.std.specs.Prelude.{◌≡◌, false, refl};
ghost use Rattle.std.proofs.Common.{◌∙◌};
ghost use Rattle.stream_base.specs.ReaderSource.{reader_of};

use crate::attempt::{AttemptError, History};
use crate::source::Source;
use std::io::Read;

/// A reader whose reads are told apart by what it answered.
#[derive(Drop)]
pub struct ReaderSource<'a, R> {
    reader: &'a mut R,
    history: History,
}

impl<'a, R: Read> ReaderSource<'a, R> {
    /// A source over this reader, which has neither failed nor been interrupted. Once the source is
    /// gone, the reader is as the source left it.
    pub fn new(reader: &'a mut R) -> ReaderSource<'a, R>
        ensures same_reference { (reader_of result).ghost_name ≡ reader.entry.ghost_name }
        ensures bytes { ⟦<ReaderSource<'a, R> as Source>⟧.remaining result
            ≡ R.remaining reader.old }
        ensures row { ⟦<ReaderSource<'a, R> as Source>⟧.interruptions result ≡ 0 }
        ensures health { ⟦<ReaderSource<'a, R> as Source>⟧.failed result ≡ false }
    {
        ReaderSource {
            reader,
            history: History::new(),
        }
    }
}

impl<'a, R: Read> Source for ReaderSource<'a, R> {
    ghost remaining = { λ s. R.remaining s.reader.now };

    ghost interruptions = { λ s. s.history.interruptions };

    ghost failed = { λ s. s.history.failed };

    ghost stays = { λ s t. s.reader.ghost_name ≡ t.reader.ghost_name };

    ghost stays_itself = { λ s. refl };

    ghost stays_on = { λ r s t p q. p ∙ q };

    fn try_read(&mut self, buf: &mut [u8]) -> Result<usize, AttemptError> {
        let attempt = match self.reader.read(buf) {
            Ok(n) => Ok(n),
            Err(error) => Err(AttemptError::of(&error)),
        };
        self.history.record(&attempt);
        attempt
    }
}
