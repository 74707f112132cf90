//! A half and its waits as one value, whose events are those of both.
ghost use Rattle.std.specs.Prelude.{◌≡◌};
ghost use Rattle.rwloops.specs.Turns.{EachTells, nothing_told};
ghost use Rattle.rwloops.specs.Pair.{half_of, waits_of};

use crate::accept_loop::{AcceptTurns, TryAccept};
use crate::outcome::{AcceptOutcome, Outcome};
use crate::read_loop::{ReadTurns, TryRead};
use crate::waits::Waits;
use crate::write_loop::{TryWrite, WriteTurns};
use base_types::Dir;
use deadline_core::Refusal;

/// A half and its waits. Each tells its own events alone, since the one knows nothing of the other.
#[derive(Drop)]
pub(crate) struct Pair<'h, 'w, H, W> {
    half: &'h mut H,
    waits: &'w mut W,
}

impl<'h, 'w, H, W> Pair<'h, 'w, H, W> {
    /// This half and these waits, which are as the pair left them once it is gone.
    pub(crate) fn new(half: &'h mut H, waits: &'w mut W) -> Pair<'h, 'w, H, W>
        ensures half { (half_of result).ghost_name ≡ half.entry.ghost_name }
        ensures waits { (waits_of result).ghost_name ≡ waits.entry.ghost_name }
        ensures half_value { (half_of result).now ≡ half.old }
        ensures waits_value { (waits_of result).now ≡ waits.old }
    {
        Pair { half, waits }
    }
}

impl<H: TryRead, W: Waits> ReadTurns for Pair<'_, '_, H, W> {
    ghost went = { λ p events q. EachTells H.tells W.tells p.half q.half p.waits q.waits events };

    fn prepare(&mut self, dir: Dir) -> Result<(), Refusal> {
        self.waits.prepare(dir)
    }

    fn wait(&mut self, dir: Dir) -> Result<(), Refusal> {
        self.waits.wait(dir)
    }

    fn try_read(&mut self, buf: &mut [u8]) -> Outcome {
        self.half.try_read(buf)
    }

    ghost went_nowhere = { λ p. nothing_told H.tells W.tells p.half p.waits };
}

impl<H: TryWrite, W: Waits> WriteTurns for Pair<'_, '_, H, W> {
    ghost went = { λ p events q. EachTells H.tells W.tells p.half q.half p.waits q.waits events };

    fn prepare(&mut self, dir: Dir) -> Result<(), Refusal> {
        self.waits.prepare(dir)
    }

    fn wait(&mut self, dir: Dir) -> Result<(), Refusal> {
        self.waits.wait(dir)
    }

    fn try_write(&mut self, bytes: &[u8]) -> Outcome {
        self.half.try_write(bytes)
    }

    ghost went_nowhere = { λ p. nothing_told H.tells W.tells p.half p.waits };
}

impl<H: TryAccept, W: Waits> AcceptTurns for Pair<'_, '_, H, W> {
    type T = H::T;

    ghost went = { λ p events q. EachTells H.tells W.tells p.half q.half p.waits q.waits events };

    fn prepare(&mut self, dir: Dir) -> Result<(), Refusal> {
        self.waits.prepare(dir)
    }

    fn wait(&mut self, dir: Dir) -> Result<(), Refusal> {
        self.waits.wait(dir)
    }

    fn try_accept(&mut self) -> AcceptOutcome<H::T> {
        self.half.try_accept()
    }

    ghost went_nowhere = { λ p. nothing_told H.tells W.tells p.half p.waits };
}
