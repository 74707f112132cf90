//! A share: what one worker was credited.
//!
//! It can't be copied and it must be spent: it goes back to `Book::settle` or `Book::gather`, or it
//! is given up.
//! In the ledger it holds one part, and its amount is the amount of that part.

ghost use Rattle.std.specs.Prelude.{◌≡◌};

use std::marker::Model;
use std::sync::ledger;
use std::sync::ledger::Ledger;

/// What was credited to one holder. Contracts see it as its amount.
pub struct Share<L: Ledger> {
    pub(crate) amount: u64,
    pub(crate) token: ledger::Share<L>,
}

impl<L: Ledger> Model for Share<L> {
    ghost use Rattle.std.specs.Prelude.{◌≡◌, ℕ, ◌^◌, ◌<◌};

    ghost Value = { ℕ };

    ghost view = { λ s. s.amount };

    ghost invariant = { λ s. (s.amount ≡ s.token.amount) × (s.token.parts ≡ 1)
        × (s.amount < 2 ^ 64) };
}

impl<L: Ledger> Share<L> {
    /// The sum of its credits.
    pub fn amount(&self) -> u64
        ensures { result ≡ self.now }
    {
        self.amount
    }

    /// Ends the share. Its amount stays in the book's total, and the book never gathers, since
    /// one share of those that were opened is gone.
    pub fn give_up(self) {
        let Share {
            amount: _,
            token: _,
        } = self;
    }
}

/// Gives up each share, as those that a refused `gather` gave back.
pub fn give_up_all<L: Ledger>(shares: Vec<Share<L>>) {
    let mut left = shares;
    while let Some(share) = left.pop() {
        share.give_up();
    }
    left.destroy_empty();
}

/// A share on its way through the join of a thread, whose result has to be droppable.
///
/// Where it is dropped and not taken out, its share is given up.
pub struct CarriedShare<L: Ledger> {
    share: Share<L>,
}

impl<L: Ledger> Model for CarriedShare<L> {
    ghost use Rattle.std.specs.Prelude.{ℕ};

    ghost Value = { ℕ };

    ghost view = { λ c. c.share };
}

impl<L: Ledger> Drop for CarriedShare<L> {
    fn drop(self) {
        let CarriedShare { share } = self;
        share.give_up();
    }
}

impl<L: Ledger> CarriedShare<L> {
    /// Carries this share.
    pub fn new(share: Share<L>) -> CarriedShare<L>
        ensures { result ≡ share }
    {
        CarriedShare { share }
    }

    /// The share, which has to be spent again.
    pub fn into_share(self) -> Share<L>
        ensures { result ≡ self }
    {
        let CarriedShare { share: carried } = self;
        carried
    }
}
