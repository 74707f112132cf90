//! The books of a loop. Its own thread alone has them, so that no credit takes a lock.

ghost use Rattle.std.specs.Prelude.{◌≡◌, IfSome, IfNone};
ghost use Rattle.relay_ledger.specs.Book.{OpensOne};
ghost use Rattle.relay_facts.specs.Books.{IsBlankOf, TakesBack};

use crate::totals::{Published, PublishedTotals, ToClients, ToTargets, Total, Totals};
use relay_core::Credits;
use relay_ledger::{Book, CarriedShare, Full, Share, give_up_all};
use std::alloc::Global;
use std::sync::Arc;
use std::sync::atomic::Ordering;
use std::sync::ledger::{Blank, Ledger};

/// The book of one way of a loop, of which others are told at each credit.
#[derive(Drop)]
pub struct LoopBook<L: Ledger, W> {
    book: Book<L>,
    published: Arc<Published<W>>,
}

impl<L: Ledger, W> LoopBook<L, W> {
    // A share of it.
    fn open(&mut self) -> Option<CarriedShare<L>>
        ensures opened { IfSome result (λ _. OpensOne self.old.book self.new.book) }
        ensures kept { IfNone result (self.new.book ≡ self.old.book) }
    {
        match self.book.open_share() {
            Ok(share) => Some(CarriedShare::new(share)),
            Err(_) => None,
        }
    }

    /// Takes a share back, so that none piles up.
    pub fn settle(&mut self, share: Option<CarriedShare<L>>)
        ensures { TakesBack self.old.book self.new.book share }
    {
        if let Some(share) = share {
            self.book.settle(share.into_share());
        }
    }

    // Its total, once all shares were settled. A book of which a share is lost has no total that
    // anybody could vouch for.
    fn gather(&mut self, alloc: Global) -> Option<Total<W>>
        ensures total { IfSome result (λ total. total.bytes ≡ self.old.book.total) }
        ensures settled { IfSome result (λ total. total.bytes ≡ self.old.book.settled) }
    {
        match self.book.gather(Vec::new(alloc)) {
            Ok(_) => Some(Total::of(&self.book)),
            Err(back) => {
                give_up_all(back);
                None
            }
        }
    }
}

impl<L: Ledger, W> Credits<L> for LoopBook<L, W> {
    fn credit(&mut self, share: &mut Share<L>, n: u64) -> Result<(), Full> {
        self.book.credit(share, n)?;
        self.published
            .bytes
            .store(self.book.total(), Ordering::SeqCst);
        Ok(())
    }
}

/// Both books of a loop.
#[derive(Drop)]
pub struct LoopBooks<U: Ledger, D: Ledger> {
    pub up: LoopBook<U, ToTargets>,
    pub down: LoopBook<D, ToClients>,
}

impl<U: Ledger, D: Ledger> LoopBooks<U, D> {
    /// Empty books, whose totals are told there.
    pub fn new(up: Blank, down: Blank, published: PublishedTotals) -> LoopBooks<U, D>
        requires up { IsBlankOf U.name U.parts up }
        requires down { IsBlankOf D.name D.parts down }
        ensures up { result.up.book.total ≡ 0 }
        ensures down { result.down.book.total ≡ 0 }
    {
        let PublishedTotals {
            up: up_total,
            down: down_total,
        } = published;
        LoopBooks {
            up: LoopBook {
                book: Book::new(up),
                published: up_total,
            },
            down: LoopBook {
                book: Book::new(down),
                published: down_total,
            },
        }
    }

    /// A share of each book, or of none.
    pub fn open_shares(&mut self) -> Option<(CarriedShare<U>, CarriedShare<D>)>
        ensures up { IfSome result (λ _. OpensOne self.old.up.book self.new.up.book) }
        ensures down { IfSome result (λ _. OpensOne self.old.down.book self.new.down.book) }
    {
        let up = self.up.open()?;
        match self.down.open() {
            Some(down) => Some((up, down)),
            None => {
                self.up.settle(Some(up));
                None
            }
        }
    }

    /// Both totals, once all shares were settled; none where one is missing.
    pub fn gather(&mut self, alloc: Global) -> Option<Totals>
        ensures up { IfSome result (λ totals. totals.up.bytes ≡ self.old.up.book.total) }
        ensures down { IfSome result (λ totals. totals.down.bytes ≡ self.old.down.book.total) }
        ensures up_settled { IfSome result (λ totals.
            totals.up.bytes ≡ self.old.up.book.settled) }
        ensures down_settled { IfSome result (λ totals.
            totals.down.bytes ≡ self.old.down.book.settled) }
    {
        let up = self.up.gather(alloc)?;
        let down = self.down.gather(alloc)?;
        Some(Totals { up, down })
    }
}
