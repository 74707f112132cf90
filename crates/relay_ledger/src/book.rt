//! The book: the total of all credits, and how many shares are open.
//!
//! One ledger stands behind it, cut into `PARTS` parts. Each open share holds one part, and the
//! book keeps the rest, with the amounts of the shares that were settled. So the open shares' parts
//! and the rest are all parts, and where as many shares come back as are open, the ledger itself
//! tells that their amounts and the settled ones are the total. At run time a ledger's tokens take
//! no bytes.

ghost use Rattle.std.specs.Prelude.{◌≡◌, ◌+◌, ◌^◌, ◌<◌, ◌↔◌, false, true, sum};
ghost use Rattle.std.specs.Prelude.{IsOk, IfOk, OnOk, IfErr, OnErr};
ghost use Rattle.relay_ledger.specs.declared.book.TheConstants.{PARTS};
ghost use Rattle.relay_ledger.specs.Book.{OpensOne, Adds, Settles, Gathers, MayOpen, CannotOpen};
ghost use Rattle.relay_ledger.specs.Book.{AreAllShares};

use crate::gathering;
use crate::share::Share;
use std::marker::{Model, PhantomData};
use std::sync::ledger;
use std::sync::ledger::{Blank, Ledger};

/// The parts of the ledger that `Book::new` takes: one for each share that may be open, and one
/// that stays with the book.
pub const PARTS: u64 = 4_294_967_296;

/// The most shares of a book that are open at once.
pub const MAX_SHARES: u32 = (PARTS - 1) as u32;

/// The total would pass the greatest `u64`, or no more shares may be open.
#[derive(Clone, Copy, Debug, PartialEq, Eq, Drop)]
pub struct Full;

// That the ledger has all parts, beside no field whose type takes `L`.
#[derive(Drop)]
struct WholeLedger<L: Ledger> {
    of: PhantomData<L>,
    ghost all: { L.parts ≡ PARTS },
}

/// The total of all credits. `L` names the book, so a share fits its own book alone.
///
/// Contracts see the total, how many shares are open, what the settled ones were credited, and
/// whether it was gathered.
#[derive(Drop)]
pub struct Book<L: Ledger> {
    total: u64,
    opened: u32,
    gathered: bool,
    book: ledger::Book<L>,
    rest: ledger::Share<L>,
    whole: WholeLedger<L>,
}

impl<L: Ledger> Model for Book<L> {
    ghost use Rattle.std.specs.Prelude.{◌≡◌, ◌+◌, ◌^◌, ◌<◌, false, true};
    ghost use Rattle.relay_ledger.specs.declared.book.TheConstants.{PARTS};
    ghost use Rattle.relay_ledger.specs.Book.{Account};

    ghost Value = { Account };

    ghost view = { λ b. record {
      total = b.total;
      opened = b.opened;
      settled = b.rest.amount;
      gathered = b.gathered;
    } };

    ghost invariant = { λ b. (b.total ≡ b.book.total) × (b.total < 2 ^ 64) × (b.opened < 2 ^ 32)
        × (b.gathered ≡ false → b.rest.parts + b.opened ≡ PARTS)
        × (b.gathered ≡ true → b.rest.parts ≡ PARTS) };
}

impl<L: Ledger> Book<L> {
    /// An empty book on a new ledger of `PARTS` parts.
    pub fn new(blank: Blank) -> Book<L>
        requires name { blank.name ≡ L.name }
        requires parts { blank.parts ≡ L.parts }
        requires all { blank.parts ≡ PARTS }
        ensures total { result.total ≡ 0 }
        ensures opened { result.opened ≡ 0 }
        ensures settled { result.settled ≡ 0 }
        ensures gathered { result.gathered ≡ false }
    {
        let (book, rest) = blank.open::<L>();
        Book {
            total: 0,
            opened: 0,
            gathered: false,
            book,
            rest,
            whole: WholeLedger { of: PhantomData },
        }
    }

    /// The sum of all credits, also after `gather`.
    pub fn total(&self) -> u64
        ensures { result ≡ self.now.total }
    {
        self.total
    }

    /// How many shares were opened and not settled, also after `gather`.
    pub fn opened(&self) -> u32
        ensures { result ≡ self.now.opened }
    {
        self.opened
    }

    /// A share of amount 0. Refused where 4,294,967,295 are open or the book was gathered.
    pub fn open_share(&mut self) -> Result<Share<L>, Full>
        ensures amount { IfOk result (λ share. share ≡ 0) }
        ensures opened { OnOk result (OpensOne self.old self.new) }
        ensures may { OnOk result (MayOpen self.old) }
        ensures full { OnErr result (CannotOpen self.old) }
        ensures kept { OnErr result (self.new ≡ self.old) }
    {
        if self.gathered || self.opened == MAX_SHARES {
            return Err(Full);
        }
        let token = self.rest.split_off(1, 0);
        self.opened += 1;
        Ok(Share { amount: 0, token })
    }

    /// Adds `n` to the book and to the share. Refused where the total would pass the greatest
    /// `u64`, and then neither changes.
    pub fn credit(&mut self, share: &mut Share<L>, n: u64) -> Result<(), Full>
        ensures fits { IsOk result ↔ (self.old.total + n < 2 ^ 64) }
        ensures total { OnOk result (Adds self.old self.new n) }
        ensures amount { OnOk result (share.new ≡ share.old + n) }
        ensures kept { OnErr result (self.new ≡ self.old) }
        ensures share_kept { OnErr result (share.new ≡ share.old) }
    {
        let Some(total) = self.total.checked_add(n) else {
            return Err(Full);
        };
        self.book.audit(&mut share.token);
        self.book.add(&mut share.token, n);
        self.total = total;
        share.amount += n;
        Ok(())
    }

    /// Takes one share back: its amount stays in the total, and one share less is open. So a book
    /// whose shares are settled as their workers end serves any number of workers.
    pub fn settle(&mut self, share: Share<L>)
        ensures settled { Settles self.old self.new share }
        ensures was_open { (0 < self.old.opened) × (self.old.gathered ≡ false) }
    {
        let Share { amount: _, token } = share;
        self.rest.merge(token);
        self.book.audit(&mut self.rest);
        self.opened -= 1;
    }

    /// The total, which is the sum of the amounts of these shares and of those that were settled
    /// before. It takes all shares that are open, once; else the same shares come back, and nothing
    /// changed.
    pub fn gather(&mut self, shares: Vec<Share<L>>) -> Result<u64, Vec<Share<L>>>
        ensures exactly { IsOk result ↔ AreAllShares self.old shares.items }
        ensures total { IfOk result (λ total. total ≡ self.old.total) }
        ensures sum { IfOk result (λ total. total ≡ self.old.settled + sum shares.items) }
        ensures gathered { OnOk result (Gathers self.old self.new) }
        ensures returned { IfErr result (λ back. back ≡ shares) }
        ensures kept { OnErr result (self.new ≡ self.old) }
    {
        if self.gathered || shares.len() as u64 != self.opened as u64 {
            return Err(shares);
        }
        gathering::merge_all(&mut self.rest, shares);
        self.book.audit(&mut self.rest);
        self.gathered = true;
        Ok(self.total)
    }
}
