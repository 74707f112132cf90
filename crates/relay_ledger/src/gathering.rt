//! All shares made one, with all their parts and amounts.

ghost use Rattle.std.specs.Prelude.{◌≡◌, ◌+◌, sum, vec_len};

use crate::share::Share;
use std::sync::ledger;
use std::sync::ledger::Ledger;

/// Merges the shares into one.
pub(crate) fn merge_all<L: Ledger>(rest: &mut ledger::Share<L>, shares: Vec<Share<L>>)
    ensures parts { rest.new.parts ≡ rest.old.parts + vec_len shares }
    ensures amount { rest.new.amount ≡ rest.old.amount + sum shares.items }
{
    let mut left = shares;
    while let Some(share) = left.pop() {
        let Share { amount: _, token } = share;
        rest.merge(token);
    }
    left.destroy_empty();
}
