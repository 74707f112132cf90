//! What the contracts of a book mean together. Each function does nothing: its contract is a law,
//! which the check proves.

ghost use Rattle.std.specs.Prelude.{◌≡◌};
ghost use Rattle.relay_ledger.specs.declared.book.TheConstants.{MAX_SHARES, PARTS};
ghost use Rattle.relay_ledger.specs.Conservation.{CreditsAreConserved};

/// However shares are opened, credited and settled, the total of the book is the sum over its
/// shares, open and settled, of the sums of their credits, it counts those that are open, and the
/// amount of each share is the sum of its own credits.
pub fn credits_are_conserved()
    ensures { CreditsAreConserved }
{}

/// The bounds of a book in figures: 4,294,967,295 shares are open at most, and the ledger has a
/// part for each and one for the book. The definitions follow the code's constants, so that this
/// alone says which they are.
pub fn the_bounds_in_figures()
    ensures shares { MAX_SHARES ≡ 4294967295 }
    ensures parts { PARTS ≡ 4294967296 }
{}
