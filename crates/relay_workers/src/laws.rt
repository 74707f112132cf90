//! What the definitions of the workers mean. The functions do nothing: their contracts are laws,
//! which the check proves.

ghost use Rattle.relay_workers.specs.Laws.{BytesPassInOrder, FullBookTellsTheLastWrite};
ghost use Rattle.relay_workers.specs.Laws.{WholeWritesMakeRounds};

use crate::gate::CopyGate;

/// A worker offers its writer exactly the bytes that it read, in order and once. What was written
/// is a front of them, and all of them where it ended at the reader's end.
pub fn bytes_pass_in_order()
    ensures { BytesPassInOrder }
{}

/// Where a worker ended at a full book, its last write took all that was read last or failed, and
/// the count that the end tells is that of the answer which the gate gave.
pub fn full_book_tells_the_last_write()
    ensures { FullBookTellsTheLastWrite }
{}

/// Over a gate that waits, a copy that is resumed to its end is a run of `copy_worker`.
pub fn whole_writes_make_rounds<G: CopyGate>()
    ensures { WholeWritesMakeRounds G G.tells }
{}
