//! What the contracts of a queue mean together, and what the strings of a JSON line spell. Each
//! function does nothing: its contract is a law, which the check proves.

ghost use Rattle.std.specs.Prelude.{◌≡◌, codes};
ghost use Rattle.relay_log.specs.declared.queue.TheConstants.{MOST_QUEUED_BYTES};
ghost use Rattle.relay_log.specs.declared.words.TheConstants.{LOST, NO_ID};
ghost use Rattle.relay_log.specs.Conservation.{EachPushIsTold};
ghost use Rattle.relay_log.specs.Spelled.{EachTextIsSpelled};

/// However lines are pushed and taken, what was taken and what waits are the lines that were taken
/// in, in order and whole, with a line `lost N`, in JSON its object, exactly where N were lost
/// between; and the lines taken in, the sum of all N and those lost since are as many as the pushes.
/// For fewer than 2^64 pushes, since the count stops there.
pub fn each_push_is_told()
    ensures { EachPushIsTold }
{}

/// What a JSON string has for a text spells it by RFC 8259, whatever bytes the text has: so a reader
/// gets back the names and addresses of a line.
pub fn a_text_reads_back()
    ensures { EachTextIsSpelled }
{}

/// The bound in figures: at most 65,536 bytes wait.
pub fn the_bound_in_figures()
    ensures { MOST_QUEUED_BYTES ≡ 65536 }
{}

/// The words in letters. The definitions follow the code's constants, so that this alone says which
/// they are.
pub fn the_words_in_letters()
    ensures lost { LOST.now ≡ codes "lost " }
    ensures no_id { NO_ID.now ≡ codes "-" }
{}
