//! What the definitions of copies and accepts mean. The functions do nothing: their contracts are
//! laws, which the check proves.

ghost use Rattle.relay_core.specs.Laws.{EachIsDeliveredInOrder, PausesAreCapped};
ghost use Rattle.relay_core.specs.Laws.{NothingIsLost, BytesPassInParts, PartsJoin, LastPartJoins};
ghost use Rattle.relay_core.specs.Laws.{AcceptsBegin, AcceptsGoOn, AcceptsPause, AcceptsEnd};

use crate::poll_accept::PollAcceptGate;
use crate::poll_gate::PollGate;

/// However often a copy says that it waits, what it keeps is exactly what it has read and not yet
/// written, in order. What a whole copy wrote is a front of what it read, and all of it where it
/// ended at the reader's end.
pub fn bytes_pass_in_parts<G: PollGate>()
    ensures kept { NothingIsLost G.takes }
    ensures whole { BytesPassInParts G.takes }
{}

/// Any number of parts of a copy, as resumes make them, are one part, and end it as the last one
/// does.
pub fn parts_join<G: PollGate>()
    ensures more { PartsJoin G G.tells G.takes }
    ensures last { LastPartJoins G G.tells G.takes }
{}

/// A run of accepts delivers exactly what it accepted, in order.
pub fn each_is_delivered_in_order<T>()
    ensures { EachIsDeliveredInOrder T }
{}

/// The turns of an accept task, with the pauses between them that it asks for, are a run of
/// accepts, and what it delivers is what it accepted.
pub fn accepts_join<G: PollAcceptGate>()
    ensures begins { AcceptsBegin G G.tells }
    ensures goes_on { AcceptsGoOn G G.tells }
    ensures pauses { AcceptsPause G G.tells }
    ensures ends { AcceptsEnd G G.tells }
{}

/// The pause after a row of faults is 5 ms times a power of two, at most 1 s.
pub fn pauses_are_capped()
    ensures { PausesAreCapped }
{}
