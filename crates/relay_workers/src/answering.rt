//! The lines of a session, each of whose replies is written and flushed when its line is whole. The
//! desk may take memory of `alloc`; replies take theirs of `memory`, which a session passes as the
//! same.

ghost use Rattle.std.specs.Prelude.{◌≡◌, [], OnOk, OnErr};
ghost use Rattle.stream_base.specs.Attempt.{WriteStopped};
ghost use Rattle.relay_admin.specs.admin.Parts.{said_of};
ghost use Rattle.relay_admin.specs.admin.Progress.{IsReady, ReplyComesTo, ahead_of, position};
ghost use Rattle.relay_workers.specs.Answering.{EndComesTo, LineComesTo, LinesComeTo, SinkAfter};
ghost use Rattle.relay_workers.specs.Devices.{IsFlushedOrUntouched};

use crate::delivering::deliver;
use crate::desk::Desk;
use crate::line_answer::answer_line;
use relay_admin::{AdminEnd, BAD_COMMAND, Dialogue, LineReply};
use std::alloc::{Allocator, Global};
use stream_base::line_reader::Found;
use stream_base::sink::{Sink, SinkFault, deliver_to};

/// What bytes did to a session: it goes on, it ended, or a reply couldn't be written or flushed.
#[derive(Clone, Copy, Drop)]
pub(crate) enum Step {
    GoesOn,
    Ended(AdminEnd),
    CutOff,
}

/// Answers the whole lines among the bytes that were read, up to one that ends the session.
pub(crate) fn answer_lines<A: Allocator + Copy, K: Sink, D: Desk>(
    dialogue: &mut Dialogue,
    alloc: Global,
    memory: A,
    sink: &mut K,
    desk: &mut D,
) -> Step
    requires ready { IsReady (position dialogue.old) }
    requires uninterrupted { K.interruptions sink.old ≡ 0 }
    ensures does { LinesComeTo result (position dialogue.old) (position dialogue.new)
        (ahead_of dialogue.old) (D.exchanges desk.old) (D.exchanges desk.new)
        (K.contents sink.old) (K.contents sink.new) }
    ensures all { result ≡ Step.GoesOn → ahead_of dialogue.new ≡ [] }
    ensures sink { SinkAfter result (K.contents sink.old) (K.contents sink.new)
        (K.flushed sink.old) (K.flushed sink.new)
        (K.failed sink.new) (K.interruptions sink.new) (K.took_nothing sink.new) }
    ensures same { K.stays sink.old sink.new }
{
    'answers: loop {
        match dialogue.lines.find_line() {
            Found::Unended => return Step::GoesOn,
            Found::TooLong => {
                return match deliver_to(sink, BAD_COMMAND) {
                    Ok(()) => Step::Ended(AdminEnd::TooLong),
                    Err(_) => Step::CutOff,
                };
            }
            Found::Line => match end_line(dialogue, alloc, memory, sink, desk) {
                Step::GoesOn => {}
                Step::Ended(end) => return Step::Ended(end),
                Step::CutOff => return Step::CutOff,
            },
        }
    }
}

// Answers the line, which is whole. It takes and keeps what `answer_lines` does, which calls
// it once a line; what it does to the session differs, so each has its clauses.
fn end_line<A: Allocator + Copy, K: Sink, D: Desk>(
    dialogue: &mut Dialogue,
    alloc: Global,
    memory: A,
    sink: &mut K,
    desk: &mut D,
) -> Step
    requires ready { IsReady (position dialogue.old) }
    requires uninterrupted { K.interruptions sink.old ≡ 0 }
    ensures does { LineComesTo result (position dialogue.old) (position dialogue.new)
        (D.exchanges desk.old) (D.exchanges desk.new)
        (K.contents sink.old) (K.contents sink.new) }
    ensures ahead { ahead_of dialogue.new ≡ ahead_of dialogue.old }
    ensures sink { SinkAfter result (K.contents sink.old) (K.contents sink.new)
        (K.flushed sink.old) (K.flushed sink.new)
        (K.failed sink.new) (K.interruptions sink.new) (K.took_nothing sink.new) }
    ensures same { K.stays sink.old sink.new }
{
    let (reply, end) = reply_to_line(dialogue, alloc, memory, desk);
    if let Err(_) = deliver(memory, sink, desk, reply) {
        return Step::CutOff;
    }
    match end {
        Some(end) => Step::Ended(end),
        None => Step::GoesOn,
    }
}

// The reply to the line, which is whole, and how the session ends by it, if it does.
fn reply_to_line<A: Allocator + Copy, D: Desk>(
    dialogue: &mut Dialogue,
    alloc: Global,
    memory: A,
    desk: &mut D,
) -> (LineReply<A>, Option<AdminEnd>)
    requires ready { IsReady (position dialogue.old) }
    ensures does { ReplyComesTo result.1 (position dialogue.old) (position dialogue.new)
        (D.exchanges desk.old) (D.exchanges desk.new) (said_of result.0) }
    ensures ahead { ahead_of dialogue.new ≡ ahead_of dialogue.old }
{
    let (reply, end) = answer_line(alloc, memory, desk, dialogue.lines.line());
    let end = dialogue.go_behind_line(end);
    (reply, end)
}

/// Answers what has come of a last line that lacks its line feed: no byte is left.
pub(crate) fn finish<A: Allocator + Copy, K: Sink, D: Desk>(
    dialogue: &mut Dialogue,
    alloc: Global,
    memory: A,
    sink: &mut K,
    desk: &mut D,
) -> Result<AdminEnd, SinkFault>
    requires ready { IsReady (position dialogue.old) }
    requires uninterrupted { K.interruptions sink.old ≡ 0 }
    ensures does { EndComesTo result (position dialogue.old)
        (D.exchanges desk.old) (D.exchanges desk.new)
        (K.contents sink.old) (K.contents sink.new) }
    ensures flushed { OnOk result (IsFlushedOrUntouched
        (K.contents sink.old) (K.contents sink.new) (K.flushed sink.old) (K.flushed sink.new)) }
    ensures cause { OnErr result (WriteStopped
        (K.failed sink.new) (K.interruptions sink.new) (K.took_nothing sink.new)) }
    ensures same { K.stays sink.old sink.new }
{
    if dialogue.lines.line().is_empty() {
        return Ok(AdminEnd::End);
    }
    match end_line(dialogue, alloc, memory, sink, desk) {
        Step::GoesOn => Ok(AdminEnd::End),
        Step::Ended(end) => Ok(end),
        Step::CutOff => Err(SinkFault),
    }
}
