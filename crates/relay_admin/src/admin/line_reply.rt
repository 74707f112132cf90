//! The reply to a line, which is a whole text or comes a part at a time.

ghost use Rattle.std.specs.Prelude.{◌≡◌, IfErr, IfOk, None, Some};
ghost use Rattle.relay_admin.specs.Words.{ℕ, List};
ghost use Rattle.relay_admin.specs.admin.Listing.{Comes, AnswerComesTo, ids_to_show};
ghost use Rattle.relay_admin.specs.admin.Parts.{left_of, said_of};
ghost use Rattle.relay_admin.specs.admin.Reply.{Exchange, answer_of};

use crate::admin::command::Command;
use crate::admin::desk::DeskAnswer;
use crate::admin::listing::Listing;
use crate::admin::reply::reply_to;
use crate::admin::reply_bytes::Reply;
use std::alloc::Allocator;

/// The reply to a line.
#[derive(Drop)]
pub enum LineReply<A: Allocator> {
    /// A text that is whole.
    Whole(Reply<A>),
    /// One that is made a part at a time.
    Each(Listing),
}

// The listing that a command has for this answer; otherwise the answer, as it was.
fn listing_of(command: &Command, answer: DeskAnswer) -> Result<Listing, DeskAnswer>
    ensures listing { IfOk result (λ listing. (looks : List Exchange) → (text : List ℕ)
        → Comes (left_of listing) looks text
        → AnswerComesTo (ids_to_show command.now (answer_of answer)) (answer_of answer) looks text) }
    ensures other { IfErr result (λ same. (ids_to_show command.now (answer_of answer) ≡ None)
        × (same ≡ answer)) }
{
    match answer {
        DeskAnswer::Ids(ids) => match command {
            Command::ShowAll => Ok(Listing::lines(ids)),
            Command::Targets => Ok(Listing::target_lines(ids)),
            _ => Ok(Listing::one_line(ids)),
        },
        other => Err(other),
    }
}

/// The reply to what the desk answered to a command.
pub fn line_reply_to<A: Allocator + Copy>(
    memory: A,
    command: &Command,
    answer: DeskAnswer,
) -> LineReply<A>
    ensures { (looks : List Exchange) → (text : List ℕ) → Comes (said_of result) looks text
        → AnswerComesTo (ids_to_show command.now (answer_of answer)) (answer_of answer) looks text }
{
    match listing_of(command, answer) {
        Ok(listing) => LineReply::Each(listing),
        Err(same) => LineReply::Whole(reply_to(memory, &same)),
    }
}
