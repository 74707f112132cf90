//! The lines that a run prints, put behind the text that waits to be written. The room for a line
//! is reserved before, so that printing itself can't be refused memory.

ghost use Rattle.std.specs.Prelude.{◌≡◌, ◌≤◌, ◌+◌, ◌++◌, length, vec_len, vec_capacity};
ghost use Rattle.std.specs.Fmt.{decimal};
ghost use Rattle.lockword_script.specs.TraceOutput.{answer_name, word_text, destroyer_text};
ghost use Rattle.lockword_script.specs.TraceOutput.{printed_line, printed_of_bad_line};

use itoa::Buffer;
use lockword_core::Answer;

/// The most bytes of an answer's name.
const NAME_ROOM: usize = 9;
/// The bytes of a word's digits.
const WORD_ROOM: usize = 16;
/// The most bytes of a number.
const NUMBER_ROOM: usize = 20;
/// The room in bytes that any printed line fits in: a name, a word, three numbers, and five bytes
/// between and behind them.
pub const PRINTED_ROOM: usize = NAME_ROOM + WORD_ROOM + 3 * NUMBER_ROOM + 5;

/// An answer's name.
fn name_of(answer: Answer) -> &'static str
    ensures name { result.now ≡ answer_name answer }
    ensures short { length result.now ≤ NAME_ROOM }
{
    match answer {
        Answer::Held => "held",
        Answer::Queued => "queued",
        Answer::Kept => "kept",
        Answer::Owes => "owes",
        Answer::Last => "last",
        Answer::Signalled => "signalled",
        Answer::Woken => "woken",
        Answer::Closing => "closing",
        Answer::Drained => "drained",
        Answer::Done => "done",
        Answer::Misuse => "misuse",
        Answer::Closed => "closed",
        Answer::TooMany => "toomany",
        Answer::Full => "full",
        Answer::NotYet => "notyet",
        Answer::Draining => "draining",
    }
}

/// Puts the piece behind the text, which has room for it.
fn append(out: &mut Vec<u8>, piece: &[u8])
    requires room { vec_len out.old + length piece.now ≤ vec_capacity out.old }
    ensures items { out.new.items ≡ out.old.items ++ piece.now }
    ensures len { vec_len out.new ≡ vec_len out.old + length piece.now }
    ensures capacity { vec_capacity out.old ≤ vec_capacity out.new }
{
    match out.extend_from_slice(piece) {
        Ok(()) => {}
        Err(_) => unreachable!(),
    }
}

/// Puts a number behind the text.
fn append_number(out: &mut Vec<u8>, number: u64)
    requires room { vec_len out.old + NUMBER_ROOM ≤ vec_capacity out.old }
    ensures items { out.new.items ≡ out.old.items ++ decimal number }
    ensures len { vec_len out.new ≤ vec_len out.old + NUMBER_ROOM }
    ensures capacity { vec_capacity out.old ≤ vec_capacity out.new }
{
    let mut buffer = Buffer::new();
    append(out, buffer.format(number).as_bytes());
}

/// Puts a word's sixteen digits behind the text.
fn append_word(out: &mut Vec<u8>, word: u64)
    requires room { vec_len out.old + WORD_ROOM ≤ vec_capacity out.old }
    ensures items { out.new.items ≡ out.old.items ++ word_text word }
    ensures len { vec_len out.new ≡ vec_len out.old + WORD_ROOM }
    ensures capacity { vec_capacity out.old ≤ vec_capacity out.new }
{
    let mut digits = [0u8; WORD_ROOM];
    match hex::encode_to_slice(word.to_be_bytes(), &mut digits) {
        Ok(()) => append(out, &digits),
        Err(_) => unreachable!(),
    }
}

/// Puts who destroyed, or a dash, behind the text.
fn append_destroyer(out: &mut Vec<u8>, destroyed_by: Option<u64>)
    requires room { vec_len out.old + NUMBER_ROOM ≤ vec_capacity out.old }
    ensures items { out.new.items ≡ out.old.items ++ destroyer_text destroyed_by }
    ensures len { vec_len out.new ≤ vec_len out.old + NUMBER_ROOM }
    ensures capacity { vec_capacity out.old ≤ vec_capacity out.new }
{
    match destroyed_by {
        None => append(out, b"-"),
        Some(holder) => append_number(out, holder),
    }
}

/// What is printed of the state after an event: the word, the signals of readers and of writers,
/// and who destroyed.
#[derive(Clone, Copy, Drop)]
pub struct Shown {
    pub word: u64,
    pub reading: u64,
    pub writing: u64,
    pub destroyed_by: Option<u64>,
}

/// Prints the line of an answer.
pub fn print_line(out: &mut Vec<u8>, answer: Answer, shown: Shown)
    requires room { vec_len out.old + PRINTED_ROOM ≤ vec_capacity out.old }
    ensures { out.new.items ≡ out.old.items
        ++ printed_line answer shown.word shown.reading shown.writing shown.destroyed_by }
{
    append(out, name_of(answer).as_bytes());
    append(out, b" ");
    append_word(out, shown.word);
    append(out, b" ");
    append_number(out, shown.reading);
    append(out, b" ");
    append_number(out, shown.writing);
    append(out, b" ");
    append_destroyer(out, shown.destroyed_by);
    append(out, b"\n");
}

/// Says that the line of this number is bad.
#[tactic(auto, unfolding(crate::specs::TraceOutput::printed_of_bad_line))]
pub fn print_bad_line(out: &mut Vec<u8>, number: u64)
    requires room { vec_len out.old + PRINTED_ROOM ≤ vec_capacity out.old }
    ensures { out.new.items ≡ out.old.items ++ printed_of_bad_line number }
{
    append(out, b"bad line ");
    append_number(out, number);
    append(out, b"\n");
}
