//! What is said of a rules file, or of a configuration: the line that `check` prints, and its exit
//! status.
//!
//! | Status | Meaning |
//! |---|---|
//! | 0 | the text is a rules file |
//! | 1 | it is none |
//! | 3 | the line couldn't be written |

ghost use Rattle.std.specs.Prelude.{◌≡◌, ◌≢◌, ◌≤◌, ◌⊎◌, length};
ghost use Rattle.stream_base.specs.Fronts.{AppendsFront};
ghost use Rattle.std.specs.Io.KnownBytes.{Appends};
ghost use Rattle.relay_admin.specs.declared.rules.verdict.Verdict.{Verdict};
ghost use Rattle.relay_admin.specs.rules.Verdict.{IsVerdict, verdict_words, verdict_number};
ghost use Rattle.relay_admin.specs.rules.Verdict.{verdict_line, verdict_status};

use crate::rules::file::{Rules, RulesFault};
use arrayvec::ArrayString;
use itoa::Buffer;
use std::fmt;
use std::fmt::Display;
use std::io::Write;
use stream_base::sink::deliver_to;
use stream_base::writer_sink::WriterSink;

/// The most bytes of what is said of a configuration's fault, behind `bad config: `.
pub const MAX_WHY_BYTES: usize = 440;

/// The most bytes of a verdict's line: the words, a number, what is said of a configuration, and a
/// line feed. A reply holds so many in the value itself.
const MAX_LINE_BYTES: usize = 512;

/// What is said of a text.
#[derive(Clone, Copy, Debug, PartialEq, Eq, Drop)]
pub enum Verdict {
    /// It is a rules file, or a configuration, with so many rules.
    Rules(u32),
    /// It is no rules file, and this is its first fault.
    Bad(RulesFault),
    /// It is no configuration that is served, and this is said of its first fault.
    BadConfig(ArrayString<MAX_WHY_BYTES>),
}

impl Verdict {
    /// The verdict on a text. A text has exactly one.
    pub fn of(text: &[u8]) -> Verdict
        ensures { IsVerdict text.now result }
    {
        match Rules::parse(text) {
            Ok(rules) => Verdict::Rules(rules.as_slice().len() as u32),
            Err(fault) => Verdict::Bad(fault),
        }
    }

    /// The exit status of a verdict that was printed.
    pub fn status(&self) -> u8
        ensures { result ≡ verdict_status self.now }
    {
        match self {
            Verdict::Rules(_) => 0,
            Verdict::Bad(_) => 1,
            Verdict::BadConfig(_) => 1,
        }
    }

    /// The line that says it, with its line feed.
    pub fn line(&self) -> ArrayString<MAX_LINE_BYTES>
        ensures { result.bytes ≡ verdict_line self.now }
    {
        let mut line = ArrayString::new();
        line.push_str(self.words());
        if let Some(number) = self.number() {
            let mut digits = Buffer::new();
            line.push_str(digits.format(number));
        }
        if let Verdict::BadConfig(why) = self {
            line.push_str(why.as_str());
        }
        line.push_str("\n");
        line
    }

    // The words before the number.
    fn words(&self) -> &'static str
        ensures words { result.now ≡ verdict_words self.now }
        ensures short { length result.now ≤ 39 }
    {
        match self {
            Verdict::Rules(_) => "rules ",
            Verdict::Bad(RulesFault::TooLong) => "bad rules: too long",
            Verdict::Bad(RulesFault::BadLine(_)) => "bad rules: line ",
            Verdict::Bad(RulesFault::TooMany(_)) => "bad rules: too many at line ",
            Verdict::Bad(RulesFault::SameName(_)) => "bad rules: same name at line ",
            Verdict::Bad(RulesFault::SameListen(_)) => "bad rules: same listen address at line ",
            Verdict::BadConfig(_) => "bad config: ",
        }
    }

    // How many rules, or the line's number.
    fn number(&self) -> Option<u32>
        ensures { result ≡ verdict_number self.now }
    {
        match self {
            Verdict::Rules(count) => Some(*count),
            Verdict::Bad(RulesFault::TooLong) => None,
            Verdict::Bad(RulesFault::BadLine(line)) => Some(*line),
            Verdict::Bad(RulesFault::TooMany(line)) => Some(*line),
            Verdict::Bad(RulesFault::SameName(line)) => Some(*line),
            Verdict::Bad(RulesFault::SameListen(line)) => Some(*line),
            Verdict::BadConfig(_) => None,
        }
    }

    /// Prints it, and gives the exit status. No memory is taken.
    pub fn print<W: Write>(&self, writer: &mut W) -> u8
        ensures known { (result ≡ verdict_status self.now) ⊎ (result ≡ 3) }
        ensures said { result ≢ 3
            → Appends (W.contents writer.old) (W.contents writer.new) (verdict_line self.now) }
        // A front of it was written.
        ensures fault { result ≡ 3
            → AppendsFront (W.contents writer.old) (W.contents writer.new) (verdict_line self.now) }
    {
        let line = self.line();
        let mut sink = WriterSink::new(writer);
        match deliver_to(&mut sink, line.as_bytes()) {
            Ok(()) => self.status(),
            Err(_) => 3,
        }
    }
}

/// Its line without the line feed, for a fault that shows it.
impl Display for Verdict {
    fn fmt<W: fmt::Write>(&self, f: &mut fmt::Formatter<W>) -> fmt::Result {
        let mut line = self.line();
        let _ = line.pop();
        f.write_str(line.as_str())
    }
}

/// Prints the verdict on a text, and gives the exit status. No memory is taken.
pub fn check_status<W: Write>(text: &[u8], writer: &mut W) -> u8
    ensures known { (result ≡ 0) ⊎ ((result ≡ 1) ⊎ (result ≡ 3)) }
    // The line of the text's verdict was written, and nothing else.
    ensures said { result ≢ 3 → (verdict : Verdict) × IsVerdict text.now verdict
        × (result ≡ verdict_status verdict)
        × Appends (W.contents writer.old) (W.contents writer.new) (verdict_line verdict) }
    // A front of it was written.
    ensures fault { result ≡ 3 → (verdict : Verdict) × IsVerdict text.now verdict
        × AppendsFront (W.contents writer.old) (W.contents writer.new) (verdict_line verdict) }
{
    Verdict::of(text).print(writer)
}
