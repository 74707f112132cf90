//! The run of a script, line by line as they come. It keeps the machine, the number of the line
//! that is read, and the reader of the lines: its memory doesn't grow with the script.
//!
//! A line counts as carried out once all its events are. The room for its printed line is reserved
//! before the first of them, so each line that is carried out is printed.

ghost use Rattle.std.specs.Prelude.{◌≡◌, ◌≤◌, ◌<◌, ◌⊎◌, ◌+◌, ◌-◌, ◌*◌, ◌++◌};
ghost use Rattle.lockword_script.specs.Words.{ℕ, List, [], IfOk, OnOk, OnErr, IfSome, IfNone};
ghost use Rattle.lockword_script.specs.Words.{length, lines_of, Read, Write, Op, signals_in};
ghost use Rattle.lockword_script.specs.Words.{LockState, census, encoded, transition, state_after};
ghost use Rattle.lockword_script.specs.Script.{Says, IsBadLine, events_of};
ghost use Rattle.lockword_script.specs.TraceOutput.{printed_of_events, printed_of_bad_line, Prints};
ghost use Rattle.lockword_script.specs.Progress.{ahead_of, progress_of, start, spent, IsReady};
ghost use Rattle.lockword_script.specs.Progress.{LeadsOn, LeadsToBadLine, LeadsPartly, LeadsToEnd};

use crate::outcome::End;
use crate::printed_line::{PRINTED_ROOM, Shown, print_bad_line, print_line};
use crate::script::{HOLDERS, MAX_LINE_BYTES, MAX_LINES, Order, decode};
use base_types::{Dir, OutOfMemory};
use lockword_core::{Answer, Machine};
use std::alloc::Global;
use stream_base::line_reader::{Found, LineReader};

/// The operation by each holder in turn; the answer is that of the last.
fn answer_last(machine: &mut Machine, order: Order) -> Result<Answer, OutOfMemory>
    requires some { 1 ≤ order.count }
    requires named { order.first + order.count ≤ HOLDERS }
    ensures { IfOk result (λ answer. (machine.new, answer) ≡ transition
        (state_after machine.old (events_of order.first (order.count - 1) order.op))
        (order.first + (order.count - 1)) order.op) }
{
    for done in 0..order.count - 1 {
        machine.step(order.first + done, order.op)?;
    }
    machine.step(order.first + (order.count - 1), order.op)
}

/// What is printed of the machine's state.
fn shown(machine: &Machine) -> Shown
    ensures word { result.word ≡ encoded (census machine.now) }
    ensures reading { result.reading ≡ signals_in Read machine.now.signals }
    ensures writing { result.writing ≡ signals_in Write machine.now.signals }
    ensures destroyed_by { result.destroyed_by ≡ machine.now.destroyed_by }
{
    Shown {
        word: machine.word(),
        reading: machine.signals(Dir::Read),
        writing: machine.signals(Dir::Write),
        destroyed_by: machine.destroyed_by(),
    }
}

/// Carries out what a line says, and prints it.
fn carry_out(machine: &mut Machine, order: Order, out: &mut Vec<u8>) -> Result<(), OutOfMemory>
    requires some { 1 ≤ order.count }
    requires named { order.first + order.count ≤ HOLDERS }
    ensures state { OnOk result
        (machine.new ≡ state_after machine.old (events_of order.first order.count order.op)) }
    ensures text { OnOk result (out.new.items
        ≡ out.old.items ++ printed_of_events machine.old order.first order.count order.op) }
    ensures err { OnErr result (out.new.items ≡ out.old.items) }
{
    out.reserve(PRINTED_ROOM)?;
    let answer = answer_last(machine, order)?;
    print_line(out, answer, shown(machine));
    Ok(())
}

/// Says that the line of this number is bad.
fn refuse(number: u64, out: &mut Vec<u8>) -> Result<(), OutOfMemory>
    ensures ok { OnOk result (out.new.items ≡ out.old.items ++ printed_of_bad_line number) }
    ensures err { OnErr result (out.new.items ≡ out.old.items) }
{
    out.reserve(PRINTED_ROOM)?;
    print_bad_line(out, number);
    Ok(())
}

/// The run of a script as far as its lines have come.
#[derive(Drop)]
pub struct ScriptRun {
    pub machine: Machine,
    pub number: u64,
    pub lines: LineReader<MAX_LINE_BYTES>,
}

impl ScriptRun {
    /// A run to which no byte has come.
    pub fn new(alloc: Global) -> ScriptRun
        ensures start { progress_of result ≡ start }
        ensures nothing { ahead_of result ≡ [] }
    {
        ScriptRun {
            machine: Machine::new(alloc),
            number: 1,
            lines: LineReader::new(),
        }
    }

    /// The line is whole: it is carried out, or it is bad, and then its number is the answer.
    fn end_line(&mut self, out: &mut Vec<u8>) -> Result<Option<u64>, OutOfMemory>
        ensures good { IfOk result (λ bad. IfNone bad ((first count : ℕ) × (asked : Op)
            × (self.old.number ≤ MAX_LINES) × Says self.old.lines.held first count asked
            × (progress_of self.new ≡ record {
              number = self.old.number + 1;
              state = state_after self.old.machine (events_of first count asked);
              partial = [];
            })
            × (out.new.items
            ≡ out.old.items ++ printed_of_events self.old.machine first count asked))) }
        ensures ahead { IfOk result (λ bad. IfNone bad (ahead_of self.new ≡ ahead_of self.old)) }
        ensures bad { IfOk result (λ bad. IfSome bad (λ number. (number ≡ self.old.number)
            × ((MAX_LINES < self.old.number) ⊎ IsBadLine self.old.lines.held)
            × (out.new.items ≡ out.old.items ++ printed_of_bad_line number))) }
        ensures err { OnErr result (out.new.items ≡ out.old.items) }
    {
        if self.number > MAX_LINES {
            return match refuse(self.number, out) {
                Ok(()) => Ok(Some(self.number)),
                Err(fault) => Err(fault),
            };
        }
        match decode(self.lines.line()) {
            None => match refuse(self.number, out) {
                Ok(()) => Ok(Some(self.number)),
                Err(fault) => Err(fault),
            },
            Some(order) => match carry_out(&mut self.machine, order, out) {
                Ok(()) => {
                    self.number += 1;
                    self.lines.start_line();
                    Ok(None)
                }
                Err(fault) => Err(fault),
            },
        }
    }

    /// Carries out the whole lines among the bytes that were read, up to a bad line, whose number
    /// is the answer.
    fn run_lines(&mut self, out: &mut Vec<u8>) -> Result<Option<u64>, OutOfMemory>
        requires { IsReady (progress_of self.old) }
        ensures ready { IfOk result (λ bad. IfNone bad (IsReady (progress_of self.new)
            × (spent (progress_of self.old) + length (ahead_of self.old)
            ≤ spent (progress_of self.new)))) }
        ensures all { IfOk result (λ bad. IfNone bad (ahead_of self.new ≡ [])) }
        ensures goes { IfOk result (λ bad. IfNone bad (LeadsOn (progress_of self.old)
            (progress_of self.new) (ahead_of self.old) out.old.items out.new.items)) }
        ensures stops { IfOk result (λ bad. IfSome bad (LeadsToBadLine (progress_of self.old)
            (ahead_of self.old) out.old.items out.new.items)) }
        ensures err { OnErr result
            (LeadsPartly (progress_of self.old) (ahead_of self.old) out.old.items out.new.items) }
    {
        'lines: loop {
            match self.lines.find_line() {
                Found::Unended => return Ok(None),
                Found::TooLong => {
                    return match refuse(self.number, out) {
                        Ok(()) => Ok(Some(self.number)),
                        Err(fault) => Err(fault),
                    };
                }
                Found::Line => match self.end_line(out) {
                    Ok(None) => {}
                    Ok(Some(number)) => return Ok(Some(number)),
                    Err(fault) => return Err(fault),
                },
            }
        }
    }

    /// No byte is left: a last line without its line feed is carried out, or is bad.
    fn finish(&mut self, out: &mut Vec<u8>) -> Result<End, OutOfMemory>
        requires { IsReady (progress_of self.old) }
        ensures ok { IfOk result (λ end. (printed : List ℕ)
            × (out.new.items ≡ out.old.items ++ printed)
            × Prints self.old.number self.old.machine (lines_of self.old.lines.held) printed end) }
        ensures err { OnErr result (out.new.items ≡ out.old.items) }
    {
        if self.lines.line().is_empty() {
            return Ok(End::Whole);
        }
        match self.end_line(out) {
            Ok(None) => Ok(End::Whole),
            Ok(Some(number)) => Ok(End::BadLine(number)),
            Err(fault) => Err(fault),
        }
    }

    /// Goes on through the bytes that were read, which are so many; none is the end of the script.
    /// The answer is how the script ended, if it has ended. What goes on is promised in the words
    /// of `run_lines`, written out: only here is some progress promised, and any end.
    pub fn advance(&mut self, count: usize, out: &mut Vec<u8>) -> Result<Option<End>, OutOfMemory>
        requires ready { IsReady (progress_of self.old) }
        requires count { count ≡ length (ahead_of self.old) }
        ensures ready { IfOk result (λ ended. IfNone ended (IsReady (progress_of self.new)
            × (spent (progress_of self.old) < spent (progress_of self.new)))) }
        ensures all { IfOk result (λ ended. IfNone ended (ahead_of self.new ≡ [])) }
        ensures goes { IfOk result (λ ended. IfNone ended (LeadsOn (progress_of self.old)
            (progress_of self.new) (ahead_of self.old) out.old.items out.new.items)) }
        ensures ends { IfOk result (λ ended. IfSome ended (LeadsToEnd (progress_of self.old)
            (ahead_of self.old) out.old.items out.new.items)) }
        ensures err { OnErr result
            (LeadsPartly (progress_of self.old) (ahead_of self.old) out.old.items out.new.items) }
    {
        if count == 0 {
            return match self.finish(out) {
                Ok(end) => Ok(Some(end)),
                Err(fault) => Err(fault),
            };
        }
        match self.run_lines(out) {
            Ok(None) => Ok(None),
            Ok(Some(number)) => Ok(Some(End::BadLine(number))),
            Err(fault) => Err(fault),
        }
    }
}
