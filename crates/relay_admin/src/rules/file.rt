//! A rules file: at most 65,536 bytes, at most 64 rules, no two with one name or one listening
//! address.

ghost use Rattle.std.specs.Prelude.{◌≡◌, ◌<◌, ◌+◌, List, ◌∷◌, length, IfOk, IfErr};
ghost use Rattle.stream_base.specs.Lines.{lines_of};
ghost use Rattle.relay_admin.specs.rules.Grammar.{Entry, entry_of, entries_of};
ghost use Rattle.relay_admin.specs.rules.Fault.{SaysRules, SaysFault};
ghost use Rattle.relay_admin.specs.rules.Reading.{TakesLine, finds_listen, finds_name, is_skipped};

use crate::rules::addr::is_same_addr;
use crate::rules::rule::{Rule, rule_of};
use crate::text::split_once;
use arrayvec::ArrayVec;
use std::marker::Model;

/// The most bytes of a rules file.
pub const MAX_BYTES: usize = 65_536;

/// The most rules of a file.
pub const MAX_RULES: usize = 64;

/// The first fault of a rules file. A number is that of the line, from 1.
#[derive(Clone, Copy, Debug, PartialEq, Eq, Drop)]
pub enum RulesFault {
    /// The text has more than 65,536 bytes. Tested before any line.
    TooLong,
    /// The line is neither empty nor a comment, and spells no rule.
    BadLine(u32),
    /// The line spells a rule, and 64 rules stand before it.
    TooMany(u32),
    /// A rule before this one has its name.
    SameName(u32),
    /// A rule before this one listens on its address.
    SameListen(u32),
}

/// The rules of a file, in its order. They lie in the value itself: no memory is taken.
#[derive(Drop)]
pub struct Rules {
    rules: ArrayVec<Rule, MAX_RULES>,
}

impl Model for Rules {
    ghost Value = { List Entry };

    ghost view = { λ r. entries_of r.rules.items };
}

impl Rules {
    /// The rules of a text, or its first fault. `TooLong` is tested first; then the lines in turn,
    /// and for each line the faults in the order of `RulesFault`.
    pub fn parse(text: &[u8]) -> Result<Rules, RulesFault>
        ensures rules { IfOk result (λ rules. SaysRules text.now rules) }
        ensures fault { IfErr result (λ fault. SaysFault text.now fault) }
    {
        if text.len() > MAX_BYTES {
            return Err(RulesFault::TooLong);
        }
        let mut rules = ArrayVec::new();
        let mut rest = text;
        let mut number = 1;
        while !rest.is_empty() {
            let (line, after) = first_line(rest);
            if let Err(fault) = take_line(&mut rules, line, number) {
                return Err(fault);
            }
            rest = after;
            number += 1;
        }
        Ok(Rules { rules })
    }

    /// The rules, in the file's order.
    pub fn as_slice(&self) -> &[Rule]
        ensures { entries_of result.now ≡ self.now }
    {
        self.rules.as_slice()
    }
}

/// The first line, without its line feed, and what follows it.
fn first_line(text: &[u8]) -> (&[u8], &[u8])
    requires { 0 < length text.now }
    ensures cut { lines_of text.now ≡ result.0.now ∷ lines_of result.1.now }
    ensures shorter { length result.1.now < length text.now }
{
    match split_once(text, b'\n') {
        Some(parts) => parts,
        None => (text, &[]),
    }
}

/// Takes a line with its number: its rule comes last, and a faulty line changes nothing.
fn take_line(
    rules: &mut ArrayVec<Rule, MAX_RULES>,
    line: &[u8],
    number: u32,
) -> Result<(), RulesFault>
    ensures { TakesLine result (entries_of rules.old.items) (entries_of rules.new.items)
        line.now number }
{
    if is_skipped_line(line) {
        return Ok(());
    }
    let Some(rule) = rule_of(line) else {
        return Err(RulesFault::BadLine(number));
    };
    if rules.is_full() {
        return Err(RulesFault::TooMany(number));
    }
    if has_name(rules.as_slice(), &rule) {
        return Err(RulesFault::SameName(number));
    }
    if has_listen(rules.as_slice(), &rule) {
        return Err(RulesFault::SameListen(number));
    }
    rules.push(rule);
    Ok(())
}

fn is_skipped_line(line: &[u8]) -> bool
    ensures { result ≡ is_skipped line.now }
{
    line.is_empty() || line[0] == b'#'
}

fn has_name(rules: &[Rule], rule: &Rule) -> bool
    ensures { result ≡ finds_name (entry_of rule.now).name (entries_of rules.now) }
{
    for other in rules {
        if other.name.as_str() == rule.name.as_str() {
            return true;
        }
    }
    false
}

fn has_listen(rules: &[Rule], rule: &Rule) -> bool
    ensures { result ≡ finds_listen (entry_of rule.now).listen (entries_of rules.now) }
{
    for other in rules {
        if is_same_addr(&other.listen, &rule.listen) {
            return true;
        }
    }
    false
}
