//! A rule, and the line that spells it.

ghost use Rattle.std.specs.Prelude.{◌≡◌, true, IfSome, IfNone};
ghost use Rattle.std.specs.List.{list_all};
ghost use Rattle.relay_admin.specs.rules.Grammar.{Entry, SpellsRule, entry_of, is_name};
ghost use Rattle.relay_admin.specs.rules.Grammar.{is_name_byte};
ghost use Rattle.relay_admin.specs.rules.Reading.{rule_at};
ghost use Rattle.relay_admin.specs.TextReading.{Views};

use crate::rules::addr::{Addr, addr_of, held};
use crate::text::{DAY_MS, split_once, time_between};
use arrayvec::ArrayString;

/// The most bytes of a rule's name.
pub const MAX_NAME_BYTES: usize = 16;

/// The greatest idle time: a day, in milliseconds.
pub const MAX_IDLE_MS: u64 = DAY_MS;

/// A rule of the relay: what it accepts on `listen` it connects to `target`. A connection that was
/// idle for `idle_ms` milliseconds, 1 to 86,400,000, is closed; with `None` it never is.
#[derive(Clone, Copy, Debug, PartialEq, Eq, Drop)]
pub struct Rule {
    pub name: ArrayString<MAX_NAME_BYTES>,
    pub listen: Addr,
    pub target: Addr,
    pub idle_ms: Option<u32>,
}

impl Default for Rule {
    fn default() -> Rule {
        Rule {
            name: ArrayString::new(),
            listen: Addr::Tcp([0, 0, 0, 0], 0),
            target: Addr::Tcp([0, 0, 0, 0], 0),
            idle_ms: None,
        }
    }
}

/// The rule that a line spells, and none where it spells none.
pub(crate) fn rule_of(line: &[u8]) -> Option<Rule>
    ensures rule { IfSome result (λ rule. SpellsRule line.now (entry_of rule)) }
    ensures none { IfNone result ((entry : Entry) → SpellsRule line.now entry → ⊥) }
{
    read_rule(line)
}

#[tactic(auto, unfolding(crate::specs::rules::Reading::rule_at))]
fn read_rule(text: &[u8]) -> Option<Rule>
    ensures { Views entry_of result (rule_at text.now) }
{
    let (word, rest) = split_once(text, b' ')?;
    let (name, rest) = split_once(rest, b' ')?;
    let (listen, rest) = split_once(rest, b' ')?;
    let (target, idle_ms) = split_once(rest, b' ')?;
    let listen = addr_of(listen)?;
    let target = addr_of(target)?;
    let idle_ms = time_between(1, MAX_IDLE_MS, idle_ms)?;
    if word == b"relay".as_slice() && is_name_text(name) {
        Some(Rule {
            name: name_held(name),
            listen,
            target,
            idle_ms,
        })
    } else {
        None
    }
}

pub(crate) fn is_name_text(text: &[u8]) -> bool
    ensures { result ≡ is_name text.now }
{
    if text.is_empty() || text[0] < b'a' || b'z' < text[0] {
        return false;
    }
    are_name_bytes(text) && text.len() <= MAX_NAME_BYTES
}

fn are_name_bytes(text: &[u8]) -> bool
    ensures { result ≡ list_all is_name_byte text.now }
{
    for byte in text {
        if !may_stand_in_name(*byte) {
            return false;
        }
    }
    true
}

fn may_stand_in_name(byte: u8) -> bool
    ensures { result ≡ is_name_byte byte }
{
    (b'a' <= byte && byte <= b'z') || (b'0' <= byte && byte <= b'9') || byte == b'-'
}

fn name_held(name: &[u8]) -> ArrayString<MAX_NAME_BYTES>
    requires { is_name name.now ≡ true }
    ensures { result.bytes ≡ name.now }
{
    held(name)
}
