//! A line of a script, and the events that it says.
//!
//! | Part | What it is |
//! |---|---|
//! | line | holders, one space, the name of an operation |
//! | holders | a holder, or a holder, `+` and how many there are from it on |
//! | holder | a number below [`HOLDERS`], in its one spelling |

ghost use Rattle.std.specs.Prelude.{◌≡◌, ◌≢◌, ◌≤◌, ◌<◌, ◌+◌, ◌^◌, ℕ, ◌∷◌, ◌++◌, IfSome, IfNone};
ghost use Rattle.stream_base.specs.Lines.{Lacks};
ghost use Rattle.lockword_core.specs.declared.stake.Op.{Op};
ghost use Rattle.lockword_script.specs.Script.{operation_name, NamesHolders, Says, IsBadLine};

use base_types::Dir;
use lockword_core::Op;
use stream_base::decimal::parse_decimal;

/// The first number that names no holder.
pub const HOLDERS: u64 = 67_108_864;

/// The most digits of a holder, and of how many there are.
const HOLDER_DIGITS: usize = 8;

/// The most bytes of an operation's name.
const NAME_BYTES: usize = 7;

/// The most bytes of a line that isn't bad, without its line feed: holder, `+`, count, space and
/// name.
pub const MAX_LINE_BYTES: usize = 2 * HOLDER_DIGITS + 2 + NAME_BYTES;

/// The most lines of a script; the next line is bad whatever it holds.
pub const MAX_LINES: u64 = 16_777_216;

/// What a line says: as many holders as the count, from the first on, ask for the operation in
/// turn.
#[derive(Clone, Copy, Debug, PartialEq, Eq, Drop)]
pub struct Order {
    pub first: u64,
    pub count: u64,
    pub op: Op,
}

/// The operation of this name.
fn operation_named(name: &[u8]) -> Option<Op>
    ensures some { IfSome result (λ op. name.now ≡ operation_name op) }
    ensures none { IfNone result ((op : Op) → name.now ≢ operation_name op) }
{
    match name {
        b"incref" => Some(Op::Incref),
        b"decref" => Some(Op::Decref),
        b"rlock" => Some(Op::Lock(Dir::Read)),
        b"wlock" => Some(Op::Lock(Dir::Write)),
        b"runlock" => Some(Op::Unlock(Dir::Read)),
        b"wunlock" => Some(Op::Unlock(Dir::Write)),
        b"rsignal" => Some(Op::Signal(Dir::Read)),
        b"wsignal" => Some(Op::Signal(Dir::Write)),
        b"rwake" => Some(Op::Wake(Dir::Read)),
        b"wwake" => Some(Op::Wake(Dir::Write)),
        b"close" => Some(Op::Close),
        b"drain" => Some(Op::Drain),
        b"destroy" => Some(Op::Destroy),
        _ => None,
    }
}

/// The text before the first such byte, and the text after it.
fn cut_at(text: &[u8], byte: u8) -> Option<(&[u8], &[u8])>
    ensures first { IfSome result (λ parts. Lacks byte parts.0.now) }
    ensures parts { IfSome result (λ parts. text.now ≡ parts.0.now ++ byte ∷ parts.1.now) }
    ensures none { IfNone result (Lacks byte text.now) }
{
    for (i, b) in text.iter().enumerate() {
        if *b == byte {
            return Some((&text[..i], &text[i + 1..]));
        }
    }
    None
}

/// The first of the holders that the text names, and how many they are.
fn holders_named(text: &[u8]) -> Option<(u64, u64)>
    ensures some { IfSome result (λ named. NamesHolders text.now named.0 named.1) }
    ensures fit { IfSome result (λ named. (named.0 < 2 ^ 64) × (named.1 < 2 ^ 64)) }
    ensures none { IfNone result ((first count : ℕ) → first < 2 ^ 64 → count < 2 ^ 64
        → NamesHolders text.now first count → ⊥) }
{
    match cut_at(text, b'+') {
        None => match parse_decimal(text) {
            None => None,
            Some(holder) => Some((holder, 1)),
        },
        Some((first, count)) => {
            let Some(first) = parse_decimal(first) else {
                return None;
            };
            let Some(count) = parse_decimal(count) else {
                return None;
            };
            Some((first, count))
        }
    }
}

/// What the line says, or `None` where it is bad.
pub fn decode(line: &[u8]) -> Option<Order>
    ensures some { IfSome result (λ order. Says line.now order.first order.count order.op) }
    ensures none { IfNone result (IsBadLine line.now) }
{
    let Some((holders, name)) = cut_at(line, b' ') else {
        return None;
    };
    let Some(op) = operation_named(name) else {
        return None;
    };
    let Some((first, count)) = holders_named(holders) else {
        return None;
    };
    if count == 0 {
        return None;
    }
    if first >= HOLDERS {
        return None;
    }
    if count > HOLDERS - first {
        return None;
    }
    Some(Order { first, count, op })
}
