//! What an operator sets of a target, and the words by which a command names the target.
//!
//! Each word stands in a room of its own, and behind it are zeros; so a room is given by its word.

ghost use Rattle.std.specs.Prelude.{◌≡◌, ◌≤◌, length};
ghost use Rattle.relay_admin.specs.admin.TargetOrder.{is_target_word, order_at, order_word};
ghost use Rattle.relay_admin.specs.admin.TargetOrder.{room_of, rule_word, target_order_at};
ghost use Rattle.relay_admin.specs.admin.TargetOrder.{target_word, room_word};

use crate::admin::dialogue::MAX_LINE_BYTES;
use crate::rules::addr::are_visible;
use crate::rules::rule::{MAX_NAME_BYTES, is_name_text};
use crate::text::split_once;

/// The most bytes of the word that names a target: those that the shortest of other words leave of a
/// line, as in `target r T up`.
pub const MAX_TARGET_BYTES: usize = MAX_LINE_BYTES - 12;

/// What an operator sets of a target.
#[derive(Clone, Copy, Debug, PartialEq, Eq, Drop)]
pub enum Order {
    /// Nothing: its checks decide.
    Auto,
    /// It gets clients, whatever its checks say.
    Up,
    /// It gets nobody new.
    Drain,
    /// It is down, whatever its checks say.
    Down,
}

/// A target, by the words of a command, and what is set of it.
#[derive(Clone, Copy, Debug, PartialEq, Eq, Drop)]
pub struct TargetOrder {
    pub(crate) rule: [u8; MAX_NAME_BYTES],
    pub(crate) target: [u8; MAX_TARGET_BYTES],
    pub order: Order,
}

impl Order {
    /// Its word.
    pub fn word(self) -> &'static str
        ensures { result.now ≡ order_word self }
    {
        match self {
            Order::Auto => "auto",
            Order::Up => "up",
            Order::Drain => "drain",
            Order::Down => "down",
        }
    }
}

impl TargetOrder {
    /// The name of the rule.
    pub fn rule(&self) -> &[u8]
        ensures { result.now ≡ rule_word self.now }
    {
        room_word(&self.rule)
    }

    /// The word that names the target.
    pub fn target(&self) -> &[u8]
        ensures { result.now ≡ target_word self.now }
    {
        room_word(&self.target)
    }
}

// The word in a room: what stands before the first zero.
fn room_word(room: &[u8]) -> &[u8]
    ensures { result.now ≡ room_word room.now }
{
    for at in 0..room.len() {
        if room[at] == 0 {
            return &room[..at];
        }
    }
    room
}

// A room with this word, in which it fits.
fn room_of<const N: usize>(word: &[u8]) -> [u8; N]
    requires { length word.now ≤ N }
    ensures { result ≡ room_of N word.now }
{
    let mut room = [0u8; N];
    room[..word.len()].copy_from_slice(word);
    room
}

// What an operator sets by this word, if it is one of these.
#[tactic(auto, unfolding(crate::specs::admin::TargetOrder::order_at))]
fn order_of(word: &[u8]) -> Option<Order>
    ensures { result ≡ order_at word.now }
{
    if word == b"auto".as_slice() {
        Some(Order::Auto)
    } else if word == b"up".as_slice() {
        Some(Order::Up)
    } else if word == b"drain".as_slice() {
        Some(Order::Drain)
    } else if word == b"down".as_slice() {
        Some(Order::Down)
    } else {
        None
    }
}

// Whether a word may name a target.
fn is_target_word(word: &[u8]) -> bool
    ensures { result ≡ is_target_word word.now }
{
    if word.is_empty() {
        return false;
    }
    are_visible(word) && word.len() <= MAX_TARGET_BYTES
}

/// A target and what is set of it, where the text has these three words.
#[tactic(auto, unfolding(crate::specs::admin::TargetOrder::target_order_at))]
pub(crate) fn target_order_of(text: &[u8]) -> Option<TargetOrder>
    ensures { result ≡ target_order_at text.now }
{
    let (rule, rest) = split_once(text, b' ')?;
    let (target, order) = split_once(rest, b' ')?;
    let order = order_of(order)?;
    if is_name_text(rule) && is_target_word(target) {
        Some(TargetOrder {
            rule: room_of(rule),
            target: room_of(target),
            order,
        })
    } else {
        None
    }
}
