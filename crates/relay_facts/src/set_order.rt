//! What an operator has set of a target: one word, which sessions change and picks look at.
//!
//! | Word | Set |
//! |---|---|
//! | 0 | nothing: its checks decide |
//! | 1 | it gets clients |
//! | 2 | it gets nobody new |
//! | 3 | it is down |
//!
//! All lists of targets with an address have one word of it in common. A list that comes into force has it
//! say that nothing is set.

ghost use Rattle.std.specs.Prelude.{◌≡◌};
ghost use Rattle.relay_facts.specs.SetOrder as spec;

use relay_admin::Order;
use std::sync::atomic::{AtomicIn, Ordering, Rule};

// The word of what is set.
fn order_number(order: Order) -> u64
    ensures word { result ≡ spec.order_number order }
    ensures is { spec.IsOrder result }
{
    match order {
        Order::Auto => 0,
        Order::Up => 1,
        Order::Drain => 2,
        Order::Down => 3,
    }
}

// What a word says.
fn order_in(word: u64) -> Order
    ensures { result ≡ spec.order_in word }
{
    if word == 1 {
        Order::Up
    } else if word == 2 {
        Order::Drain
    } else if word == 3 {
        Order::Down
    } else {
        Order::Auto
    }
}

/// Whether a target is up of which this is set, where its checks say that it is or isn't.
pub(crate) fn is_up_by(order: Order, is_healthy: bool) -> bool
    ensures { result ≡ spec.is_up_by order is_healthy }
{
    match order {
        Order::Auto | Order::Drain => is_healthy,
        Order::Up => true,
        Order::Down => false,
    }
}

/// Whether one gets nobody new of which this is set.
pub(crate) fn is_drained_by(order: Order) -> bool
    ensures { result ≡ spec.is_drained_by order }
{
    order == Order::Drain
}

/// What holds of each word.
struct OrderRule;

impl Rule for OrderRule {
    ghost use Rattle.relay_facts.specs.SetOrder.{IsOrder};

    ghost invariant = { λ word. IsOrder word };
}

/// What an operator has set of a target.
#[derive(Drop)]
pub struct SetOrder {
    word: AtomicIn<OrderRule>,
}

impl SetOrder {
    /// Nothing.
    pub(crate) fn new() -> SetOrder {
        SetOrder {
            word: AtomicIn::new(order_number(Order::Auto)),
        }
    }

    /// What is set now.
    pub(crate) fn get(&self) -> Order {
        order_in(self.word.load(Ordering::SeqCst))
    }

    /// This is set from now on.
    pub(crate) fn set(&self, order: Order) {
        self.word.store(order_number(order), Ordering::SeqCst);
    }
}
