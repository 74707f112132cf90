//! How large a relay is.

use crate::connection_limit::PairLimit;
use crate::loops::Loops;

/// How many loops a relay has, and how many connections it relays at once.
#[derive(Clone, Copy, Debug, PartialEq, Eq, Drop)]
pub struct Capacity {
    pub loops: Loops,
    pub pairs: PairLimit,
}
