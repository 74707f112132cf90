//! The scripts that halves play in scenes.

use super::scripted::{END, Notice, Script, Tries, Try};
use rwloops::Outcome;

const BLOCK: Tries = (Try::Gives(Outcome::WouldBlock), 1);

const BLOCK_ON: Tries = (Try::Gives(Outcome::WouldBlock), u32::MAX);

const THREE: Tries = (Try::Gives(Outcome::Count(3)), 1);

/// Never ready.
pub(super) const ALWAYS_BLOCKS: Script = [BLOCK_ON, END, END, END, END];

/// Never ready, at first not before the gate is open.
pub(super) const GATED: Script = [(Try::Gated, 1), BLOCK_ON, END, END, END];

/// Of a connection that is made at the second look.
pub(super) const CONNECTS: Script = [(Try::Connects, 1), BLOCK_ON, END, END, END];

/// Ready for three bytes once it has blocked.
pub(super) const THEN_THREE: Script = [BLOCK, THREE, BLOCK_ON, END, END];

/// Ready for three bytes once it has blocked twenty times.
pub(super) const AT_LAST_THREE: Script = [
    (Try::Gives(Outcome::WouldBlock), 20),
    THREE,
    END,
    END,
    END,
];

/// Blocks, gives two, blocks, gives one, and then is reset.
pub(super) const TWO_AND_ONE: Script = [
    BLOCK,
    (Try::Gives(Outcome::Count(2)), 1),
    BLOCK,
    (Try::Gives(Outcome::Count(1)), 1),
    END,
];

/// Takes two, and blocks while the clock comes to 100.
pub(super) const TWO_AND_LATE: Script = [
    (Try::Gives(Outcome::Count(2)), 1),
    (Try::Tells(Notice::Clock(100)), 1),
    END,
    END,
    END,
];
