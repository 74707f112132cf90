//! What the contracts of a table mean for its callers. The bodies are empty.

ghost use Rattle.std.specs.Prelude.{◌≡◌};
ghost use Rattle.client_sources.specs.Laws.{OfNoSourceMoreStand};

use crate::source::{GROUP_PLACES, GROUPS};
use crate::sources::PLACES;

/// However clients come and go, of no source more stand than may.
pub fn of_no_source_more_stand_than_may()
    ensures { OfNoSourceMoreStand }
{}

/// The sizes in figures.
pub fn the_sizes_in_figures()
    ensures groups { GROUPS ≡ 1024 }
    ensures group { GROUP_PLACES ≡ 16 }
    ensures places { PLACES ≡ 16384 }
{}
