//! What a batch means for who turns a poller. Each function does nothing: its contract is a law,
//! which the check proves.

ghost use Rattle.std.specs.Prelude.{◌≡◌};
ghost use Rattle.readiness.specs.declared.poll_timeout.TheConstants.{MAX_WAIT_MS};
ghost use Rattle.readiness.specs.Laws.{WakerNamesNothing, BatchesJoin};

/// The waker's token names no entry of any table, so a wake is told to nobody.
pub fn the_waker_names_nothing<T>()
    ensures { WakerNamesNothing T }
{}

/// Events make ready the same, whether one poll gave them or two.
pub fn batches_join<T>()
    ensures { BatchesJoin T }
{}

/// The longest that a poll waits, in figures: 1,000 milliseconds. The definitions follow the code's
/// constant, so that this alone says which it is.
pub fn the_longest_wait_in_figures()
    ensures { MAX_WAIT_MS ≡ 1000 }
{}
