//! A list of what was done, that stubs keep so that a clause can cite it.

ghost use Rattle.std.specs.Prelude.{◌≡◌, ◌∷◌, [], reverse, IsTrue};

use std::alloc::Global;

/// What was done, oldest first, and whether it is all: once memory was refused it isn't.
#[derive(Drop)]
pub(super) struct Kept<T: Drop> {
    pub(super) all: Vec<T>,
    pub(super) is_whole: bool,
}

impl<T: Drop> Kept<T> {
    pub(super) fn new(alloc: Global) -> Kept<T>
        ensures { result.all.items ≡ [] }
    {
        Kept {
            all: Vec::new(alloc),
            is_whole: true,
        }
    }

    /// Adds what was done now.
    pub(super) fn keep(&mut self, done: T)
        ensures before { IsTrue self.new.is_whole → IsTrue self.old.is_whole }
        ensures kept { IsTrue self.new.is_whole
            → reverse self.new.all.items ≡ done ∷ reverse self.old.all.items }
    {
        if self.all.push(done).is_err() {
            self.is_whole = false;
        }
    }
}
