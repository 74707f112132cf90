//! Which tasks of a loop other threads named since it last looked: tokens, each once, or all tasks,
//! where they were too many to name.

ghost use Rattle.std.specs.Prelude.{◌≡◌, ℕ, [], false, true, IfOk};
ghost use Rattle.readiness.specs.NamedTasks.{IsTold, NamesOnce, is_none_told};

use std::alloc::{AllocError, Allocator};
use std::mem;

/// The most tasks that are named one by one between two looks. Where more are, all are looked at.
pub const MAX_NAMED: usize = 256;

/// The named tasks.
#[derive(Drop)]
pub(crate) struct NamedTasks<A: Allocator> {
    tokens: Vec<u64, A>,
    all: bool,
}

impl<A: Allocator> NamedTasks<A> {
    /// Nobody is named. Its memory is taken here.
    pub(crate) fn new(alloc: A) -> Result<NamedTasks<A>, AllocError>
        ensures nobody { IfOk result (λ told. told.tokens.items ≡ []) }
        ensures not_all { IfOk result (λ told. told.all ≡ false) }
    {
        Ok(NamedTasks {
            tokens: Vec::with_capacity(alloc, MAX_NAMED)?,
            all: false,
        })
    }

    /// Whether nobody is named.
    pub(crate) fn is_empty(&self) -> bool
        ensures { result ≡ is_none_told self.now }
    {
        !self.all && self.tokens.is_empty()
    }

    /// Names a task.
    pub(crate) fn tell(&mut self, token: u64)
        ensures told { IsTold self.new token }
        ensures keeps { (other : ℕ) → IsTold self.old other → IsTold self.new other }
        ensures once { NamesOnce self.old → NamesOnce self.new }
    {
        if self.all || self.tokens.contains(&token) {
            return;
        }
        if self.tokens.len() >= MAX_NAMED || self.tokens.push(token).is_err() {
            self.all = true;
        }
    }

    /// Takes the names out, in place of those in `taken`, and says whether all tasks are named.
    pub(crate) fn take(&mut self, taken: &mut Vec<u64, A>) -> bool
        ensures all { result ≡ self.old.all }
        ensures tokens { taken.new.items ≡ self.old.tokens.items }
        ensures left { is_none_told self.new ≡ true }
    {
        taken.clear();
        mem::swap(&mut self.tokens, taken);
        mem::replace(&mut self.all, false)
    }
}
