//! The tasks that gave way: each has its token in `again` once, or all come again, where memory was
//! refused for a token.

ghost use Rattle.std.specs.Prelude.{◌≡◌, ◌↔◌, [], not, Some, false};
ghost use Rattle.readiness.specs.Tasks.{gave_way_in, gone_again, ComesNext, StillCome, SameTasks};
ghost use Rattle.readiness.specs.TaskAlarms.{StandStill};

use crate::loop_token::{place_of, serial_of};
use crate::tasks::Tasks;
use std::alloc::Allocator;
use std::mem;

impl<T, A: Allocator> Tasks<T, A> {
    // Says of the task that a token names whether it gave way, and tells whether it was said
    // before, or there is no such task.
    fn mark(&mut self, token: u64, gave_way: bool) -> bool
        ensures kept { SameTasks self.old self.new }
        ensures unsaid { gave_way_in self.old token ≡ Some (not gave_way) → result ≡ false }
        ensures come { StillCome self.old self.new }
        ensures still { StandStill self.old self.new }
    {
        if let Some(slot) = self.slots.get_mut(place_of(token)) {
            if slot.serial == serial_of(token) && slot.gave_way != gave_way {
                slot.gave_way = gave_way;
                return false;
            }
        }
        true
    }

    /// Has the task that a token names come again in the next turn, once.
    pub(crate) fn give_way(&mut self, token: u64)
        ensures kept { SameTasks self.old self.new }
        ensures comes { gave_way_in self.old token ≡ Some false → ComesNext self.new token }
        ensures others { StillCome self.old self.new }
        ensures still { StandStill self.old self.new }
    {
        if !self.mark(token, true) {
            self.list(token);
        }
    }

    // Lists a token for the next turn. Where memory is refused for it, all tasks come then.
    fn list(&mut self, token: u64)
        ensures kept { SameTasks self.old self.new }
        ensures comes { ComesNext self.new token }
        ensures others { StillCome self.old self.new }
        ensures still { StandStill self.old self.new }
    {
        if self.again.push(token).is_err() {
            self.all_again = true;
        }
    }

    /// The task that a token names comes now.
    pub(crate) fn come(&mut self, token: u64)
        ensures kept { SameTasks self.old self.new }
        ensures still { StandStill self.old self.new }
    {
        let _ = self.mark(token, false);
    }

    /// Begins a round: the tokens of those that gave way, in place of what `round` has. It says
    /// whether all tasks come again.
    pub(crate) fn begin_round(&mut self, round: &mut Vec<u64, A>) -> bool
        ensures tokens { round.new.items ≡ gone_again self.old }
        ensures left { gone_again self.new ≡ [] }
        ensures all { result ≡ self.old.all_again }
        ensures over { self.new.all_again ≡ false }
        ensures kept { SameTasks self.old self.new }
        ensures still { StandStill self.old self.new }
    {
        round.clear();
        mem::swap(&mut self.again, round);
        mem::replace(&mut self.all_again, false)
    }

    /// Whether a task gave way since the round began.
    pub(crate) fn gave_way(&self) -> bool
        ensures { result ≡ false
            ↔ (self.now.all_again ≡ false) × (gone_again self.now ≡ []) }
    {
        self.all_again || !self.again.is_empty()
    }
}
