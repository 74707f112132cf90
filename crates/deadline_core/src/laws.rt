//! What follows from the definitions that the contracts cite, in the subject's own words.
//!
//! Each law is a function that does nothing: what it ensures holds of every list of calls, and of
//! every set of timers. In a list of calls the newest comes first, so `later ++ calls` is what
//! `calls` became once the calls `later` were made.
ghost use Rattle.std.specs.Prelude.{◌≡◌, ◌≢◌, ◌<◌, ◌≤◌, ℕ, ◌++◌, List, [], ◌∷◌, Result, true};
ghost use Rattle.std.specs.Prelude.{Option};
ghost use Rattle.std.specs.Prelude.{false, if◌then◌else◌, length, Contains};
ghost use Rattle.std.specs.List.{list_any, filter_map};
ghost use Rattle.std.specs.FinMap.{get, insert, remove};
ghost use Rattle.base_types.specs.declared.direction.Dir.{Dir};
ghost use Rattle.deadline_core.specs.declared.deadline.Deadline.{Deadline};
ghost use Rattle.deadline_core.specs.declared.deadline.Dirs.{Dirs};
ghost use Rattle.deadline_core.specs.declared.refusal.Refusal.{Refusal};
ghost use Rattle.deadline_core.specs.PollHistory.{Call, Prepared, Looked, Readied, DeadlineSet};
ghost use Rattle.deadline_core.specs.PollHistory.{Ticked, Evicted};
ghost use Rattle.deadline_core.specs.PollHistory.{covers, sets, readies, moves_notice, is_evicted};
ghost use Rattle.deadline_core.specs.PollHistory.{is_go, tick_moment};
ghost use Rattle.deadline_core.specs.PollHistory.{closing, deadline_of, expired, notice, passed};
ghost use Rattle.deadline_core.specs.PollHistory.{refusal_of, look_answer};
ghost use Rattle.deadline_core.specs.CallHistory.{CallEvent, Begun, Answered, Told, limits};
ghost use Rattle.deadline_core.specs.CallHistory.{moves_call, limit_of, awaited};
ghost use Rattle.deadline_core.specs.DueOrder.{Slot};
ghost use Rattle.deadline_core.specs.Moments.{IsCovered};
ghost use Rattle.deadline_core.specs.Timers.{Armed, AreFirstDue, IsDue, remove_all};

use crate::deadline::{Deadline, Dirs};
use crate::poll_state::Look;
use crate::refusal::Refusal;
use base_types::Dir;

/// A direction's deadline, and whether it is expired, is decided by the last set that covers it and
/// was answered Ok: by that set's own moment and the ticks since. A direction that was never set
/// has no deadline.
pub fn the_last_set_decides()
    ensures deadline { (dir : Dir) (dirs : Dirs) (deadline : Deadline) (now : ℕ)
        → (later earlier : List Call) → covers dirs dir ≡ true → list_any (sets dir) later ≡ false
        → deadline_of dir (later ++ DeadlineSet dirs deadline now (Ok tt) ∷ earlier) ≡ deadline }
    ensures expired { (dir : Dir) (dirs : Dirs) (deadline : Deadline) (now : ℕ)
        → (later earlier : List Call) → covers dirs dir ≡ true → list_any (sets dir) later ≡ false
        → expired dir (later ++ DeadlineSet dirs deadline now (Ok tt) ∷ earlier)
        ≡ passed deadline (filter_map tick_moment later ++ now ∷ []) }
    ensures never { (dir : Dir) (calls : List Call) → list_any (sets dir) calls ≡ false
        → expired dir calls ≡ false }
{}

/// An expired direction stays expired, whatever else is called, until a set that covers it is
/// answered Ok.
pub fn expired_until_the_next_set()
    ensures stays { (dir : Dir) (later calls : List Call) → list_any (sets dir) later ≡ false
        → expired dir calls ≡ true → expired dir (later ++ calls) ≡ true }
{}

/// What sets the other direction's deadline alone could as well not have been called: with it or
/// without it this direction has the same deadline, is expired at the same ticks and is refused
/// alike. A tick changes no deadline.
pub fn no_direction_touches_the_other()
    ensures deadline { (dir : Dir) (dirs : Dirs) (deadline : Deadline) (now : ℕ)
        → (answer : Result (Unit {0}) Refusal) (later calls : List Call) → covers dirs dir ≡ false
        → deadline_of dir (later ++ DeadlineSet dirs deadline now answer ∷ calls)
        ≡ deadline_of dir (later ++ calls) }
    ensures expired { (dir : Dir) (dirs : Dirs) (deadline : Deadline) (now : ℕ)
        → (answer : Result (Unit {0}) Refusal) (later calls : List Call) → covers dirs dir ≡ false
        → expired dir (later ++ DeadlineSet dirs deadline now answer ∷ calls)
        ≡ expired dir (later ++ calls) }
    ensures refusal { (dir : Dir) (dirs : Dirs) (deadline : Deadline) (now : ℕ)
        → (answer : Result (Unit {0}) Refusal) (later calls : List Call) → covers dirs dir ≡ false
        → refusal_of dir (later ++ DeadlineSet dirs deadline now answer ∷ calls)
        ≡ refusal_of dir (later ++ calls) }
    ensures tick { (dir : Dir) (now : ℕ) (calls : List Call)
        → deadline_of dir (Ticked now ∷ calls) ≡ deadline_of dir calls }
{}

/// A refused set could as well not have been called.
pub fn a_refused_set_changes_nothing()
    ensures deadline { (dir : Dir) (dirs : Dirs) (deadline : Deadline) (now : ℕ)
        → (refusal : Refusal) (later calls : List Call)
        → deadline_of dir (later ++ DeadlineSet dirs deadline now (Err refusal) ∷ calls)
        ≡ deadline_of dir (later ++ calls) }
    ensures refusal { (dir : Dir) (dirs : Dirs) (deadline : Deadline) (now : ℕ)
        → (refusal : Refusal) (later calls : List Call)
        → refusal_of dir (later ++ DeadlineSet dirs deadline now (Err refusal) ∷ calls)
        ≡ refusal_of dir (later ++ calls) }
{}

/// An evicted state is closing, stays so whatever is called, and refuses with `Closed`; a state
/// that was never evicted refuses for its deadline alone.
pub fn closing_is_for_good()
    ensures evicted { (later earlier : List Call) → closing (later ++ Evicted ∷ earlier) ≡ true }
    ensures stays { (later calls : List Call) → closing calls ≡ true
        → closing (later ++ calls) ≡ true }
    ensures refuses { (dir : Dir) (calls : List Call) → closing calls ≡ true
        → refusal_of dir calls ≡ Some Refusal.Closed }
    ensures otherwise { (dir : Dir) (calls : List Call) → list_any is_evicted calls ≡ false
        → refusal_of dir calls
        ≡ (if expired dir calls then Some Refusal.DeadlineExceeded else None) }
{}

/// A notice stands from the word that the direction is ready to the first `Go` or prepare after it.
/// So one word gives one `Go`: without another word there is no second.
pub fn a_notice_serves_one_go()
    ensures given { (dir : Dir) (later earlier : List Call)
        → list_any (moves_notice dir) later ≡ false
        → notice dir (later ++ Readied dir ∷ earlier) ≡ true }
    ensures used_up { (dir : Dir) (later earlier : List Call)
        → list_any (readies dir) later ≡ false
        → notice dir (later ++ Looked dir Look.Go ∷ earlier) ≡ false }
    ensures forgotten { (dir : Dir) (later earlier : List Call)
        → list_any (readies dir) later ≡ false
        → notice dir (later ++ Prepared dir (Ok tt) ∷ earlier) ≡ false }
    ensures never { (dir : Dir) (calls : List Call) → list_any (readies dir) calls ≡ false
        → notice dir calls ≡ false }
    ensures no_second_go { (dir : Dir) (later earlier : List Call)
        → list_any (readies dir) later ≡ false
        → is_go (look_answer dir (later ++ Looked dir Look.Go ∷ earlier)) ≡ false }
{}

/// A call that neither gives nor takes a direction's notice could as well not have been called: the
/// other direction's calls among them.
pub fn other_calls_leave_the_notice()
    ensures same { (dir : Dir) (call : Call) (later calls : List Call)
        → moves_notice dir call ≡ false
        → notice dir (later ++ call ∷ calls) ≡ notice dir (later ++ calls) }
{}

/// An armed timer isn't due before its moment.
pub fn an_armed_timer_waits_for_its_moment()
    ensures waits { (armed : Armed) (slot : Slot) (at now : ℕ) (given : List Slot) → now < at
        → AreFirstDue (insert armed slot at) now given → ¬ Contains given slot }
{}

/// A timer that is armed again has its new moment alone: it isn't due at the old one.
pub fn a_rearmed_timer_forgets_its_old_moment()
    ensures replaced { (armed : Armed) (slot : Slot) (former at : ℕ)
        → insert (insert armed slot former) slot at ≡ insert armed slot at }
    ensures waits { (armed : Armed) (slot : Slot) (former at now : ℕ) (given : List Slot)
        → former ≤ now → now < at
        → AreFirstDue (insert (insert armed slot former) slot at) now given
        → ¬ Contains given slot }
{}

/// A disarmed timer isn't due.
pub fn a_disarmed_timer_is_never_due()
    ensures silent { (armed : Armed) (slot : Slot) (now : ℕ) (given : List Slot)
        → AreFirstDue (remove armed slot) now given → ¬ Contains given slot }
{}

/// What is due takes out just what it gives.
pub fn due_takes_out_what_it_gives()
    ensures given { (armed : Armed) (given : List Slot) (slot : Slot) → Contains given slot
        → get (remove_all armed given) slot ≡ None }
    ensures others { (armed : Armed) (given : List Slot) (slot : Slot) → ¬ Contains given slot
        → get (remove_all armed given) slot ≡ get armed slot }
{}

/// Where fewer than 256 timers are given, no due timer is left.
pub fn fewer_than_256_are_all_that_are_due()
    ensures all { (armed : Armed) (now : ℕ) (given : List Slot) (slot : Slot)
        → AreFirstDue armed now given → length given < 256
        → ¬ IsDue (remove_all armed given) now slot }
{}

/// At one moment, one set of timers has one list of the first that are due.
pub fn due_has_one_answer()
    ensures one { (armed : Armed) (now : ℕ) (given other : List Slot)
        → AreFirstDue armed now given → AreFirstDue armed now other → given ≡ other }
{}

/// A call that begins with a moment of its own gives up then, and so do those after it, until one
/// more begins so or another moment is told: what was told before counts no more.
pub fn the_last_word_decides_when_a_call_gives_up()
    ensures own { (dir : Dir) (at : ℕ) (later earlier : List CallEvent)
        → list_any (limits dir) later ≡ false
        → limit_of dir (later ++ Begun dir (Some at) ∷ earlier) ≡ Deadline.At at }
    ensures told { (dir : Dir) (deadline : Deadline) (later earlier : List CallEvent)
        → list_any (limits dir) later ≡ false
        → limit_of dir (later ++ Told dir deadline ∷ earlier) ≡ deadline }
    ensures others { (dir : Dir) (event : CallEvent) (later events : List CallEvent)
        → limits dir event ≡ false
        → limit_of dir (later ++ event ∷ events) ≡ limit_of dir (later ++ events) }
    ensures answered { (dir : Dir) (later earlier : List CallEvent)
        → list_any (moves_call dir) later ≡ false
        → awaited dir (later ++ Answered dir ∷ earlier) ≡ None }
{}

/// What covers a moment covers each later one: a moment that only moves on needs no other alarm.
pub fn a_later_moment_is_covered_too()
    ensures covered { (alarm : Option ℕ) (at later : ℕ) → at ≤ later
        → IsCovered (Some at) alarm → IsCovered (Some later) alarm }
{}
