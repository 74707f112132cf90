//! What the definitions come to, in the words of the subject. Each law is the contract of a
//! function that does nothing.

ghost use Rattle.std.specs.Prelude.{◌≡◌, ◌<◌, ◌≤◌, ◌+◌, ◌^◌, ℕ, Bool, true, List, [], ◌∷◌, ◌++◌};
ghost use Rattle.std.specs.Prelude.{Some, is_some, count_by, length, slice_set, slice_index_or};
ghost use Rattle.std.specs.Ordering.{nat_cmp};
ghost use Rattle.std.specs.Map.{values_of};
ghost use Rattle.std.specs.BTreeMap.{insert_entry};
ghost use Rattle.base_types.specs.declared.direction.Dir.{Dir};
ghost use Rattle.lockword_core.specs.declared.stake.Event.{Event};
ghost use Rattle.lockword_core.specs.declared.stake.Stake.{Stake};
ghost use Rattle.lockword_core.specs.declared.stake.Op.{Op};
ghost use Rattle.lockword_core.specs.declared.stake.Answer.{Answer};
ghost use Rattle.lockword_core.specs.declared.word.Word.{Word};
ghost use Rattle.lockword_core.specs.declared.word.TheConstants.{CLOSED, READ_LOCK, WRITE_LOCK};
ghost use Rattle.lockword_core.specs.declared.word.TheConstants.{REFERENCE, READ_WAITER};
ghost use Rattle.lockword_core.specs.declared.word.TheConstants.{WRITE_WAITER, DRAIN};
ghost use Rattle.lockword_core.specs.declared.word.TheConstants.{MAX_REFERENCES, MAX_WAITERS};
ghost use Rattle.lockword_core.specs.declared.layout_one.TheConstants as one;
ghost use Rattle.lockword_core.specs.declared.signals.TheConstants.{MAX_SIGNALS};
ghost use Rattle.lockword_core.specs.declared.transition.Kind.{Kind};
ghost use Rattle.lockword_core.specs.Word.{bit, IsWord, packed};
ghost use Rattle.lockword_core.specs.LayoutOne.{HasFirstFields};
ghost use Rattle.lockword_core.specs.LockState.{LockState, empty, Census, census, stake_of};
ghost use Rattle.lockword_core.specs.LockState.{Counted, locks, part, count, number, encoded};
ghost use Rattle.lockword_core.specs.LockInvariant.{IsConsistent, IsConsistentCensus, IsCounted};
ghost use Rattle.lockword_core.specs.LockInvariant.{ChangesOneStake};
ghost use Rattle.lockword_core.specs.Transition.{Change, moved, outcome, changed, transition};
ghost use Rattle.lockword_core.specs.Replay.{state_after, answers_of};
ghost use Rattle.lockword_core.specs.WordStep.{op_of};
ghost use Rattle.lockword_core.specs.OperationCounts.{NoneRefused, is_destroy, made_in};
ghost use Rattle.lockword_core.specs.OperationCounts.{operations_of, AddsUp};
ghost use Rattle.lockword_core.specs.Laws.{CountsStakes, is_done, is_last, ReturnedTheLast};

/// The empty state is consistent, every transition keeps a state consistent, and so every list of
/// events leads to a consistent state.
pub fn states_are_consistent()
    ensures empty { IsConsistent empty }
    ensures transition { (s : LockState) (holder : ℕ) (op : Op)
        → IsConsistent s → IsConsistent (transition s holder op).0 }
    ensures replay { (events : List Event) → IsConsistent (state_after empty events) }
{}

/// After every list of events, by any number of holders, the word's flags, lock bits and counts are
/// exactly those of the stakes outstanding; at most one holder reads, and at most one writes.
pub fn the_word_counts_the_stakes()
    ensures is_word { (events : List Event) → encoded (census (state_after empty events)) < 2 ^ 64 }
    ensures fields { (events : List Event) (fields : Word) → IsWord fields
        → packed fields ≡ encoded (census (state_after empty events))
        → CountsStakes fields (state_after empty events) }
    ensures one_lock { (events : List Event) (d : Dir)
        → number (locks d) (census (state_after empty events)) ≤ 1 }
{}

/// After every list of events the descriptor was destroyed at most once, after at most one last
/// return, and by the holder that gave back the last reference after the close.
pub fn the_last_return_destroys_once()
    ensures done_once { (events : List Event) → count_by is_done (answers_of empty events)
        ≡ bit (is_some (state_after empty events).destroyed_by) }
    ensures last_once { (events : List Event) → count_by is_last (answers_of empty events) ≤ 1 }
    ensures destroyer { (events : List Event) (holder : ℕ)
        → (state_after empty events).destroyed_by ≡ Some holder → ReturnedTheLast events holder }
{}

/// What is for good: no further list of events takes back the closed flag, the drain flag, or who
/// destroyed.
pub fn what_is_done_stays_done()
    ensures closed { (s : LockState) (events : List Event) → s.closed ≡ true
        → (state_after s events).closed ≡ true }
    ensures draining { (s : LockState) (events : List Event) → s.draining ≡ true
        → (state_after s events).draining ≡ true }
    ensures destroyed { (s : LockState) (events : List Event) (holder : ℕ) → IsConsistent s
        → s.destroyed_by ≡ Some holder → (state_after s events).destroyed_by ≡ Some holder }
{}

/// Operations of which none was refused add up to what they lead to: what was taken is held or
/// queued for, or was given back; a signal that was given lies ready, or was taken; there was one
/// close if the descriptor is closed, one drain if it is drained and one destroy if it is
/// destroyed; and who made the destroy is the holder that gave back the last reference after the
/// close.
pub fn operations_add_up()
    ensures adds_up { (events : List Event) → NoneRefused events
        → AddsUp (made_in events) (census (state_after empty events)) }
    ensures destroyer { (events : List Event) (holder : ℕ) → NoneRefused events
        → 0 < count_by is_destroy (operations_of holder events) → ReturnedTheLast events holder }
{}

/// The layout and its limits in figures, as `docs/lock-word.md` draws them.
pub fn the_layout_in_figures()
    ensures bits { (CLOSED ≡ 1) × (READ_LOCK ≡ 2) × (WRITE_LOCK ≡ 4) }
    ensures units { (REFERENCE ≡ 8) × (READ_WAITER ≡ 134217728) × (WRITE_WAITER ≡ 35184372088832) }
    ensures drain { DRAIN ≡ 9223372036854775808 }
    ensures limits { (MAX_REFERENCES ≡ 16777215) × (MAX_WAITERS ≡ 262143) }
    ensures signals { MAX_SIGNALS ≡ 4294967295 }
{}

/// The layout before this one, in figures; what a flag, a lock and a reference add is the same in
/// both.
pub fn the_first_layout_in_figures()
    ensures units { (one.READ_WAITER ≡ 8388608) × (one.WRITE_WAITER ≡ 8796093022208) }
    ensures limits { (one.MAX_REFERENCES ≡ 1048575) × (one.MAX_WAITERS ≡ 1048575) }
{}

/// Each number of 64 bits has fields in the layout before this one.
pub fn each_number_has_a_first_reading()
    ensures { (word : ℕ) → word < 2 ^ 64
        → (fields : Word) × HasFirstFields word fields }
{}

/// A word has one reading: fields that pack to the same word are the same.
pub fn a_word_has_one_reading()
    ensures { (f g : Word) → IsWord f → IsWord g → packed f ≡ packed g → f ≡ g }
{}

/// Two consistent censuses with the same word, in which the holder that acts has the same stake,
/// give the same outcome, and so the same answer and stake, and then the same word.
pub fn the_word_decides()
    ensures same_outcome { (b c : Census) (own : Stake) (kind : Kind) → IsConsistentCensus b
        → IsConsistentCensus c
        → encoded b ≡ encoded c → outcome b own (op_of kind) ≡ outcome c own (op_of kind) }
    ensures same_word { (b c : Census) (own : Stake) (kind : Kind) (answer : Answer) (new : Stake)
        (change : Change)
        (of_b of_c : List Stake) → IsConsistentCensus b → IsConsistentCensus c
        → encoded b ≡ encoded c → outcome b own (op_of kind) ≡ moved answer new change
        → ChangesOneStake b.stakes own of_b new → ChangesOneStake c.stakes own of_c new
        → encoded (changed b of_b change) ≡ encoded (changed c of_c change) }
{}

/// A change of one holder's stake changes each count by that stake's part alone, whether the stakes
/// stand in a list of seats or in a map of holders; a new seat counts nothing.
pub fn one_stake_counts_alone()
    ensures seat { (what : Counted) (stakes : List Stake) (i : ℕ) (new : Stake) → i < length stakes
        → count what (slice_set stakes i new) + part what (slice_index_or stakes i new)
        ≡ count what stakes + part what new }
    ensures changes_seat { (stakes : List Stake) (i : ℕ) (new : Stake) → i < length stakes
        → ChangesOneStake stakes (slice_index_or stakes i new) (slice_set stakes i new) new }
    ensures new_seat { (what : Counted) (stakes : List Stake)
        → count what (stakes ++ Stake.Free ∷ []) ≡ count what stakes }
    ensures changes_holder { (s : LockState) (holder : ℕ) (new : Stake) → IsConsistent s
        → ChangesOneStake (values_of s.holders) (stake_of s holder)
        (values_of (insert_entry nat_cmp s.holders holder new)) new }
{}

/// An operation keeps a census consistent, whoever the other holders are.
pub fn operations_keep_the_census()
    ensures { (c : Census) (own : Stake) (op : Op) (answer : Answer) (new : Stake) (change : Change)
        (stakes : List Stake) → IsConsistentCensus c → outcome c own op ≡ moved answer new change
        → ChangesOneStake c.stakes own stakes new → IsConsistentCensus (changed c stakes change) }
{}
