//! What the rule of a running word comes to. The rule holds between any two atomic steps of any
//! number of threads; each law is the contract of a function that does nothing.

ghost use Rattle.std.specs.Prelude.{◌≡◌, ◌≤◌, ◌<◌, ◌+◌, ◌==◌, ◌&&◌, ◌⊎◌, ℕ, List, true};
ghost use Rattle.std.specs.Prelude.{slice_index};
ghost use mathlib.Core.Option.{some};
ghost use lib.ListN.{get_elem?};
ghost use Rattle.base_types.specs.declared.direction.Dir.{Dir};
ghost use Rattle.lockword_core.specs.declared.stake.Answer.{Answer};
ghost use Rattle.lockword_core.specs.declared.stake.Event.{Event};
ghost use Rattle.lockword_core.specs.declared.stake.Op.{Op};
ghost use Rattle.lockword_core.specs.declared.word.Word.{Word};
ghost use Rattle.lockword_core.specs.Word.{bit};
ghost use Rattle.lockword_core.specs.LockState.{references, locks, queued, closers, drainers};
ghost use Rattle.lockword_core.specs.LockState.{lasts};
ghost use Rattle.lockword_core.specs.OperationCounts.{AddsUp};
ghost use Rattle.lockword_core.specs.OperationCounts.{NoneRefused};
ghost use Rattle.lockword.specs.declared.local_view.LocalView.{LocalView};
ghost use Rattle.lockword.specs.declared.shared_rule.TheConstants.{DONE};
ghost use Rattle.lockword.specs.History.{GoesOn, IsMade};
ghost use Rattle.lockword.specs.LocalView.{made_by_seats};
ghost use Rattle.lockword.specs.Marks.{Place, HeardOn};
ghost use Rattle.lockword.specs.SharedInvariant.{IsReached};
ghost use Rattle.lockword.specs.TransitionOutcomes.{IsOnlyClosed, Looks};
ghost use Rattle.lockword.specs.Moment.{Moment, IsRead, IsShown};
ghost use Rattle.lockword.specs.Headline.{Headline};
ghost use Rattle.lockword.specs.Laws.{seats_census, over_seats};
ghost use Rattle.lockword.specs.Laws.{ComesOfDeeds, Stood};

/// The rule has the headline: so the headline holds between any two atomic steps of any number of
/// threads (`shared_rule.rt`: `ghost holds`), and at each moment that a look or a refusal shows.
pub fn the_headline<R, W>()
    ensures always { (s : Moment R W) → IsReached s → Headline s }
    ensures shown { (fields : Word) (v : LocalView) → IsShown R W fields v → Stood R W fields v }
{}

/// At every moment what all seats of the word have done interleaves into one list of operations, of
/// which none is refused and which leads to the words and stakes of that moment: so the laws of
/// `lockword_core` over every list of operations hold of it.
pub fn the_word_comes_of_what_its_seats_did<R, W>()
    ensures { (s : Moment R W) (fields : Word) → IsRead s fields → ComesOfDeeds s fields }
{}

/// At every moment at most one seat is closing, only in a closed word, at most one owes the signals
/// of a drain, only in a draining word, and nobody is left to be signalled in a word that is closed
/// or draining. The counts themselves are the headline's.
pub fn the_word_counts_the_seats<R, W>()
    ensures one_drainer { (s : Moment R W) (fields : Word) → IsRead s fields
        → over_seats drainers s ≤ bit fields.drain }
    ensures one_closer { (s : Moment R W) (fields : Word) → IsRead s fields
        → over_seats closers s ≤ bit fields.closed }
    ensures no_reader_waits_closed { (s : Moment R W) (fields : Word) → IsRead s fields
        → fields.closed ≡ true → fields.rwait ≡ 0 }
    ensures no_writer_waits_closed { (s : Moment R W) (fields : Word) → IsRead s fields
        → fields.closed ≡ true → fields.wwait ≡ 0 }
    ensures no_reader_waits { (s : Moment R W) (fields : Word) → IsRead s fields
        → fields.drain ≡ true → fields.rwait ≡ 0 }
    ensures no_writer_waits { (s : Moment R W) (fields : Word) → IsRead s fields
        → fields.drain ≡ true → fields.wwait ≡ 0 }
{}

/// What each seat has heard is a beginning of the one list of what all seats did, so that of what
/// two seats have heard at one moment one is a beginning of the other. Each operation goes on from
/// what its seat had heard, after operations of which none was refused, and so does each look, so
/// that any two looks of a seat are of one list, the later of at least as much of it: what goes on
/// from a list goes on from all that this goes on from.
pub fn what_seats_heard_is_one_list<R, W>()
    ensures beginning { (s : Moment R W) (seat : ℕ) (v : LocalView) (reached : IsReached s)
        → get_elem? s.views seat ≡ some v → GoesOn v.heard reached.history }
    ensures comparable { (s : Moment R W) (one other : ℕ) (v w : LocalView) → IsReached s
        → get_elem? s.views one ≡ some v → get_elem? s.views other ≡ some w
        → GoesOn v.heard w.heard ⊎ GoesOn w.heard v.heard }
    ensures made { (o : Op) (a : Answer) (v w : LocalView) → IsMade o a v w
        → GoesOn v.heard w.heard }
    ensures none_refused { (o : Op) (a : Answer) (v w : LocalView) (made : IsMade o a v w)
        → NoneRefused made.history }
    ensures looked { (p q : Place R W) (fields : Word) → Looks p q fields → HeardOn p q }
    ensures chained { (a b c : List Event) → GoesOn a b → GoesOn b c → GoesOn a c }
{}

/// A closed word without references has one `Last` or was destroyed, and no other has either; once
/// it was destroyed nobody has a reference, a lock or `Last`, and the word is the closed flag,
/// perhaps with the drain flag, alone.
pub fn the_last_seat_destroys<R, W>()
    ensures one_last { (s : Moment R W) (fields : Word) → IsRead s fields
        → over_seats lasts s + slice_index s.words DONE
        ≡ bit (fields.closed && (fields.refs == 0)) }
    ensures no_last { (s : Moment R W) → IsReached s → slice_index s.words DONE ≡ 1
        → over_seats lasts s ≡ 0 }
    ensures no_reference { (s : Moment R W) → IsReached s → slice_index s.words DONE ≡ 1
        → over_seats references s ≡ 0 }
    ensures no_lock { (s : Moment R W) (d : Dir) → IsReached s → slice_index s.words DONE ≡ 1
        → over_seats (locks d) s ≡ 0 }
    ensures only_closed { (s : Moment R W) (fields : Word) → IsRead s fields
        → slice_index s.words DONE ≡ 1 → IsOnlyClosed fields }
{}

/// What a seat saw is so, at that moment and at every later one: no call takes a mark back, and the
/// law holds of each moment at which a seat has the mark.
pub fn what_a_seat_saw_is_so<R, W>()
    ensures closed { (s : Moment R W) (fields : Word) (seat : ℕ) (v : LocalView) → IsRead s fields
        → get_elem? s.views seat ≡ some v → v.saw.closed ≡ true → fields.closed ≡ true }
    ensures draining { (s : Moment R W) (fields : Word) (seat : ℕ) (v : LocalView) → IsRead s fields
        → get_elem? s.views seat ≡ some v → v.saw.draining ≡ true → fields.drain ≡ true }
    ensures done { (s : Moment R W) (seat : ℕ) (v : LocalView) → IsReached s
        → get_elem? s.views seat ≡ some v → v.saw.done ≡ true → slice_index s.words DONE ≡ 1 }
{}

/// What all seats of a word together have ever done adds up to what they have now: what was taken
/// is held or queued for, or was given back; a signal that was given lies ready, or was taken; the
/// close was made once if the word is closed, the drain once if it is draining, and the destroy
/// once if it is destroyed. No call takes back what its seat has made, and no seat leaves the
/// count.
pub fn what_all_seats_did_adds_up<R, W>()
    ensures adds_up { (s : Moment R W) (fields : Word) → IsRead s fields
        → AddsUp (made_by_seats s.views) (seats_census s fields) }
{}
