//! Laws of the outcome traces, in words that share nothing with the loops. Each is carried by a
//! function with an empty body; lists are newest first.
ghost use Rattle.std.specs.Prelude.{◌≡◌, ◌+◌, ◌<◌, ◌≤◌, ◌↔◌, ℕ, List, [], ◌∷◌, ◌++◌, length, map};
ghost use Rattle.std.specs.Prelude.{take, Result, Some, IsTrue, IsFalse};
ghost use Rattle.std.specs.List.{AllPass};
ghost use Rattle.rwloops.specs.declared.limits.TheConstants.{MAX_RETRIES, MAX_TRY_BYTES};
ghost use Rattle.rwloops.specs.declared.fault.Fault.{Fault};
ghost use Rattle.rwloops.specs.declared.fault.WriteFault.{WriteFault};
ghost use Rattle.rwloops.specs.declared.outcome.Outcome.{Outcome};
ghost use Rattle.rwloops.specs.declared.outcome.AcceptOutcome.{AcceptOutcome};
ghost use Rattle.rwloops.specs.RetryBound.{HasNoLongRow};
ghost use Rattle.rwloops.specs.Outcome.{is_interrupted, is_would_block, count_in, sum_of_counts};
ghost use Rattle.rwloops.specs.Waits.{WaitCall, granted_calls};
ghost use Rattle.rwloops.specs.UnderWay.{EachWouldBlock, joined};
ghost use Rattle.rwloops.specs.TryNow.{ReadNow};
ghost use Rattle.base_types.specs.declared.direction.Dir.TheVariants.{Read};
ghost use Rattle.rwloops.specs.ReadTrace.{ReadTry, read_goes_on, read_is_inconclusive};
ghost use Rattle.rwloops.specs.ReadTrace.{read_outcome, read_try_rules, ReadTrace};
ghost use Rattle.rwloops.specs.WriteTrace.{WriteTry, write_goes_on, write_is_inconclusive};
ghost use Rattle.rwloops.specs.WriteTrace.{write_outcome, write_try_rules, count_of, chunk_after};
ghost use Rattle.rwloops.specs.WriteTrace.{taken_bytes, WriteTrace};
ghost use Rattle.rwloops.specs.AcceptTrace.{accept_goes_on, accept_is_inconclusive, accept_rules};
ghost use Rattle.rwloops.specs.AcceptTrace.{is_retried, AcceptTrace};
ghost use Rattle.rwloops.specs.Turns.{HasOneWaitEach};

/// A read goes on after exactly the lists of `Interrupted` and `WouldBlock` that, however they are
/// cut, show no row of more than `MAX_RETRIES` `Interrupted`.
pub fn read_rows_are_bounded()
    ensures { (outcomes : List Outcome) → IsTrue (read_is_inconclusive outcomes)
        ↔ (AllPass read_goes_on outcomes × HasNoLongRow is_interrupted outcomes) }
{}

/// A write goes on after exactly the lists of `Interrupted`, `WouldBlock` and counts above 0 whose
/// sum is below the length and that, however they are cut, show no row of more than `MAX_RETRIES`
/// `Interrupted`.
pub fn write_rows_are_bounded()
    ensures { (len : ℕ) (outcomes : List Outcome) → IsTrue (write_is_inconclusive len outcomes)
        ↔ (AllPass write_goes_on outcomes × (sum_of_counts outcomes < len)
        × HasNoLongRow is_interrupted outcomes) }
{}

/// An accept goes on after exactly the lists of `Interrupted`, `Aborted` and `WouldBlock` that,
/// however they are cut, show no row of more than `MAX_RETRIES` `Interrupted` or `Aborted`.
pub fn accept_rows_are_bounded<T>()
    ensures { (outcomes : List (AcceptOutcome T)) → IsTrue (accept_is_inconclusive outcomes)
        ↔ (AllPass accept_goes_on outcomes × HasNoLongRow is_retried outcomes) }
{}

/// No try of a read follows a decisive one.
pub fn decisive_try_ends_a_read()
    ensures { (buffer : List ℕ) (tries newer older : List ReadTry) (made : ReadTry)
        (calls : List WaitCall) (result : Result ℕ Fault) → ReadTrace buffer tries calls result
        → tries ≡ newer ++ (made ∷ older)
        → IsFalse (read_is_inconclusive (map read_outcome (made ∷ older))) → newer ≡ [] }
{}

/// No try of a write follows a decisive one.
pub fn decisive_try_ends_a_write()
    ensures { (bytes : List ℕ) (tries newer older : List WriteTry) (made : WriteTry)
        (calls : List WaitCall) (result : Result ℕ WriteFault) → WriteTrace bytes tries calls result
        → tries ≡ newer ++ (made ∷ older)
        → IsFalse (write_is_inconclusive (length bytes) (map write_outcome (made ∷ older)))
        → newer ≡ [] }
{}

/// No try of an accept follows a decisive one.
pub fn decisive_try_ends_an_accept<T>()
    ensures { (tries newer older : List (AcceptOutcome T)) (made : AcceptOutcome T)
        (calls : List WaitCall) (result : Result T Fault) → AcceptTrace tries calls result
        → tries ≡ newer ++ (made ∷ older)
        → IsFalse (accept_is_inconclusive (made ∷ older)) → newer ≡ [] }
{}

/// The counts of a write never pass what was offered, nor the length. The bytes that were taken, in
/// order, are the first ones: none is left out, and none is taken twice.
pub fn written_bytes_are_the_first()
    ensures sum { (bytes : List ℕ) (tries : List WriteTry) (calls : List WaitCall)
        (result : Result ℕ WriteFault) → WriteTrace bytes tries calls result
        → count_of tries ≤ length bytes }
    ensures each { (bytes : List ℕ) (tries newer older : List WriteTry) (made : WriteTry)
        (calls : List WaitCall) (result : Result ℕ WriteFault) → WriteTrace bytes tries calls result
        → tries ≡ newer ++ (made ∷ older) → count_in made.outcome ≤ length made.offered }
    ensures taken { (bytes : List ℕ) (tries : List WriteTry) (calls : List WaitCall)
        (result : Result ℕ WriteFault) → WriteTrace bytes tries calls result
        → taken_bytes tries ≡ take (count_of tries) bytes }
    ensures fault { (bytes : List ℕ) (tries : List WriteTry) (calls : List WaitCall)
        (failed : WriteFault) → WriteTrace bytes tries calls (Result.Err failed)
        → failed.count ≡ count_of tries }
{}

/// No byte that a try of a write has counted is offered again: each later try begins where the
/// counts before it end.
pub fn no_written_byte_is_offered_again()
    ensures { (bytes : List ℕ) (tries newer between older : List WriteTry) (later made : WriteTry)
        (calls : List WaitCall) (result : Result ℕ WriteFault) → WriteTrace bytes tries calls result
        → tries ≡ newer ++ (later ∷ (between ++ (made ∷ older)))
        → (start : ℕ) × (count_of older + count_in made.outcome ≤ start)
        × (later.offered ≡ chunk_after bytes start) }
{}

/// The outcomes of the tries and the answers of the waits decide the answer of a read.
pub fn outcomes_decide_a_read()
    ensures { (buffer other : List ℕ) (tries others : List ReadTry) (calls asked : List WaitCall)
        (result answer : Result ℕ Fault) → ReadTrace buffer tries calls result
        → ReadTrace other others asked answer
        → map read_outcome tries ≡ map read_outcome others → calls ≡ asked → result ≡ answer }
{}

/// The length, the outcomes of the tries and the answers of the waits decide the answer of a write.
pub fn outcomes_decide_a_write()
    ensures { (bytes other : List ℕ) (tries others : List WriteTry) (calls asked : List WaitCall)
        (result answer : Result ℕ WriteFault) → WriteTrace bytes tries calls result
        → WriteTrace other others asked answer → length bytes ≡ length other
        → map write_outcome tries ≡ map write_outcome others → calls ≡ asked → result ≡ answer }
{}

/// The outcomes of the tries and the answers of the waits decide the answer of an accept, with what
/// it took.
pub fn outcomes_decide_an_accept<T>()
    ensures { (tries others : List (AcceptOutcome T)) (calls asked : List WaitCall)
        (result answer : Result T Fault) → AcceptTrace tries calls result
        → AcceptTrace others asked answer → tries ≡ others → calls ≡ asked → result ≡ answer }
{}

/// Among events in turn a wait comes right after each try that blocks, and a try that blocks right
/// before each wait: so each such try has exactly one wait, and nothing comes between.
pub fn each_block_has_one_wait<T>()
    ensures read { HasOneWaitEach read_try_rules }
    ensures write { (len : ℕ) → HasOneWaitEach (write_try_rules len) }
    ensures accept { HasOneWaitEach (accept_rules T) }
{}

/// However often a read under way would block before it is answered, the tries of all its parts
/// are those of one read that waits and is granted each wait, with the same answer.
pub fn parts_of_a_read_are_one_read()
    ensures { (buffer : List ℕ) (parts : List (List ReadTry)) (last : List ReadTry)
        (answer : Result ℕ Fault) → 0 < length buffer → EachWouldBlock (length buffer) parts
        → ReadNow buffer last (Some answer)
        → ReadTrace buffer (last ++ joined parts) (granted_calls Read
        (λ made. is_would_block (read_outcome made)) (last ++ joined parts)) answer }
{}

/// The limits of a call in figures: 1,024 inconclusive answers in a row, and 1,073,741,824 bytes a
/// try.
pub fn the_limits_in_figures()
    ensures retries { MAX_RETRIES ≡ 1024 }
    ensures try_bytes { MAX_TRY_BYTES ≡ 1073741824 }
{}
