//! The rounds that are asked for, by four words: a load, the number of threads, how many rounds
//! each of them makes, and the bytes that lie ahead of the lock word.

ghost use Rattle.std.specs.Prelude.{◌≡◌, Some, IfSome, IfNone, length};
ghost use Rattle.std.specs.List.{HoldsAt};
ghost use Rattle.std.specs.String.{string_bytes};
ghost use Rattle.bench_calls.specs.Numbers.{number_in};
ghost use Rattle.bench_calls.specs.lock_word.Words.{HasNoJob, load_named};

/// What a thread does in a round.
#[derive(Clone, Copy, Drop)]
pub enum Load {
    /// Takes a reference and drops it.
    References,
    /// Takes the read lock, adds 1 to the read half, and unlocks.
    Reads,
}

/// How many threads do what, and how often, on a word at which place.
#[derive(Clone, Copy, Drop)]
pub struct Job {
    pub load: Load,
    pub threads: u8,
    pub rounds: u64,
    /// Bytes taken on the heap before the word is, which move it on in its page.
    pub lead: u16,
}

fn load_of(word: &str) -> Option<Load>
    ensures { result ≡ load_named word.now }
{
    match word {
        "references" => Some(Load::References),
        "reads" => Some(Load::Reads),
        _ => None,
    }
}

/// The job that the words after the name of the bench ask for.
pub fn job_of(words: &[String]) -> Option<Job>
    ensures words { IfSome result (λ job. length words.now ≡ 5) }
    ensures load { IfSome result (λ job.
        HoldsAt (λ word. load_named (string_bytes word) ≡ Some job.load) words.now 1) }
    ensures threads { IfSome result (λ job.
        HoldsAt (λ word. number_in (string_bytes word) ≡ job.threads) words.now 2) }
    ensures rounds { IfSome result (λ job.
        HoldsAt (λ word. number_in (string_bytes word) ≡ job.rounds) words.now 3) }
    ensures lead { IfSome result (λ job.
        HoldsAt (λ word. number_in (string_bytes word) ≡ job.lead) words.now 4) }
    ensures none { length words.now ≡ 5 → IfNone result (
        HoldsAt (λ load. HoldsAt (λ threads. HoldsAt (λ rounds. HoldsAt (λ lead. HasNoJob
        (string_bytes load) (string_bytes threads) (string_bytes rounds) (string_bytes lead))
        words.now 4) words.now 3) words.now 2) words.now 1) }
{
    match words {
        [_, load, threads, rounds, lead] => Some(Job {
            load: load_of(load.as_str())?,
            threads: threads.as_str().parse::<u8>().ok()?,
            rounds: rounds.as_str().parse::<u64>().ok()?,
            lead: lead.as_str().parse::<u16>().ok()?,
        }),
        _ => None,
    }
}
