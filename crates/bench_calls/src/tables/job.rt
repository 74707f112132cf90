//! What is asked for, by three words: a load, how many timers or entries there are,
//! and how often each timer is armed again or how many look-ups are made.

ghost use Rattle.std.specs.Prelude.{◌≡◌, IfSome, IfNone, length};
ghost use Rattle.std.specs.List.{HoldsAt};
ghost use Rattle.std.specs.String.{string_bytes};
ghost use Rattle.bench_calls.specs.tables.Words.{IsJob, HasNoJob, named_job};

/// What an entry is looked up by.
#[derive(Clone, Copy, Drop)]
pub enum By {
    Token,
    Id,
}

/// One load, with its sizes.
#[derive(Clone, Copy, Drop)]
pub enum Job {
    Timers { count: u64, rounds: u64 },
    LookUps { by: By, count: u64, times: u64 },
}

// The job of a load by its name, of this size.
fn job_named(load: &str, count: u64, times: u64) -> Option<Job>
    ensures { result ≡ named_job load.now count times }
{
    match load {
        "timers" => Some(Job::Timers {
            count,
            rounds: times,
        }),
        "tokens" => Some(Job::LookUps {
            by: By::Token,
            count,
            times,
        }),
        "ids" => Some(Job::LookUps {
            by: By::Id,
            count,
            times,
        }),
        _ => None,
    }
}

/// The job that the words after the name of the bench ask for.
pub fn job_of(words: &[String]) -> Option<Job>
    ensures words { IfSome result (λ job. length words.now ≡ 4) }
    ensures asked { IfSome result (λ job. HoldsAt (λ load. HoldsAt (λ count. HoldsAt (λ times.
        IsJob (string_bytes load) (string_bytes count) (string_bytes times) job)
        words.now 3) words.now 2) words.now 1) }
    ensures none { length words.now ≡ 4 → IfNone result (
        HoldsAt (λ load. HoldsAt (λ count. HoldsAt (λ times.
        HasNoJob (string_bytes load) (string_bytes count) (string_bytes times))
        words.now 3) words.now 2) words.now 1) }
{
    let [_, load, count, times] = words else {
        return None;
    };
    let count = count.as_str().parse::<u64>().ok()?;
    let times = times.as_str().parse::<u64>().ok()?;
    job_named(load.as_str(), count, times)
}
