//! The words that ask for a job, and words that ask for none.

use relay_admin::{Addr, addr_of};
use relay_command::{Job, job_of};
use relay_core::{Loops, PairLimit};
use relay_settings::{Asked, Settings, Source, relay_addr_of};
use std::alloc::{AllocError, Global};
use std::prelude::HostRuntime;
use std::test::Fail;

/// Whether these words ask for this job, or for none.
fn is_job(alloc: Global, words: &[&str], job: &Option<Job>) -> bool {
    match job_of(alloc, words) {
        Ok(found) => found == *job,
        Err(_) => false,
    }
}

fn rules_file(alloc: Global, path: &str) -> Option<Source> {
    Some(Source::Rules(String::from_str(alloc, path).ok()?))
}

fn config_file(alloc: Global, path: &str) -> Option<Source> {
    Some(Source::Config(String::from_str(alloc, path).ok()?))
}

fn checked(alloc: Global, rules: &str) -> Option<Job> {
    Some(Job::Check(rules_file(alloc, rules)?))
}

fn converted(alloc: Global, rules: &str) -> Option<Job> {
    Some(Job::Convert(String::from_str(alloc, rules).ok()?))
}

/// What words say that say only where admin sessions are served.
fn steered_at(admin: Option<String>) -> Settings {
    let mut words = Settings::none();
    words.admin = admin;
    words
}

fn served(
    alloc: Global,
    rules: &str,
    admin: &str,
    loops: Option<Loops>,
    pairs: Option<PairLimit>,
) -> Option<Job> {
    let source = rules_file(alloc, rules)?;
    let mut words = steered_at(Some(String::from_str(alloc, admin).ok()?));
    words.loops = loops;
    words.pairs = pairs;
    Some(Job::Serve(Asked { source, words }))
}

/// The job of `serve --rules F --admin A` with these two options.
fn served_with(alloc: Global, log: Option<&str>, metrics: Option<Addr>) -> Option<Job> {
    let source = rules_file(alloc, "F")?;
    let mut words = steered_at(Some(String::from_str(alloc, "A").ok()?));
    words.log = match log {
        Some(path) => Some(String::from_str(alloc, path).ok()?),
        None => None,
    };
    words.metrics = metrics;
    Some(Job::Serve(Asked { source, words }))
}

const SERVE: [&str; 5] = ["serve", "--rules", "F", "--admin", "A"];

/// The words of `serve` with these behind them.
fn serve_with<'a>(alloc: Global, words: &[&'a str]) -> Result<Vec<&'a str>, AllocError> {
    let mut all = Vec::new(alloc);
    for word in SERVE {
        all.push(word)?;
    }
    for word in words {
        all.push(*word)?;
    }
    Ok(all)
}

#[test]
fn a_command_is_taken_with_its_options(rt: HostRuntime) {
    let alloc = rt.alloc();
    let check = checked(alloc, "F");
    let serve = served(alloc, "F", "/a b", None, None);
    let on_one = served(alloc, "F", "/a b", Loops::of(1), None);
    let on_most = served(alloc, "F", "/a b", Loops::of(64), PairLimit::of(1));
    let most_pairs = served(alloc, "F", "/a b", None, PairLimit::of(50_000));
    let check_none = checked(alloc, "");
    let rows: [(&[&str], &Option<Job>); 14] = [
        (&[], &Some(Job::Trace)),
        (&["trace"], &Some(Job::Trace)),
        (&["--"], &Some(Job::Trace)),
        (&["trace", "--"], &Some(Job::Trace)),
        (&["check", "--rules", "F", "--"], &check),
        (&["serve", "--rules", "F", "--admin", "/a b", "--"], &serve),
        (&["check", "--rules", "F"], &check),
        (&["check", "--rules=F"], &check),
        (&["serve", "--rules", "F", "--admin", "/a b"], &serve),
        (&["serve", "--admin=/a b", "--rules", "F"], &serve),
        (
            &["serve", "--loops", "1", "--rules", "F", "--admin", "/a b"],
            &on_one,
        ),
        (
            &[
                "serve",
                "--rules",
                "F",
                "--connections=1",
                "--admin",
                "/a b",
                "--loops=64",
            ],
            &on_most,
        ),
        (
            &[
                "serve",
                "--rules",
                "F",
                "--admin",
                "/a b",
                "--connections",
                "50000",
            ],
            &most_pairs,
        ),
        (&["check", "--rules", ""], &check_none),
    ];
    for (words, job) in rows {
        let is_taken = job.is_some() && is_job(alloc, words, job);
        assert!(&rt; is_taken, "{words:?}");
    }
}

fn controlled(alloc: Global, line: &str) -> Option<Job> {
    let admin = String::from_str(alloc, "/a b").ok()?;
    let line = String::from_str(alloc, line).ok()?;
    Some(Job::Ctl { admin, line })
}

#[test]
fn ctl_takes_one_to_four_words_as_a_line(rt: HostRuntime) {
    let alloc = rt.alloc();
    let rows: [(&[&str], &str); 7] = [
        (&["ctl", "--admin", "/a b", "list"], "list"),
        (&["ctl", "list", "--admin=/a b"], "list"),
        (&["ctl", "--admin", "/a b", "close", "9"], "close 9"),
        (
            &["ctl", "deadline", "--admin", "/a b", "3", "never"],
            "deadline 3 never",
        ),
        (&["ctl", "--admin", "/a b", "deadline 3 0"], "deadline 3 0"),
        (&["ctl", "--admin", "/a b", "frob", ""], "frob "),
        (
            &["ctl", "--admin", "/a b", "target", "web", "unix:/t", "up"],
            "target web unix:/t up",
        ),
    ];
    for (words, line) in rows {
        let job = controlled(alloc, line);
        let is_taken = job.is_some() && is_job(alloc, words, &job);
        assert!(&rt; is_taken, "{words:?}");
    }
}

#[test]
fn help_and_version_stand_alone(rt: HostRuntime) {
    let rows: [(&[&str], &Option<Job>); 6] = [
        (&["help"], &Some(Job::Help)),
        (&["version"], &Some(Job::Version)),
        (&["help", "--"], &Some(Job::Help)),
        (&["help", "serve"], &None),
        (&["version", "x"], &None),
        (&["--version"], &None),
    ];
    for (words, job) in rows {
        assert!(&rt; is_job(rt.alloc(), words, job), "{words:?}");
    }
}

#[test]
fn no_other_words_are_taken(rt: HostRuntime) {
    let refused: [&[&str]; 49] = [
        &["check"],
        &["check", "F"],
        &["check", "--rules"],
        &["check", "--rules", "-x"],
        &["check", "--rules", "F", "G"],
        &["check", "--rules", "F", "--rules", "F"],
        &["check", "--rule", "F"],
        &["check", "--rules", "F", "--admin", "A"],
        &["serve", "--rules", "F"],
        &["serve", "--admin", "A"],
        &["serve", "--rules", "F", "--admin", "A", "--", "x"],
        &["serve", "--rules", "F", "--admin", "A", "--loops"],
        &["serve", "--rules", "F", "--admin", "A", "--loops", ""],
        &["serve", "--rules", "F", "--admin", "A", "--loops", "0"],
        &["serve", "--rules", "F", "--admin", "A", "--loops", "65"],
        &["serve", "--rules", "F", "--admin", "A", "--loops", "04"],
        &["serve", "--rules", "F", "--admin", "A", "--loops", "+4"],
        &[
            "serve",
            "--rules",
            "F",
            "--admin",
            "A",
            "--loops=4",
            "--loops=4",
        ],
        &["check", "--rules", "F", "--loops", "4"],
        &["check", "--rules", "F", "--connections", "4"],
        &["serve", "--rules", "F", "--admin", "A", "--connections"],
        &["serve", "--rules", "F", "--admin", "A", "--connections=0"],
        &[
            "serve",
            "--rules",
            "F",
            "--admin",
            "A",
            "--connections=50001",
        ],
        &["serve", "--rules", "F", "--admin", "A", "--connections=04"],
        &[
            "serve",
            "--rules",
            "F",
            "--admin",
            "A",
            "--connections=4",
            "--connections=4",
        ],
        &["--rules", "F", "check"],
        &["frob"],
        &["--help"],
        &["-h"],
        &["ctl"],
        &["ctl", "list"],
        &["ctl", "--admin", "A"],
        &["ctl", "--admin", "A", "--admin", "A", "list"],
        &["ctl", "--admin", "A", "deadline", "1", "2", "3", "4"],
        &["ctl", "--admin", "A", "--", "list"],
        &["ctl", "--admin", "A", "--rules", "F", "list"],
        &["-V"],
        &["--", "trace"],
        &["--", "--"],
        &["--", "check", "--rules", "F"],
        &["trace", "--", "--"],
        &["check", "--", "--rules", "F"],
        &["check", "--rules", "--"],
        &["check", "--rules", "--", "F"],
        &["check", "--rules", "F", "--", "G"],
        &[""],
        &["trace", "x"],
        &["trace", "trace"],
        &["trace", "--rules", "F"],
    ];
    for words in refused {
        assert!(&rt; is_job(rt.alloc(), words, &None), "{words:?}");
    }
}

#[test]
fn serve_takes_a_log_and_an_address_for_metrics(rt: HostRuntime) -> Result<(), Fail> {
    let alloc = rt.alloc();
    let tcp = addr_of(b"tcp:127.0.0.1:9090");
    let unix = addr_of(b"unix:/run/metrics.sock");
    let six = relay_addr_of(b"tcp:[::1]:9090");
    assert!(&rt; tcp.is_some() && unix.is_some() && six.is_some());
    let rows: [(&[&str], Option<&str>, Option<Addr>); 7] = [
        (&["--log", "/var/log/relay"], Some("/var/log/relay"), None),
        (&["--log=-"], Some("-"), None),
        (&["--log", "-"], Some("-"), None),
        (&["--metrics", "tcp:127.0.0.1:9090"], None, tcp),
        (&["--metrics=unix:/run/metrics.sock"], None, unix),
        (&["--metrics", "tcp:[::1]:9090"], None, six),
        (
            &["--metrics=tcp:127.0.0.1:9090", "--log=a b"],
            Some("a b"),
            tcp,
        ),
    ];
    for (words, log, metrics) in rows {
        let all = serve_with(alloc, words)?;
        let job = served_with(alloc, log, metrics);
        assert!(&rt;
            job.is_some() && is_job(alloc, all.as_slice(), &job),
            "{words:?}"
        );
    }
    Ok(())
}

#[test]
fn serve_takes_no_other_log_or_address(rt: HostRuntime) -> Result<(), Fail> {
    let rows: [&[&str]; 17] = [
        &["--log"],
        &["--log", ""],
        &["--log="],
        &["--log", "--metrics", "unix:/m"],
        &["--log=a", "--log=a"],
        &["--metrics"],
        &["--metrics", ""],
        &["--metrics", "x"],
        &["--metrics", "tcp:1.2.3:4"],
        &["--metrics", "tcp:1.2.3.4:0"],
        &["--metrics", "tcp:1.2.3.4:65536"],
        &["--metrics", "tcp:01.2.3.4:80"],
        &["--metrics", "unix:run/m"],
        &["--metrics", "127.0.0.1:9090"],
        &["--metrics", "tcp:::1:9090"],
        &["--metrics", "tcp:localhost:9090"],
        &["--metrics=unix:/m", "--metrics=unix:/m"],
    ];
    for words in rows {
        let all = serve_with(rt.alloc(), words)?;
        assert!(&rt; is_job(rt.alloc(), all.as_slice(), &None), "{words:?}");
    }
    for words in [
        ["check", "--rules", "F", "--log=a"],
        ["check", "--rules", "F", "--metrics=unix:/m"],
    ] {
        assert!(&rt; is_job(rt.alloc(), &words, &None), "{words:?}");
    }
    Ok(())
}

#[test]
fn a_rules_file_alone_is_converted(rt: HostRuntime) -> Result<(), Fail> {
    let job = converted(rt.alloc(), "F");
    for words in [["convert", "--rules", "F"], ["convert", "--rules=F", "--"]] {
        assert!(&rt;
            job.is_some() && is_job(rt.alloc(), &words, &job),
            "{words:?}"
        );
    }
    for words in [
        ["convert", "--config", "F"],
        ["convert", "--rules", "--"],
        ["convert", "F", "--rules"],
    ] {
        assert!(&rt; is_job(rt.alloc(), &words, &None), "{words:?}");
    }
    Ok(())
}

fn checked_config(alloc: Global, path: &str) -> Option<Job> {
    Some(Job::Check(config_file(alloc, path)?))
}

/// The job of `serve --config F`, with an admin socket or without.
fn served_by_config(alloc: Global, admin: Option<&str>, loops: Option<Loops>) -> Option<Job> {
    let source = config_file(alloc, "F")?;
    let admin = match admin {
        Some(path) => Some(String::from_str(alloc, path).ok()?),
        None => None,
    };
    let mut words = steered_at(admin);
    words.loops = loops;
    Some(Job::Serve(Asked { source, words }))
}

#[test]
fn a_configuration_stands_in_place_of_a_rules_file(rt: HostRuntime) {
    let alloc = rt.alloc();
    let check = checked_config(alloc, "F");
    let serve = served_by_config(alloc, None, None);
    let steered = served_by_config(alloc, Some("/a b"), Loops::of(3));
    let rows: [(&[&str], &Option<Job>); 6] = [
        (&["check", "--config", "F"], &check),
        (&["check", "--config=F", "--"], &check),
        (&["serve", "--config", "F"], &serve),
        (&["serve", "--config=F", "--"], &serve),
        (
            &["serve", "--config", "F", "--admin", "/a b", "--loops=3"],
            &steered,
        ),
        (
            &["serve", "--loops", "3", "--admin=/a b", "--config", "F"],
            &steered,
        ),
    ];
    for (words, job) in rows {
        let is_taken = job.is_some() && is_job(alloc, words, job);
        assert!(&rt; is_taken, "{words:?}");
    }
}

#[test]
fn of_a_rules_file_and_a_configuration_one_is_given(rt: HostRuntime) {
    let refused: [&[&str]; 11] = [
        &["serve"],
        &["serve", "--admin", "A", "--loops", "3"],
        &["serve", "--rules", "F", "--config", "F"],
        &["serve", "--rules", "F", "--config", "F", "--admin", "A"],
        &["serve", "--config", "F", "--config", "F"],
        &["serve", "--config"],
        &["serve", "--config", "F", "G"],
        &["serve", "--config", "F", "--loops=0"],
        &["check", "--rules", "F", "--config", "F"],
        &["check", "--config", "F", "--admin", "A"],
        &["check", "--config", "-F"],
    ];
    for words in refused {
        assert!(&rt; is_job(rt.alloc(), words, &None), "{words:?}");
    }
}
