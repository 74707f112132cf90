//! A service that is shut down from another thread. What is under way then `lines_served.py` tries.

use super::pause;
use super::serving::{hears_end, says, served_by};
use super::tasks::{Does, LONG_MS};
use net::{Runs, ServiceCloser};
use std::thread;
use std::time::Duration;

fn asks_later<R: Runs>(rt: R, closer: ServiceCloser<R>, ms: u64) -> bool {
    pause(&rt, 20);
    let first = closer.shutdown(Duration::from_millis(LONG_MS)).is_first();
    pause(&rt, 20);
    first && !closer.shutdown(Duration::from_millis(ms)).is_first()
}

#[test]
fn a_shutdown_is_asked_for_from_another_thread_and_the_shorter_time_counts(rt: HostRuntime) {
    let mut both = served_by(rt, rt.alloc(), Does::Echoes(0));
    let mut conn = both.client(&rt);
    holds!(rt; says(&mut conn).is_ok(), "it is served");
    let service = both.served.take().expect(&rt, "served");
    let closer = service.closer().expect(&rt, "a closer");
    let asking = thread::spawn(&rt, move || asks_later(rt, closer, 20)).expect(&rt, "thread");
    let ended = service.wait();
    holds!(rt; hears_end(&mut conn), "its task was ended");
    holds!(rt; ended.cut_off() == 1, "it was cut off");
    holds!(rt; asking.join(&rt), "the first that asks closes the listener");
}
