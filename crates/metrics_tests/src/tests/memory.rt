//! Memory that is refused.

use super::meter::{Meter, made};
use super::pages::{FIGURES, answered, is_answer, page_of};
use super::text::MADE;
use linked_list_allocator::LocalHeap;
use relay_metrics::Figures;
use std::process::Abort;

/// Whether the whole text was given on this heap. Where it wasn't, nothing was.
fn is_spelled_on<R: Abort>(rt: &R, heap: &LocalHeap, figures: &Figures) -> bool {
    match figures.text(heap) {
        Ok(text) => {
            holds!(*rt; text.as_slice() == MADE.as_bytes(), "another text");
            true
        }
        Err(_) => false,
    }
}

// On heaps of growing size, so that each request is refused in turn.
#[test]
fn a_text_is_whole_or_refused_and_leaves_no_memory(rt: HostRuntime) {
    let figures = made(rt.alloc()).expect(&rt, "a snapshot");
    let mut refused = 0u32;
    for units in 1..4_000usize {
        let heap = LocalHeap::new(rt.alloc(), units.saturating_mul(16)).expect(&rt, "a heap");
        let is_whole = is_spelled_on(&rt, &heap, &figures);
        holds!(rt; heap.used() == 0, "memory is left");
        if is_whole {
            holds!(rt; refused > 3, "seldom refused");
            return;
        }
        refused = refused.saturating_add(1);
    }
    holds!(rt; false, "always refused");
}

const THREE: &str = "\
GET /metrics HTTP/1.1\r\nHost: x\r\n\r\n\
GET /metrics HTTP/1.1\r\nHost: x\r\n\r\n\
GET /healthz HTTP/1.1\r\nHost: x\r\n\r\n";

const REFUSED: &str = "HTTP/1.1 500 Internal Server Error\r\ncontent-length: 0\r\n\r\n";

const WELL: &str = "\
HTTP/1.1 200 OK\r\ncontent-type: text/plain; charset=utf-8\r\ncontent-length: 3\r\n\r\nok\n";

/// What stands between a refusal and what says that all is well.
fn between(text: &str) -> Option<&str> {
    text.strip_prefix(REFUSED)?.strip_suffix(WELL)
}

#[test]
fn a_page_that_is_refused_memory_is_a_500_and_the_next_is_whole(rt: HostRuntime) {
    let text = answered(&rt, Meter::refusing(1), THREE).expect(&rt, "an answer");
    let second = between(text.as_str()).expect(&rt, "a refusal, and what is well");
    let page = page_of(rt.alloc(), 2).expect(&rt, "a page");
    holds!(rt; is_answer(second, "200 OK", FIGURES, page.as_str()));
}
