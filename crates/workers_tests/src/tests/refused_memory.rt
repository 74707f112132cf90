//! Sessions whose replies find no memory.

use crate::tests::fake_desk::FakeDesk;
use linked_list_allocator::LocalHeap;
use relay_admin::AdminEnd;
use relay_workers::serve_on;
use std::alloc::Global;
use stream_base::reader_source::ReaderSource;
use stream_base::writer_sink::WriterSink;

/// A session: its lines, the questions, what is replied with memory for all, and what may be where
/// it is refused for some.
struct Session(&'static str, u64, &'static str, &'static str, &'static str);

const SESSIONS: &[Session] = &[
    // A list takes none.
    Session(
        "list\ntotals\nclose 1\nquit\n",
        3,
        "ids 1001 1006\ntotals up 12 down 0\nok\nok\n",
        "ids 1001 1006\nerror 507 out of memory\nok\nok\n",
        "ids 1001 1006\nerror 507 out of memory\nok\nok\n",
    ),
    // A reload that was carried out is told.
    Session(
        "show 7\nreload\nreload\nquit\n",
        3,
        "show 7 rule web side client peer tcp:127.0.0.1:51234 up 12 down 0 age 3500 quiet 1200\n\
        rules 2\nbad rules: same name at line 65536\nok\n",
        "error 507 out of memory\nrules 2\nbad rules: same name at line 65536\nok\n",
        "error 507 out of memory\nrules 2\nbad rules: same name at line 65536\nok\n",
    ),
    // A listing breaks off; its last line is longer than the other.
    Session(
        "show\nquit\n",
        1,
        "show 1001 rule web side client peer tcp:127.0.0.1:51234 up 12 down 0 age 3500 quiet 1200\n\
        show 1006 rule web side listener peer unix:/xxxxxxxxxxxxxxxxxxxxxxxxxxxxxxxxxxxxxxxxxxxxxxxxx\
        xxxxxxxxxxxxxxxxxxxxxxxxxxxxxxxxxxxxxxxxxxxxxxxxxx up 12 down 0 age 3500 quiet 1200\n\
        end\nok\n",
        "show 1001 rule web side client peer tcp:127.0.0.1:51234 up 12 down 0 age 3500 quiet 1200\n\
        error 507 out of memory\nok\n",
        "error 507 out of memory\nok\n",
    ),
    // So does one of targets.
    Session(
        "targets\nquit\n",
        1,
        "target 1001 rule web at tcp:10.0.0.11:8443 state down since 3500 set auto connections 2 \
        connects 17 failures 1 checks on passed 40 failed 3 last refused\n\
        target 1006 rule web at unix:/xxxxxxxxxxxxxxxxxxxxxxxxxxxxxxxxxxxxxxxxxxxxxxxxx\
        xxxxxxxxxxxxxxxxxxxxxxxxxxxxxxxxxxxxxxxxxxxxxxxxxx state drained since 3500 set drain \
        connections 2 connects 17 failures 1 checks on passed 40 failed 3 last unreachable\n\
        end\nok\n",
        "target 1001 rule web at tcp:10.0.0.11:8443 state down since 3500 set auto connections 2 \
        connects 17 failures 1 checks on passed 40 failed 3 last refused\n\
        error 507 out of memory\nok\n",
        "error 507 out of memory\nok\n",
    ),
];

/// What a session replies where its replies take memory of this heap, if it ends by `quit` after so
/// many questions.
fn replies_on(alloc: Global, heap: &LocalHeap, lines: &str, asked: u64) -> Option<Vec<u8>> {
    let mut text = lines.as_bytes();
    let mut source = ReaderSource::new(&mut text);
    let mut replies = Vec::new(alloc);
    let mut sink = WriterSink::new(&mut replies);
    let mut desk = FakeDesk {
        ids: &[1001, 1006],
        asked: 0,
        is_drained: false,
        reloads: 0,
    };
    let end = serve_on(alloc, heap, &mut source, &mut sink, &mut desk);
    if end == Ok(AdminEnd::Quit) && desk.asked == asked {
        return Some(replies);
    }
    None
}

/// Whether a session's replies on a heap of so many units are whole. None where they are neither
/// that nor those of a refusal.
fn is_whole(alloc: Global, units: usize, session: &Session) -> Option<bool> {
    let Session(lines, asked, whole, refused, also_refused) = session;
    let Ok(heap) = LocalHeap::new(alloc, units.saturating_mul(16)) else {
        return None;
    };
    let Some(replies) = replies_on(alloc, &heap, lines, *asked) else {
        return None;
    };
    let said = replies.as_slice();
    if said == whole.as_bytes() {
        return Some(true);
    }
    if said == refused.as_bytes() || said == also_refused.as_bytes() {
        return Some(false);
    }
    None
}

/// The units of the least heap on which a session's replies are whole. None where they were never
/// whole, or otherwise than a refusal has them.
fn least_units(alloc: Global, session: &Session) -> Option<usize> {
    for units in 1..100usize {
        if is_whole(alloc, units, session)? {
            return Some(units);
        }
    }
    None
}

#[test]
fn refused_memory_is_replied_and_the_session_goes_on(rt: HostRuntime) {
    for session in SESSIONS {
        let units = least_units(rt.alloc(), session);
        assert!(rt; units > Some(1), "{}: {units:?} units", session.0);
    }
}
