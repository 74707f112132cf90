//! Whole sessions, byte by byte: their replies, each of which is out before the next read, and their
//! ends, also over devices that are slow, short or broken.
mod devices;
mod telling;

use crate::tests::fake_desk::FakeDesk;
use devices::{Full, NarrowWriter, SlowReader};
use relay_admin::AdminEnd;
use relay_workers::{AdminFault, serve_admin};
use std::alloc::Global;
use std::cell::Cell;

/// A session: what is read, what is replied, how it ends, and how often the desk is asked.
struct Session(
    &'static str,
    &'static str,
    Result<AdminEnd, AdminFault>,
    u64,
);

/// The pace of its devices: the interruptions before each read, and whether the reader then fails; those before
/// each write, the writer's room, and what it does once that is full.
struct Pace(u32, bool, u32, usize, &'static Full);

const WELL: Pace = Pace(0, false, 0, 1_000, &Full::Fails);

const END: Result<AdminEnd, AdminFault> = Ok(AdminEnd::End);

const QUIT: Result<AdminEnd, AdminFault> = Ok(AdminEnd::Quit);

const NO_WRITE: Result<AdminEnd, AdminFault> = Err(AdminFault::Write);

const X64: &str = "xxxxxxxxxxxxxxxxxxxxxxxxxxxxxxxxxxxxxxxxxxxxxxxxxxxxxxxxxxxxxxxx";

const X65: &str = "xxxxxxxxxxxxxxxxxxxxxxxxxxxxxxxxxxxxxxxxxxxxxxxxxxxxxxxxxxxxxxxxx";

const BAD: &str = "error 400 bad command\n";

const BAD_TWICE: &str = "error 400 bad command\nerror 400 bad command\n";

const SHOWN_AND_RELOADED: &str =
    "show 7 rule web side client peer tcp:127.0.0.1:51234 up 12 down 0 age 3500 quiet 1200\n\
    error 404 no such connection\nrules 2\nok\n";

// What the fake desk's reloads have in turn.
const RELOADED: &str = "rules 2\nbad rules: same name at line 65536\ncannot read rules\n\
    cannot listen web-2\nerror 507 out of memory\nerror 409 closed\nok\n";

const SESSIONS: &[Session] = &[
    Session("", "", END, 0),
    Session("list", "ids 1 2\n", END, 1),
    Session("deadline 3 0\n", "ok\n", END, 1),
    Session("close 01\nclose 4503599627370495\n", BAD_TWICE, END, 0),
    Session("finish 86400001\nfinish\n", BAD_TWICE, END, 0),
    Session("finish 86400000\n", "ok\n", END, 1),
    Session("drain 1\ndrain 1\n", "ok\nerror 409 draining\n", END, 2),
    Session("show 01\nreload 1\n", BAD_TWICE, END, 0),
    Session("target web 1 DOWN\ntarget web 1\n", BAD_TWICE, END, 0),
    Session(
        "target web 1 drain\ntarget web tcp:10.0.0.11:8443 auto\ntarget db 1 up\ntarget web 2 down\n",
        "ok\nok\nerror 404 no such rule\nerror 404 no such target\n",
        END,
        4,
    ),
    Session("quit\nlist\n", "ok\n", QUIT, 0),
    Session("stop", "ok\n", Ok(AdminEnd::Stop), 0),
    Session("\nlist\r\n", BAD_TWICE, END, 0),
    Session(X65, BAD, Ok(AdminEnd::TooLong), 0),
    Session(X64, BAD, END, 0),
    // docs/admin-protocol.md
    Session(
        "totals\nclose 9\nlist\nfrob\nquit\n",
        "totals up 12 down 0\nerror 404 no such connection\nids 1 2\nerror 400 bad command\nok\n",
        QUIT,
        3,
    ),
    Session(
        "close 1\nclose 2\nclose 4\nclose 5\ndeadline 1 never\nstop\n",
        "ok\nerror 409 closed\nerror 507 out of memory\nerror 409 busy\nok\nok\n",
        Ok(AdminEnd::Stop),
        5,
    ),
    Session(
        "deadline 1 50\ndrain 1\ndeadline 1 50\nclose 1\ndrain 2\n",
        "ok\nok\nerror 409 draining\nok\nerror 409 closed\n",
        END,
        5,
    ),
    // docs/admin-protocol.md
    Session(
        "show 7\nshow 9\nreload\nquit\n",
        SHOWN_AND_RELOADED,
        QUIT,
        3,
    ),
    Session(
        "reload\nreload\nreload\nreload\nreload\nreload\nquit",
        RELOADED,
        QUIT,
        6,
    ),
];

/// Rows of ids, and the reply to `show` and `list`. Id 2 has gone when it is looked at.
const LISTINGS: &[(&[u64], Session)] = &[
    (&[], Session("show\nlist\n", "end\nids\n", END, 2)),
    (
        &[2, 7],
        Session(
            "show\nlist\n",
            "show 7 rule web side client peer tcp:127.0.0.1:51234 up 12 down 0 age 3500 quiet 1200\n\
            end\nids 2 7\n",
            END,
            2,
        ),
    ),
    (&[], Session("targets\n", "end\n", END, 1)),
    (
        &[1, 2, 4],
        Session(
            "targets\nlist\n",
            "target 1 rule web at tcp:10.0.0.11:8443 state up since 3500 set auto connections 2 \
            connects 17 failures 1 checks off passed 40 failed 3 last none\n\
            target 4 rule web at tcp:10.0.0.11:8443 state down since 3500 set auto connections 2 \
            connects 17 failures 1 checks on passed 40 failed 3 last refused\n\
            end\nids 1 2 4\n",
            END,
            2,
        ),
    ),
];

const BROKEN: &[(&str, Pace, Session)] = &[
    (
        "1,024 interruptions",
        Pace(1_024, false, 1_024, 100, &Full::Fails),
        Session("list\nquit\n", "ids 1 2\nok\n", QUIT, 1),
    ),
    (
        "1,025 interrupted reads",
        Pace(1_025, false, 0, 100, &Full::Fails),
        Session("quit\n", "", Err(AdminFault::Read), 0),
    ),
    (
        "1,025 interrupted writes",
        Pace(0, false, 1_025, 100, &Full::Fails),
        Session("quit\n", "", NO_WRITE, 0),
    ),
    (
        "a failing read",
        Pace(0, true, 0, 100, &Full::Fails),
        Session("list\nlis", "ids 1 2\n", Err(AdminFault::Read), 1),
    ),
    (
        "a failing write",
        Pace(0, false, 0, 12, &Full::Fails),
        Session("list\ntotals\nlist\n", "ids 1 2\ntota", NO_WRITE, 2),
    ),
    (
        "a failing write in a listing",
        Pace(0, false, 0, 20, &Full::Fails),
        Session("show\nlist\n", "show 1 rule web side", NO_WRITE, 1),
    ),
    (
        "a write of nothing",
        Pace(0, false, 0, 12, &Full::TakesNothing),
        Session("list\ntotals\nlist\n", "ids 1 2\ntota", NO_WRITE, 2),
    ),
    (
        "a failing flush",
        Pace(0, false, 0, 9, &Full::FailsAtFlush),
        Session(
            "list\ntotals\nlist\n",
            "ids 1 2\ntotals up 12 down 0\n",
            NO_WRITE,
            2,
        ),
    ),
    (
        "no read after quit",
        Pace(0, true, 0, 100, &Full::Fails),
        Session("list\nquit\n", "ids 1 2\nok\n", QUIT, 1),
    ),
    (
        "no read after the 65th byte",
        Pace(0, true, 0, 100, &Full::Fails),
        Session(X65, BAD, Ok(AdminEnd::TooLong), 0),
    ),
];

/// Plays one session over such devices at a desk with these ids, and says whether it goes so. The
/// cell is for the flushes, and holds 0 before.
fn plays(
    alloc: Global,
    ids: &'static [u64],
    pace: &Pace,
    session: &Session,
    flushes: &Cell<u64>,
) -> bool {
    let Session(_, replies, end, asked) = session;
    let text = session.0;
    let mut reader = SlowReader {
        bytes: text.as_bytes(),
        row: pace.0,
        left: pace.0,
        fails: pace.1,
        lines: 0,
        flushes,
    };
    let mut writer = NarrowWriter {
        taken: Vec::new(alloc),
        row: pace.2,
        left: pace.2,
        room: pace.3,
        full: pace.4,
        flushes,
    };
    let mut desk = FakeDesk {
        ids,
        asked: 0,
        is_drained: false,
        reloads: 0,
    };
    let got = serve_admin(alloc, &mut reader, &mut writer, &mut desk);
    got == *end && desk.asked == *asked && writer.taken.as_slice() == replies.as_bytes()
}

#[test]
fn lines_have_their_replies(rt: HostRuntime) {
    for session in SESSIONS {
        assert!(rt;
            plays(rt.alloc(), &[1, 2], &WELL, session, &Cell::new(0)),
            "{}",
            session.0
        );
    }
    for (ids, listing) in LISTINGS {
        assert!(rt;
            plays(rt.alloc(), ids, &WELL, listing, &Cell::new(0)),
            "{ids:?}"
        );
    }
}

#[test]
fn devices_may_be_slow_short_or_broken(rt: HostRuntime) {
    for (row, pace, session) in BROKEN {
        assert!(rt;
            plays(rt.alloc(), &[1, 2], pace, session, &Cell::new(0)),
            "{row}"
        );
    }
}
