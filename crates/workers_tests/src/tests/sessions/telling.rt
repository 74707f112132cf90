//! A session at a desk that tells what it was asked: its list is the one by which the text has these
//! replies.

ghost use Rattle.std.specs.Prelude.{◌≡◌, ◌∷◌, [], true, false, IfOk, IsTrue};
ghost use Rattle.relay_admin.specs.declared.admin.command.Command.TheVariants as commands;
ghost use Rattle.relay_admin.specs.admin.Reply.{AddsExchanges, HasAskedId, answer_of};
ghost use Rattle.relay_admin.specs.admin.Transcript.{IsTranscriptOf, ended};
ghost use Rattle.workers_tests.specs.Recorded.{exchange_of, exchanges_of, told_where};

use relay_admin::{AdminEnd, DeskAnswer, Shown, ShownTarget, TargetOrder};
use relay_workers::{AdminFault, Desk, serve_admin};
use std::alloc::Global;

/// Tells its totals, which rise by 7 a question. Whatever else it is asked, it stops telling.
#[derive(Drop)]
struct TellingDesk {
    /// Whether it was a look, and the id, or the bytes up.
    asked: Vec<(bool, u64)>,
    is_whole: bool,
    up: u64,
}

impl TellingDesk {
    fn keep(&mut self, is_look: bool, number: u64)
        ensures { AddsExchanges (told_where self.old.is_whole self.old.asked.items)
            (told_where self.new.is_whole self.new.asked.items)
            (exchange_of is_look number ∷ []) }
    {
        if self.asked.push((is_look, number)).is_err() {
            self.is_whole = false;
        }
    }

    fn stop(&mut self) -> DeskAnswer
        ensures stopped { self.new.is_whole ≡ false }
        ensures answer { result ≡ DeskAnswer.Unknown }
    {
        self.is_whole = false;
        DeskAnswer::Unknown
    }
}

impl Desk for TellingDesk {
    ghost exchanges = { λ desk. told_where desk.is_whole desk.asked.items };

    fn ids(&mut self, _alloc: Global) -> DeskAnswer {
        self.stop()
    }

    fn totals(&mut self) -> DeskAnswer {
        let up = self.up.saturating_add(7);
        self.up = up;
        self.keep(false, up);
        DeskAnswer::Totals(up, 0)
    }

    fn close(&mut self, _id: u64) -> DeskAnswer {
        self.stop()
    }

    fn drain(&mut self, _id: u64) -> DeskAnswer {
        self.stop()
    }

    fn deadline(&mut self, _alloc: Global, _id: u64, _after_ms: Option<u32>) -> DeskAnswer {
        self.stop()
    }

    fn show(&mut self, _id: u64) -> DeskAnswer {
        self.stop()
    }

    fn ids_to_show(&mut self, _alloc: Global) -> DeskAnswer {
        self.stop()
    }

    fn look(&mut self, id: u64) -> Option<Shown> {
        self.keep(true, id);
        None
    }

    fn reload(&mut self, _alloc: Global) -> DeskAnswer {
        self.stop()
    }

    fn finish(&mut self, _after_ms: u64) -> DeskAnswer {
        self.stop()
    }

    fn targets_to_show(&mut self, _alloc: Global) -> DeskAnswer {
        self.stop()
    }

    fn look_at_target(&mut self, _number: u64) -> Option<ShownTarget> {
        self.is_whole = false;
        None
    }

    fn set_target(&mut self, _order: TargetOrder) -> DeskAnswer {
        self.stop()
    }
}

// What the contract of a session says at such a desk, of a text and replies whose bytes are known.
fn served_and_told(
    alloc: Global,
    text: &mut &[u8],
    replies: &mut Vec<u8>,
    desk: &mut TellingDesk,
) -> Result<AdminEnd, AdminFault>
    requires asked { desk.old.asked.items ≡ [] }
    requires whole { desk.old.is_whole ≡ true }
    requires replies { replies.old.items ≡ [] }
    ensures { IsTrue desk.new.is_whole → IfOk result (λ end. IsTranscriptOf text.old.now
        (exchanges_of desk.new.asked.items) replies.new.items (ended end)) }
{
    serve_admin(alloc, text, replies, desk)
}

fn goes(alloc: Global) -> bool {
    let mut replies = Vec::new(alloc);
    let mut desk = TellingDesk {
        asked: Vec::new(alloc),
        is_whole: true,
        up: 0,
    };
    let text: &[u8] = b"totals\nfrob\ntotals\n";
    let end = served_and_told(alloc, &mut { text }, &mut replies, &mut desk);
    end == Ok(AdminEnd::End)
        && desk.asked.as_slice() == [(false, 7), (false, 14)].as_slice()
        && replies.as_slice()
            == b"totals up 7 down 0\nerror 400 bad command\ntotals up 14 down 0\n".as_slice()
}

#[test]
fn a_telling_desk_keeps_what_the_text_asks(rt: HostRuntime) {
    assert!(rt; goes(rt.alloc()));
}
