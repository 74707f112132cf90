//! What is shown of a connection or a listener, and the line that says it.

ghost use Rattle.std.specs.Prelude.{◌≡◌, ◌++◌, IfOk, OnOk};
ghost use Rattle.std.specs.Fmt.{decimal};
ghost use Rattle.relay_admin.specs.admin.Shown.{figures_text, particulars_of, peer_of, peer_text};
ghost use Rattle.relay_admin.specs.admin.Shown.{shown_text, side_word, who_text};

use crate::rules::addr::{Addr, MAX_ADDR_BYTES, is_path_text, unix_text};
use crate::rules::rule::MAX_NAME_BYTES;
use arrayvec::ArrayString;
use base_types::OutOfMemory;
use itoa::Buffer;
use std::alloc::Allocator;

/// What an id stands for.
#[derive(Clone, Copy, Debug, PartialEq, Eq, Drop)]
pub enum ShownSide {
    /// The side of a connection that its client has.
    Client,
    /// The side of a connection that its target has.
    Target,
    /// A listener.
    Listener,
}

/// What is known of a side of a connection, or of a listener, at one moment.
#[derive(Clone, Copy, Debug, PartialEq, Eq, Drop)]
pub struct Shown {
    pub id: u64,
    /// The name of its rule.
    pub rule: ArrayString<MAX_NAME_BYTES>,
    pub side: ShownSide,
    /// Who is at the other end, and for a listener where it listens. A Unix socket may have no
    /// name: then there is none. A path that no rules file could have is told as none.
    pub peer: Option<Addr>,
    /// The bytes that were copied from the client to the target so far.
    pub up: u64,
    /// The bytes that were copied from the target to the client so far.
    pub down: u64,
    /// For how many milliseconds it has stood.
    pub age_ms: u64,
    /// How many milliseconds ago its last byte came or went.
    pub quiet_ms: u64,
}

impl ShownSide {
    fn word(self) -> &'static str
        ensures { result.now ≡ side_word self }
    {
        match self {
            ShownSide::Client => "client",
            ShownSide::Target => "target",
            ShownSide::Listener => "listener",
        }
    }
}

impl Shown {
    /// The line that says it, with its line feed.
    pub(crate) fn line<A: Allocator + Copy>(&self, alloc: A) -> Result<Vec<u8, A>, OutOfMemory>
        ensures { IfOk result (λ line. line.items ≡ shown_text (particulars_of self.now)) }
    {
        let mut line = Vec::new(alloc);
        self.write_who(&mut line)?;
        self.write_figures(&mut line)?;
        line.extend_from_slice(b"\n")?;
        Ok(line)
    }

    #[tactic(auto, unfolding(crate::specs::admin::Shown::who_text))]
    fn write_who<A: Allocator>(&self, into: &mut Vec<u8, A>) -> Result<(), OutOfMemory>
        ensures { OnOk result
            (into.new.items ≡ into.old.items ++ who_text (particulars_of self.now)) }
    {
        let peer = peer_name(&self.peer);
        write_figure(into, "show ", self.id)?;
        write_word(into, " rule ", self.rule.as_str())?;
        write_word(into, " side ", self.side.word())?;
        write_word(into, " peer ", peer.as_str())
    }

    #[tactic(auto, unfolding(crate::specs::admin::Shown::figures_text))]
    fn write_figures<A: Allocator>(&self, into: &mut Vec<u8, A>) -> Result<(), OutOfMemory>
        ensures { OnOk result
            (into.new.items ≡ into.old.items ++ figures_text (particulars_of self.now)) }
    {
        write_figure(into, " up ", self.up)?;
        write_figure(into, " down ", self.down)?;
        write_figure(into, " age ", self.age_ms)?;
        write_figure(into, " quiet ", self.quiet_ms)
    }
}

/// Both write what a part of the line is called, and the part.
pub(crate) fn write_word<A: Allocator>(
    into: &mut Vec<u8, A>,
    called: &str,
    word: &str,
) -> Result<(), OutOfMemory>
    ensures { OnOk result (into.new.items ≡ into.old.items ++ (called.now ++ word.now)) }
{
    into.extend_from_slice(called.as_bytes())?;
    into.extend_from_slice(word.as_bytes())
}

pub(crate) fn write_figure<A: Allocator>(
    into: &mut Vec<u8, A>,
    called: &str,
    figure: u64,
) -> Result<(), OutOfMemory>
    ensures { OnOk result (into.new.items ≡ into.old.items ++ (called.now ++ decimal figure)) }
{
    let mut digits = Buffer::new();
    write_word(into, called, digits.format(figure))
}

/// The text of a peer, as a configuration spells an address; `unix:` of an unnamed one, as nginx has
/// it. What its path may be is up to the peer, so that one which no rules file could have isn't
/// told: with a line feed in it, it would look like the next reply, or the next line of a log.
pub fn peer_name(peer: &Option<Addr>) -> ArrayString<MAX_ADDR_BYTES>
    ensures { result.bytes ≡ peer_text (peer_of peer.now) }
{
    match peer {
        Some(Addr::Unix(path)) if !is_path_text(path.as_bytes()) => unix_text(""),
        Some(addr) => addr.text(),
        None => unix_text(""),
    }
}
