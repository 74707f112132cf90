//! The line of a log that tells of one connection, and how it is written as text.

ghost use Rattle.std.specs.Prelude.{◌≡◌, ◌++◌, ◌∷◌, [], IfOk, OnOk, OnErr};
ghost use Rattle.std.specs.Fmt.{decimal};
ghost use Rattle.relay_log.specs.Line.{counts_text, field, id_text, line_text, parties_text};

use crate::ended::Ended;
use crate::moment::Moment;
use crate::words::NO_ID;
use base_types::OutOfMemory;
use itoa::Buffer;
use std::alloc::Allocator;

/// What a log says of a connection that ended or was refused. The texts are the caller's; in none
/// of them stands a space or a line feed, so that a line of text reads back as its fields.
#[derive(Clone, Copy)]
pub struct LogLine<'a> {
    pub moment: Moment,
    pub rule: &'a str,
    /// The id of the client's side; a connection that was refused has none.
    pub client_id: Option<u64>,
    /// The id of the target's side.
    pub target_id: Option<u64>,
    pub client: &'a str,
    pub target: &'a str,
    /// The bytes that were written to the target.
    pub up: u64,
    /// The bytes that were written to the client.
    pub down: u64,
    /// How long it stood.
    pub milliseconds: u64,
    pub ended: Ended,
}

impl<'a> LogLine<'a> {
    /// Puts the line as text behind what the vector holds, with its line feed; or nothing, where memory
    /// is refused. The memory of one line more is taken and given back.
    pub fn write<A: Allocator + Copy>(
        &self,
        alloc: A,
        into: &mut Vec<u8, A>,
    ) -> Result<(), OutOfMemory>
        ensures written { OnOk result (into.new.items ≡ into.old.items ++ line_text self.now) }
        ensures kept { OnErr result (into.new.items ≡ into.old.items) }
    {
        let text = self.text(alloc)?;
        into.extend_from_slice(text.as_slice())
    }

    fn text<A: Allocator + Copy>(&self, alloc: A) -> Result<Vec<u8, A>, OutOfMemory>
        ensures { IfOk result (λ text. text.items ≡ line_text self.now) }
    {
        let mut text = Vec::new(alloc);
        self.write_parties(&mut text)?;
        self.write_counts(&mut text)?;
        self.ended.write(&mut text)?;
        text.extend_from_slice(b"\n")?;
        Ok(text)
    }

    #[tactic(auto, unfolding(crate::specs::Line::parties_text))]
    fn write_parties<A: Allocator>(&self, into: &mut Vec<u8, A>) -> Result<(), OutOfMemory>
        ensures { OnOk result (into.new.items ≡ into.old.items ++ parties_text self.now) }
    {
        self.moment.write(into)?;
        into.extend_from_slice(b" ")?;
        write_field(into, self.rule)?;
        write_id(into, self.client_id)?;
        write_id(into, self.target_id)?;
        write_field(into, self.client)?;
        write_field(into, self.target)
    }

    #[tactic(auto, unfolding(crate::specs::Line::counts_text))]
    fn write_counts<A: Allocator>(&self, into: &mut Vec<u8, A>) -> Result<(), OutOfMemory>
        ensures { OnOk result (into.new.items ≡ into.old.items ++ counts_text self.now) }
    {
        write_number(into, self.up)?;
        write_number(into, self.down)?;
        write_number(into, self.milliseconds)
    }
}

// The three write a field and the space behind it.
fn write_field<A: Allocator>(into: &mut Vec<u8, A>, text: &str) -> Result<(), OutOfMemory>
    ensures { OnOk result (into.new.items ≡ into.old.items ++ field text.now) }
{
    into.extend_from_slice(text.as_bytes())?;
    into.extend_from_slice(b" ")
}

fn write_number<A: Allocator>(into: &mut Vec<u8, A>, n: u64) -> Result<(), OutOfMemory>
    ensures { OnOk result (into.new.items ≡ into.old.items ++ field (decimal n)) }
{
    let mut buffer = Buffer::new();
    write_field(into, buffer.format(n))
}

fn write_id<A: Allocator>(into: &mut Vec<u8, A>, id: Option<u64>) -> Result<(), OutOfMemory>
    ensures { OnOk result (into.new.items ≡ into.old.items ++ field (id_text id)) }
{
    match id {
        Some(id) => write_number(into, id),
        None => {
            into.extend_from_slice(NO_ID)?;
            into.extend_from_slice(b" ")
        }
    }
}
