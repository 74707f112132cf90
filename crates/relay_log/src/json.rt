//! The line of a log as a JSON object: the same fields in the same order, each with its name.
//!
//! In a string of RFC 8259 any character stands for itself but a quotation mark, a backslash and the
//! control characters below U+0020. These have escapes here, and all other bytes stay, so that a
//! reader gets each text back. The texts that a relay gives are visible ASCII: a rule's name, which
//! needs no escape, and addresses, in whose paths quotation marks and backslashes may stand.

ghost use Rattle.std.specs.Prelude.{◌≡◌, ◌<◌, ◌++◌, IfOk, OnOk, OnErr};
ghost use Rattle.std.specs.Fmt.{decimal};
ghost use Rattle.std.specs.Char.{digit_char};
ghost use Rattle.relay_log.specs.Json.{control_text, count_members, how_member, id_value};
ghost use Rattle.relay_log.specs.Json.{json_text, member, member_name, party_members, rule_members};
ghost use Rattle.relay_log.specs.Json.{string_byte, string_content, string_text, time_member};

use crate::line::LogLine;
use base_types::OutOfMemory;
use itoa::Buffer;
use std::alloc::Allocator;

impl<'a> LogLine<'a> {
    /// Puts the line as a JSON object behind what the vector holds, with its line feed; or nothing,
    /// where memory is refused. The memory of one line more is taken and given back. Any text may
    /// stand in it.
    pub fn write_json<A: Allocator + Copy>(
        &self,
        alloc: A,
        into: &mut Vec<u8, A>,
    ) -> Result<(), OutOfMemory>
        ensures written { OnOk result (into.new.items ≡ into.old.items ++ json_text self.now) }
        ensures kept { OnErr result (into.new.items ≡ into.old.items) }
    {
        let text = self.json(alloc)?;
        into.extend_from_slice(text.as_slice())
    }

    fn json<A: Allocator + Copy>(&self, alloc: A) -> Result<Vec<u8, A>, OutOfMemory>
        ensures { IfOk result (λ text. text.items ≡ json_text self.now) }
    {
        let mut text = Vec::new(alloc);
        text.extend_from_slice(b"{")?;
        self.write_party_members(&mut text)?;
        self.write_count_members(&mut text)?;
        self.write_how_member(&mut text)?;
        text.extend_from_slice(b"}\n")?;
        Ok(text)
    }

    #[tactic(auto, unfolding(crate::specs::Json::party_members))]
    fn write_party_members<A: Allocator>(&self, into: &mut Vec<u8, A>) -> Result<(), OutOfMemory>
        ensures { OnOk result (into.new.items ≡ into.old.items ++ party_members self.now) }
    {
        self.write_time_member(into)?;
        self.write_rule_members(into)?;
        write_string_member(into, b"client", self.client)?;
        write_string_member(into, b"target", self.target)
    }

    #[tactic(auto, unfolding(crate::specs::Json::rule_members))]
    fn write_rule_members<A: Allocator>(&self, into: &mut Vec<u8, A>) -> Result<(), OutOfMemory>
        ensures { OnOk result (into.new.items ≡ into.old.items ++ rule_members self.now) }
    {
        write_string_member(into, b"rule", self.rule)?;
        write_id_member(into, b"client_id", self.client_id)?;
        write_id_member(into, b"target_id", self.target_id)
    }

    #[tactic(auto, unfolding(crate::specs::Json::count_members))]
    fn write_count_members<A: Allocator>(&self, into: &mut Vec<u8, A>) -> Result<(), OutOfMemory>
        ensures { OnOk result (into.new.items ≡ into.old.items ++ count_members self.now) }
    {
        write_number_member(into, b"up", self.up)?;
        write_number_member(into, b"down", self.down)?;
        write_number_member(into, b"ms", self.milliseconds)
    }

    // In a moment nothing needs an escape.
    #[tactic(auto, unfolding(crate::specs::Json::time_member))]
    fn write_time_member<A: Allocator>(&self, into: &mut Vec<u8, A>) -> Result<(), OutOfMemory>
        ensures { OnOk result (into.new.items ≡ into.old.items ++ time_member self.now) }
    {
        write_name(into, b"time")?;
        into.extend_from_slice(b"\"")?;
        self.moment.write(into)?;
        into.extend_from_slice(b"\",")
    }

    // Nor in the words of an end. No member follows, and no comma.
    #[tactic(auto, unfolding(crate::specs::Json::how_member))]
    fn write_how_member<A: Allocator>(&self, into: &mut Vec<u8, A>) -> Result<(), OutOfMemory>
        ensures { OnOk result (into.new.items ≡ into.old.items ++ how_member self.now) }
    {
        write_name(into, b"how")?;
        into.extend_from_slice(b"\"")?;
        self.ended.write(into)?;
        into.extend_from_slice(b"\"")
    }
}

// A name, as it stands before its value.
fn write_name<A: Allocator>(into: &mut Vec<u8, A>, name: &[u8]) -> Result<(), OutOfMemory>
    ensures { OnOk result (into.new.items ≡ into.old.items ++ member_name name.now) }
{
    into.extend_from_slice(b"\"")?;
    into.extend_from_slice(name)?;
    into.extend_from_slice(b"\":")
}

// These four write a member and the comma behind it.
fn write_member<A: Allocator>(
    into: &mut Vec<u8, A>,
    name: &[u8],
    value: &[u8],
) -> Result<(), OutOfMemory>
    ensures { OnOk result (into.new.items ≡ into.old.items ++ member name.now value.now) }
{
    write_name(into, name)?;
    into.extend_from_slice(value)?;
    into.extend_from_slice(b",")
}

fn write_number_member<A: Allocator>(
    into: &mut Vec<u8, A>,
    name: &[u8],
    n: u64,
) -> Result<(), OutOfMemory>
    ensures { OnOk result (into.new.items ≡ into.old.items ++ member name.now (decimal n)) }
{
    let mut buffer = Buffer::new();
    write_member(into, name, buffer.format(n).as_bytes())
}

fn write_id_member<A: Allocator>(
    into: &mut Vec<u8, A>,
    name: &[u8],
    id: Option<u64>,
) -> Result<(), OutOfMemory>
    ensures { OnOk result (into.new.items ≡ into.old.items ++ member name.now (id_value id)) }
{
    match id {
        Some(id) => write_number_member(into, name, id),
        None => write_member(into, name, b"null"),
    }
}

fn write_string_member<A: Allocator>(
    into: &mut Vec<u8, A>,
    name: &[u8],
    text: &str,
) -> Result<(), OutOfMemory>
    ensures { OnOk result
        (into.new.items ≡ into.old.items ++ member name.now (string_text text.now)) }
{
    write_name(into, name)?;
    write_string(into, text)?;
    into.extend_from_slice(b",")
}

fn write_string<A: Allocator>(into: &mut Vec<u8, A>, text: &str) -> Result<(), OutOfMemory>
    ensures { OnOk result (into.new.items ≡ into.old.items ++ string_text text.now) }
{
    into.extend_from_slice(b"\"")?;
    write_escaped(into, text.as_bytes())?;
    into.extend_from_slice(b"\"")
}

fn write_escaped<A: Allocator>(into: &mut Vec<u8, A>, text: &[u8]) -> Result<(), OutOfMemory>
    ensures { OnOk result (into.new.items ≡ into.old.items ++ string_content text.now) }
{
    for byte in text {
        write_escaped_byte(into, *byte)?;
    }
    Ok(())
}

fn write_escaped_byte<A: Allocator>(into: &mut Vec<u8, A>, byte: u8) -> Result<(), OutOfMemory>
    ensures { OnOk result (into.new.items ≡ into.old.items ++ string_byte byte) }
{
    if byte < b' ' {
        return write_control(into, byte);
    }
    if byte == b'"' || byte == b'\\' {
        into.push(b'\\')?;
    }
    into.push(byte)?;
    Ok(())
}

// A control character, by its number.
fn write_control<A: Allocator>(into: &mut Vec<u8, A>, byte: u8) -> Result<(), OutOfMemory>
    ensures { OnOk result (into.new.items ≡ into.old.items ++ control_text byte) }
{
    into.extend_from_slice(&[
        b'\\',
        b'u',
        b'0',
        b'0',
        hex_digit(byte / 16),
        hex_digit(byte % 16),
    ])
}

fn hex_digit(digit: u8) -> u8
    requires { digit < 16 }
    ensures { result ≡ digit_char digit }
{
    if digit < 10 {
        b'0' + digit
    } else {
        b'a' + (digit - 10)
    }
}
