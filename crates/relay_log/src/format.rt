//! The two ways to write a log: each line as fields with a space between two of them, or as a JSON
//! object. What is said of lost lines is written in the same way.

ghost use Rattle.std.specs.Prelude.{◌≡◌, ◌≤◌, ◌++◌, OnOk, OnErr, length};
ghost use Rattle.relay_log.specs.Format.{before_lost, behind_lost, line_in_format};

use crate::line::LogLine;
use crate::words::LOST;
use base_types::OutOfMemory;
use std::alloc::Allocator;

/// How the lines of a log are written.
#[derive(Clone, Copy, Debug, PartialEq, Eq, Drop)]
pub enum Format {
    /// As fields with a space between two of them.
    Text,
    /// As JSON objects.
    Json,
}

impl Format {
    /// Puts a line behind what the vector holds, with its line feed; or nothing, where memory is
    /// refused. The memory of one line more is taken and given back.
    pub fn write<A: Allocator + Copy>(
        self,
        line: &LogLine<'_>,
        alloc: A,
        into: &mut Vec<u8, A>,
    ) -> Result<(), OutOfMemory>
        ensures written { OnOk result
            (into.new.items ≡ into.old.items ++ line_in_format self line.now) }
        ensures kept { OnErr result (into.new.items ≡ into.old.items) }
    {
        match self {
            Format::Text => line.write(alloc, into),
            Format::Json => line.write_json(alloc, into),
        }
    }

    /// What stands before the number of lost lines.
    pub(crate) fn before_lost(self) -> &'static [u8]
        ensures value { result.now ≡ before_lost self }
        ensures most { length result.now ≤ 8 }
    {
        match self {
            Format::Text => LOST,
            Format::Json => b"{\"lost\":",
        }
    }

    /// What stands behind that number, with the line feed.
    pub(crate) fn behind_lost(self) -> &'static [u8]
        ensures value { result.now ≡ behind_lost self }
        ensures most { length result.now ≤ 2 }
    {
        match self {
            Format::Text => b"\n",
            Format::Json => b"}\n",
        }
    }
}
