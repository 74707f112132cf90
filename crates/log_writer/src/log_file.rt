//! What a log is written to: a file, or standard error.

ghost use Rattle.std.specs.Prelude.{◌≡◌, ◌↔◌, ◌≤◌, IsTrue, IfOk, codes, length};
ghost use Rattle.log_writer.specs.LogFile.{IsErrors};

use std::fs::Files;
use std::io::Write;
use std::{fs, io, str};

/// The path that stands for standard error.
pub const STANDARD_ERROR: &str = "-";

/// The most bytes of one write to standard error. The runtime passes so many on with one call of
/// the system, and a pipe takes them whole or not at all.
const ERROR_BYTES: usize = 1_024;

/// An open log, on an open file of the runtime's or on its standard error.
#[derive(Drop)]
pub enum LogFile<F, R> {
    File(F),
    Errors(R),
}

/// Opens a log: `-` is standard error; a file is made where there is none, with the rights that the
/// system's mask leaves, and is written at its end. A FIFO that nobody reads isn't opened before
/// somebody does.
pub fn open_log<R: Files + Eprint + Copy>(rt: &R, path: &str) -> io::Result<LogFile<R::File, R>>
    ensures { IfOk result (λ file. IsErrors file ↔ (path.now ≡ codes "-")) }
{
    if path == STANDARD_ERROR {
        return Ok(LogFile::Errors(*rt));
    }
    let file = fs::OpenOptions::new()
        .append(true)
        .create(true)
        .open(rt, path)?;
    Ok(LogFile::File(file))
}

impl<F: Write, R: Eprint> Write for LogFile<F, R> {
    fn write(&mut self, buf: &[u8]) -> io::Result<usize> {
        match self {
            LogFile::File(file) => file.write(buf),
            LogFile::Errors(rt) => write_error(rt, buf),
        }
    }

    fn flush(&mut self) -> io::Result<()> {
        match self {
            LogFile::File(file) => file.flush(),
            LogFile::Errors(_) => Ok(()),
        }
    }
}

// Writes a front of the bytes to standard error, which takes texts alone. At a failure a part of
// that front may be written.
fn write_error<R: Eprint>(rt: &R, bytes: &[u8]) -> io::Result<usize>
    ensures { IfOk result (λ count. count ≤ length bytes.now) }
{
    let text = text_at_front(&bytes[..bytes.len().min(ERROR_BYTES)]);
    rt.eprint(text)?;
    Ok(text.len())
}

// The longest front that is a text: a character may be cut at the end.
fn text_at_front(bytes: &[u8]) -> &str
    ensures { length result.now ≤ length bytes.now }
{
    match str::from_utf8(bytes) {
        Ok(text) => text,
        Err(error) => str::from_utf8(&bytes[..error.valid_up_to()]).unwrap_or(""),
    }
}
