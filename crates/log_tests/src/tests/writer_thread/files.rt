//! What a log is written to: files of the system's, and a standard error in memory.

use super::lines::{counted, push_all};
use log_writer::{Log, LogFile, open_log};
use relay_log::format::Format;
use std::alloc::Global;
use std::cell::{Cell, RefCell};
use std::fmt::Display;
use std::fs::Files;
use std::io::{ErrorKind, Write};
use std::prelude::HostRuntime;
use std::sync::Wait;
use std::time::Clock;
use std::{env, fs, io, process};

/// A standard error that keeps what comes, and the length of the longest text.
#[derive(Drop)]
struct Kept {
    alloc: Global,
    all: RefCell<String>,
    longest: Cell<usize>,
}

impl Kept {
    fn keep<D: Display + Drop>(&self, value: D) -> Option<()> {
        let text = value.to_string(self.alloc).ok()?;
        self.longest.set(self.longest.get().max(text.len()));
        let mut all = self.all.try_borrow_mut().ok()?;
        all.push_str(text.as_str()).ok()
    }
}

impl Eprint for Kept {
    fn eprint<D: Display + Drop>(&self, value: D) -> io::Result<()> {
        match self.keep(value) {
            Some(()) => Ok(()),
            None => Err(ErrorKind::OutOfMemory.into()),
        }
    }

    fn eprintln<D: Display + Drop>(&self, _value: D) -> io::Result<()> {
        Err(ErrorKind::Unsupported.into())
    }
}

/// Whether this came to a standard error, by short texts alone.
fn came(file: LogFile<Vec<u8>, Kept>, text: &str) -> bool {
    match file {
        LogFile::Errors(
            Kept {
                alloc: _,
                all,
                longest,
            },
        ) => { longest.get() <= 1_024 && all.into_inner().as_str() == text }
        LogFile::File(_) => false,
    }
}

/// A text with a long character behind so many bytes.
fn text_with(alloc: Global, before: usize) -> Option<String> {
    let mut text = String::new(alloc);
    for _ in 0..before {
        text.push('x').ok()?;
    }
    text.push_str("\u{20ac} and more\n").ok()?;
    Some(text)
}

fn comes_whole(alloc: Global, text: &str) -> bool {
    let kept = Kept {
        alloc,
        all: RefCell::new(String::new(alloc)),
        longest: Cell::new(0),
    };
    let mut file = LogFile::<Vec<u8>, Kept>::Errors(kept);
    let is_written = file.write_all(text.as_bytes()).is_ok();
    came(file, text) && is_written
}

// The character stands over the end of the first write, which passes at most 1,024 bytes on.
#[test]
fn standard_error_gets_a_long_text_whole(rt: HostRuntime) {
    for before in 1_020..1_025usize {
        let text = text_with(rt.alloc(), before).expect(&rt, "a text");
        assert!(rt; comes_whole(rt.alloc(), text.as_str()), "{before}");
    }
}

/// Writes three lines to the file at this path, and says whether it could be opened.
fn writes_three<R: Files + Eprint + Wait + Clock + Copy>(
    rt: &R,
    alloc: Global,
    path: &str,
) -> bool {
    let log = Log::new(alloc, Format::Text);
    push_all(rt, &log, "p0", 3);
    log.end(rt);
    match open_log(rt, path) {
        Ok(mut file) => {
            log.run(rt, &mut file);
            true
        }
        Err(_) => false,
    }
}

/// Whether the text has three lines twice.
fn is_three_twice(text: &[u8]) -> bool {
    let (first, second) = text.split_at(text.len() / 2);
    counted(first) == Some((3, 0)) && counted(second) == Some((3, 0))
}

/// Whether the file at this path has three lines twice. It is removed.
fn has_three_twice(rt: &HostRuntime, path: &str) -> bool {
    let text = fs::read(rt, path);
    let is_removed = fs::remove_file(rt, path).is_ok();
    text.is_ok_and(|text| is_three_twice(text.as_slice())) && is_removed
}

fn own_path(rt: &HostRuntime) -> Option<String> {
    let id = process::id(rt.process());
    let name = format!(in rt.alloc(); "hobrintza-{id}-log").ok()?;
    let path = env::temp_dir(rt).ok()?.join(rt.alloc(), name.as_str());
    String::from_str(rt.alloc(), path.ok()?.as_str()).ok()
}

#[test]
fn a_file_is_made_and_written_at_its_end(rt: HostRuntime) {
    let path = own_path(&rt).expect(&rt, "a path");
    holds!(rt; writes_three(&rt, rt.alloc(), path.as_str()), "it is made");
    holds!(rt; writes_three(&rt, rt.alloc(), path.as_str()), "it is there");
    holds!(rt; has_three_twice(&rt, path.as_str()));
}

#[test]
fn a_hyphen_is_standard_error_and_a_folder_is_no_log(rt: HostRuntime) {
    holds!(rt; matches!(open_log(&rt, "-"), Ok(LogFile::Errors(_))));
    for path in ["/", "/nowhere/log", ""] {
        holds!(rt; open_log(&rt, path).is_err(), path);
    }
}
