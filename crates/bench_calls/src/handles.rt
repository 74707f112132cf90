//! Reads or writes by one handle of a descriptor whose halves give and take at once, so that two
//! builds of the calls that wait can be compared.

use fd_descriptor::{DevKind, FdHandle, Outcome, Resource, TryRead, TryWrite};
use std::alloc::Global;
use std::io;
use std::process::ExitCode;
use std::sync::Wait;

/// The bytes of a call.
const CHUNK: usize = 64;

/// A half that counts its tries.
#[derive(Drop)]
struct Half {
    tries: u64,
}

impl Half {
    fn new() -> Half {
        Half { tries: 0 }
    }
}

impl TryRead for Half {
    ghost tells = { λ _ _. ⊥ };

    fn try_read(&mut self, buf: &mut [u8]) -> Outcome {
        if let Some(first) = buf.first_mut() {
            *first = (self.tries & 0xff) as u8;
        }
        self.tries = self.tries.wrapping_add(1);
        Outcome::Count(buf.len())
    }
}

impl TryWrite for Half {
    ghost tells = { λ _ _. ⊥ };

    fn try_write(&mut self, bytes: &[u8]) -> Outcome {
        self.tries = self.tries.wrapping_add(1);
        Outcome::Count(bytes.len())
    }
}

/// A descriptor of two such halves.
struct Halves;

impl Resource for Halves {
    type R = Half;

    type W = Half;

    type Control = ();

    fn control_of(_read: &Half) {}

    fn destroy(read: Half, write: Half) -> Result<(), DevKind> {
        drop(read);
        drop(write);
        Ok(())
    }
}

/// Reads so many times, and sums the first bytes.
fn reads<T: Wait>(rt: &T, handle: &mut FdHandle<Halves>, rounds: u64) -> u64 {
    let mut buf = [0u8; CHUNK];
    let mut sum = 0u64;
    for _ in 0..rounds {
        if handle.read(rt, &mut buf).is_ok() {
            sum = sum.wrapping_add(u64::from(buf[0]));
        }
    }
    sum
}

/// Writes so many times, and sums the counts.
fn writes<T: Wait>(rt: &T, handle: &mut FdHandle<Halves>, rounds: u64) -> u64 {
    let bytes = [7u8; CHUNK];
    let mut sum = 0u64;
    for _ in 0..rounds {
        if let Ok(count) = handle.write(rt, &bytes) {
            sum = sum.wrapping_add(count as u64);
        }
    }
    sum
}

/// Reads or writes so many times, and prints what was passed.
fn pass<R: Wait + Print>(rt: &R, alloc: Global, load: &str, rounds: u64) -> io::Result<ExitCode> {
    let Ok(mut handle) = FdHandle::<Halves>::open(alloc, Half::new(), Half::new(), 1) else {
        return Ok(ExitCode::from(3));
    };
    let sum = match load {
        "reads" => reads(rt, &mut handle, rounds),
        "writes" => writes(rt, &mut handle, rounds),
        _ => return Ok(ExitCode::from(2)),
    };
    println!(rt; "{rounds} {load}, sum {sum}")?;
    Ok(ExitCode::SUCCESS)
}

/// Reads or writes as the words ask for, and reads a few times where there are none.
pub fn run_words<R>(rt: &R, alloc: Global, words: &[String]) -> io::Result<ExitCode>
where
    R: Wait + Print,
{
    match words {
        [] => pass(rt, alloc, "reads", 100),
        [_, load, rounds] => match rounds.as_str().parse::<u64>() {
            Ok(rounds) => pass(rt, alloc, load.as_str(), rounds),
            Err(_) => Ok(ExitCode::from(2)),
        },
        _ => Ok(ExitCode::from(2)),
    }
}
