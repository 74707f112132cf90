//! Handles as readers and writers of the standard library, over sockets. What they answer clauses say
//! by what a handle's call was answered; here are the bytes, and what the system tells of a reset.

use super::conn::world::{HeldEnd, addrs, open};
use super::holds;
use super::watch::Watch;
use handle_io::{HandleReader, HandleWriter};
use readiness::{Addr, SockRes};
use std::alloc::Global;
use std::fs::Files;
use std::io;
use std::io::{BufRead, BufReader, BufWriter, ErrorKind, Read, Write};
use std::net::Net;
use std::process::Abort;
use std::sync::Wait;
use std::thread::Threads;
use std::time::Clock;

fn reader_of<R: Abort + Copy + Drop>(rt: R, end: &mut HeldEnd) -> HandleReader<SockRes, R> {
    HandleReader::new(rt, end.share(&rt).handle)
}

fn writer_of<R: Abort + Copy + Drop>(rt: R, end: &mut HeldEnd) -> HandleWriter<SockRes, R> {
    HandleWriter::new(rt, end.share(&rt).handle)
}

/// The far end writes these through a buffer, and shuts.
fn sends<R>(rt: R, alloc: Global, end: &mut HeldEnd, text: &str) -> bool
where
    R: Wait + Abort + Copy + Drop,
{
    let mut writer = BufWriter::new(alloc, writer_of(rt, end)).expect(&rt, "a buffer");
    let is_sent = writer.write_all(text.as_bytes()).is_ok() && writer.flush().is_ok();
    is_sent && end.handle.close_write(&rt).is_ok()
}

/// Whether lines of these lengths come through a buffer, which make this text.
fn reads<R>(rt: R, alloc: Global, end: &mut HeldEnd, text: &str, lens: &[usize]) -> bool
where
    R: Wait + Abort + Copy + Drop,
{
    let mut lines = BufReader::new(alloc, reader_of(rt, end)).expect(&rt, "a buffer");
    let mut came = String::new(alloc);
    for len in lens {
        if lines.read_line(&mut came).ok() != Some(*len) {
            return false;
        }
    }
    came.as_str() == text
}

fn kind_of(answer: io::Result<usize>) -> Option<ErrorKind> {
    match answer {
        Ok(_) => None,
        Err(error) => Some(error.kind()),
    }
}

/// A connection is reset, since one end closes with bytes unread. The other is told so by its next
/// read, and by its next write that the pipe is broken.
fn is_told_of_a_reset<R>(rt: R, near: &mut HeldEnd, far: &mut HeldEnd) -> bool
where
    R: Wait + Abort + Copy + Drop,
{
    let (mut reader, mut writer) = (reader_of(rt, near), writer_of(rt, near));
    writer.write(b"unread").ok() == Some(6)
        && reader_of(rt, far).read(&mut [0; 1]).ok() == Some(1)
        && far.handle.close(&rt).is_ok()
        && kind_of(reader.read(&mut [0; 8])) == Some(ErrorKind::ConnectionReset)
        && kind_of(writer.write(b"more")) == Some(ErrorKind::BrokenPipe)
}

const TEXT: &str = "first line\nsecond\nno end";

fn play<R>(rt: R, alloc: Global, addr: &Addr)
where
    R: Wait + Threads + Net + Files + Clock + Abort + Copy + Drop + Send + Sync + 'static,
{
    let watch = Watch::over(rt, alloc, "readers and writers");
    let mut world = open(rt, alloc, addr);
    holds(
        &rt,
        sends(rt, alloc, &mut world.far, TEXT),
        "lines are sent",
    );
    let is_read = reads(rt, alloc, &mut world.near, TEXT, &[11, 7, 6, 0]);
    holds(&rt, is_read, "lines come, and the end");
    world.stop(&rt);
    let mut world = open(rt, alloc, addr);
    let is_told = is_told_of_a_reset(rt, &mut world.near, &mut world.far);
    holds(&rt, is_told, "a reset is told, and then a broken pipe");
    world.stop(&rt);
    watch.end(&rt);
}

#[test]
fn readers_and_writers_pass_bytes_and_tell_a_reset(rt: HostRuntime) {
    for addr in addrs(&rt).expect(&rt, "a path") {
        play(rt, rt.alloc(), &addr);
    }
}
