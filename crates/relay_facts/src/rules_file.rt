//! Reading a rules file, or a configuration.

ghost use Rattle.std.specs.Prelude.{◌≡◌, ◌<◌, ◌≤◌, ◌+◌, length, IfOk, IfErr};
ghost use Rattle.std.specs.Io.KnownBytes.{Consumes, IsAtEnd};
ghost use Rattle.relay_admin.specs.declared.rules.file.TheConstants.{MAX_BYTES};
ghost use Rattle.relay_settings.specs.declared.said.TheConstants.{MAX_CONFIG_BYTES};
ghost use Rattle.relay_admin.specs.ServeFault.{IsConfigReadFault, IsFileFault, IsReadFault};
ghost use Rattle.relay_admin.specs.rules.Fault.{SaysRules};
ghost use Rattle.relay_facts.specs.RulesFile.{IsVerdictOn};

use relay_admin::{MAX_BYTES, Rules, ServeFault, Verdict};
use relay_settings::MAX_CONFIG_BYTES;
use std::alloc::Global;
use std::fs;
use std::fs::Files;
use stream_base::reader_source::ReaderSource;
use stream_base::source::{Source, read_from};

/// The most bytes of one read.
const READ_BYTES: usize = 4_096;

// Why bytes aren't read.
#[derive(Clone, Copy, Debug, PartialEq, Eq, Drop)]
enum ReadFault {
    // The file fails.
    File,
    Memory,
}

// The bytes of a source up to its end, or so many of them, where it has as many.
fn text_on<S: Source>(alloc: Global, source: &mut S, most: usize) -> Result<Vec<u8>, ReadFault>
    requires uninterrupted { S.interruptions source.old ≡ 0 }
    ensures most { IfOk result (λ text. length text.items ≤ most) }
    ensures bytes { IfOk result (λ text.
        Consumes (S.remaining source.old) (S.remaining source.new) text.items) }
    ensures whole { IfOk result (λ text.
        length text.items < most → IsAtEnd (S.remaining source.new)) }
{
    let mut text = Vec::new(alloc);
    let mut buf = [0u8; READ_BYTES];
    while text.len() < most {
        let size = (most - text.len()).min(READ_BYTES);
        let Ok(count) = read_from(source, &mut buf[..size]) else {
            return Err(ReadFault::File);
        };
        if count == 0 {
            return Ok(text);
        }
        if text.extend_from_slice(&buf[..count]).is_err() {
            return Err(ReadFault::Memory);
        }
    }
    Ok(text)
}

/// The bytes of a file, or one byte more than a rules file may have, where it has more, which are
/// enough to see that it is too long. The faults are `RulesFile`, where it can't be opened or read,
/// and `Memory`.
pub fn text_of<R: Files>(rt: &R, alloc: Global, path: &str) -> Result<Vec<u8>, ServeFault>
    ensures most { IfOk result (λ text. length text.items ≤ MAX_BYTES + 1) }
    ensures faults { IfErr result (λ fault. IsReadFault fault) }
{
    match text_in(rt, alloc, path, MAX_BYTES + 1) {
        Ok(text) => Ok(text),
        Err(ReadFault::File) => Err(ServeFault::RulesFile),
        Err(ReadFault::Memory) => Err(ServeFault::Memory),
    }
}

/// The same of a configuration. The faults are `ConfigFile` and `Memory`.
pub fn config_text_of<R: Files>(rt: &R, alloc: Global, path: &str) -> Result<Vec<u8>, ServeFault>
    ensures most { IfOk result (λ text. length text.items ≤ MAX_CONFIG_BYTES + 1) }
    ensures faults { IfErr result (λ fault. IsConfigReadFault fault) }
{
    match text_in(rt, alloc, path, MAX_CONFIG_BYTES + 1) {
        Ok(text) => Ok(text),
        Err(ReadFault::File) => Err(ServeFault::ConfigFile),
        Err(ReadFault::Memory) => Err(ServeFault::Memory),
    }
}

// The bytes of a file, at most so many.
fn text_in<R: Files>(rt: &R, alloc: Global, path: &str, most: usize) -> Result<Vec<u8>, ReadFault>
    ensures most { IfOk result (λ text. length text.items ≤ most) }
{
    let Ok(mut file) = fs::open(rt, path) else {
        return Err(ReadFault::File);
    };
    text_on(alloc, &mut ReaderSource::new(&mut file), most)
}

/// The rules that a text says; or that it says none, by the fault of a start.
#[tactic(auto, using(crate::proofs::FileFaults::of_bad))]
pub(crate) fn rules_of(text: &[u8]) -> Result<Rules, ServeFault>
    ensures rules { IfOk result (λ rules. SaysRules text.now rules) }
    ensures bad { IfErr result (IsVerdictOn text.now) }
    ensures faults { IfErr result (λ fault. IsFileFault fault) }
{
    match Rules::parse(text) {
        Ok(rules) => Ok(rules),
        Err(fault) => Err(ServeFault::BadRules(Verdict::Bad(fault))),
    }
}
