//! What is said of a configuration: the line that `check` prints, and its exit status.

ghost use Rattle.std.specs.Prelude.{◌≡◌, ◌≢◌, ◌⊎◌, ◌-◌, ◌^◌, IfOk, length, min};
ghost use Rattle.std.specs.Io.KnownBytes.{Appends};
ghost use Rattle.relay_admin.specs.declared.rules.verdict.Verdict.{Verdict};
ghost use Rattle.relay_admin.specs.rules.Verdict.{verdict_line, verdict_status};
ghost use Rattle.relay_config.specs.Fronts.{IsLongestFront};
ghost use Rattle.relay_config.specs.declared.fault.Fault.{Fault};
ghost use Rattle.relay_settings.specs.Verdict.{IsConfigVerdict, IsOfConfig};

use crate::said::read_config;
use crate::targets::SaidRule;
use arrayvec::ArrayString;
use base_types::OutOfMemory;
use relay_admin::{MAX_WHY_BYTES, Verdict};
use relay_config::{Fault, fault_line};
use std::alloc::Global;
use std::io::Write;

/// What the line of a fault begins with, and a verdict by itself.
const BAD_CONFIG: &str = "bad config: ";

/// How many rules there are, as a verdict has it.
pub fn rule_count(rules: &[SaidRule]) -> u32
    ensures { result ≡ min (length rules.now) (2 ^ 32 - 1) }
{
    rules.len().min(0xffff_ffff) as u32
}

// A text in a value of its own: as many whole characters of its front as fit.
fn held(text: &str) -> ArrayString<MAX_WHY_BYTES>
    ensures { IsLongestFront MAX_WHY_BYTES text.now result.bytes }
{
    let front = &text[..text.floor_char_boundary(MAX_WHY_BYTES)];
    match ArrayString::from(front) {
        Ok(held) => held,
        Err(_) => ArrayString::new(),
    }
}

/// The verdict that says a fault of this text. Memory that is refused for its words is told as that.
pub fn bad_config(alloc: Global, text: &[u8], fault: Fault) -> Result<Verdict, OutOfMemory>
    ensures { IfOk result IsOfConfig }
{
    if fault == Fault::Memory {
        return Err(OutOfMemory);
    }
    let Ok(line) = fault_line(alloc, text, fault) else {
        return Err(OutOfMemory);
    };
    let line = line.as_str();
    let why = line.strip_prefix(BAD_CONFIG).unwrap_or(line);
    Ok(Verdict::BadConfig(held(why)))
}

/// The verdict on a configuration.
fn verdict_on(alloc: Global, text: &[u8]) -> Result<Verdict, OutOfMemory>
    ensures { IfOk result (IsConfigVerdict text.now) }
{
    match read_config(alloc, text) {
        Ok(said) => Ok(Verdict::Rules(rule_count(said.rules.as_slice()))),
        Err(Fault::Memory) => Err(OutOfMemory),
        Err(fault) => bad_config(alloc, text, fault),
    }
}

/// Prints the verdict on a configuration, and gives the exit status: 0 with how many rules it has, 1
/// with its first fault, 3 where the line couldn't be written.
pub fn check_config<W: Write>(alloc: Global, text: &[u8], writer: &mut W) -> Result<u8, OutOfMemory>
    ensures known { IfOk result (λ status. (status ≡ 0) ⊎ ((status ≡ 1) ⊎ (status ≡ 3))) }
    // The line of the text's verdict was written, and nothing else.
    ensures said { IfOk result (λ status. status ≢ 3
        → (verdict : Verdict) × IsConfigVerdict text.now verdict
        × (status ≡ verdict_status verdict)
        × Appends (W.contents writer.old) (W.contents writer.new) (verdict_line verdict)) }
{
    let verdict = verdict_on(alloc, text)?;
    Ok(verdict.print(writer))
}
