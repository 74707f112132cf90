//! The lines of a relay on standard output, and those of its start on standard error.

ghost use Rattle.std.specs.Prelude.{◌≡◌, OnOk, IfErr};
ghost use Rattle.std.specs.Io.KnownBytes.{Appends};
ghost use Rattle.relay_server.specs.Output.{listening_line, totals_line, unused_line};
ghost use Rattle.relay_admin.specs.declared.serve_fault.ServeFault.{ServeFault};

use arrayvec::ArrayString;
use itoa::Buffer;
use relay_admin::ServeFault;
use relay_facts::totals::Totals;
use relay_main::GivenListener;
use std::io::Write;
use stream_base::sink::deliver_to;
use stream_base::writer_sink::WriterSink;

// Writes a line whole and flushes it.
fn write_line<W: Write>(writer: &mut W, line: &ArrayString<128>) -> Result<(), ServeFault>
    ensures said { OnOk result (Appends (W.contents writer.old) (W.contents writer.new)
        line.now.bytes) }
    ensures faults { IfErr result (λ fault. fault ≡ ServeFault.Device) }
{
    let mut sink = WriterSink::new(writer);
    match deliver_to(&mut sink, line.as_bytes()) {
        Ok(()) => Ok(()),
        Err(_) => Err(ServeFault::Device),
    }
}

/// Says that the relay listens by so many rules.
pub(crate) fn write_listening<W: Write>(writer: &mut W, rules: u64) -> Result<(), ServeFault>
    ensures said { OnOk result
        (Appends (W.contents writer.old) (W.contents writer.new) (listening_line rules)) }
    ensures faults { IfErr result (λ fault. fault ≡ ServeFault.Device) }
{
    let mut line = ArrayString::new();
    let mut digits = Buffer::new();
    line.push_str("listening ");
    line.push_str(digits.format(rules));
    line.push_str("\n");
    write_line(writer, &line)
}

/// Says how many bytes were copied to the targets, and how many to the clients.
pub(crate) fn write_totals<W: Write>(writer: &mut W, totals: &Totals) -> Result<(), ServeFault>
    ensures said { OnOk result (Appends (W.contents writer.old) (W.contents writer.new)
        (totals_line totals.now.up.bytes totals.now.down.bytes)) }
    ensures faults { IfErr result (λ fault. fault ≡ ServeFault.Device) }
{
    let mut line = ArrayString::new();
    let mut digits = Buffer::new();
    line.push_str("up ");
    line.push_str(digits.format(totals.up.bytes));
    line.push_str(" down ");
    line.push_str(digits.format(totals.down.bytes));
    line.push_str("\n");
    write_line(writer, &line)
}

/// Says that nobody has this listener, which was given.
pub(crate) fn write_unused<W: Write>(
    writer: &mut W,
    given: &GivenListener,
) -> Result<(), ServeFault>
    ensures said { OnOk result
        (Appends (W.contents writer.old) (W.contents writer.new) (unused_line given.now)) }
{
    let mut line = ArrayString::new();
    let text = given.addr.text();
    line.push_str("unused socket ");
    line.push_str(text.as_str());
    line.push_str("\n");
    write_line(writer, &line)
}
