//! The run of a script from a source to a sink. What is ready is written and flushed before each
//! read, so whoever types a line has its answer before the run waits for the next one.

ghost use Rattle.std.specs.Prelude.{◌≡◌, ◌<◌, ◌≤◌, ◌++◌};
ghost use Rattle.lockword_script.specs.Words.{ℕ, List, true, IfOk, IfErr, OnOk, OnErr, IfSome};
ghost use Rattle.lockword_script.specs.Words.{length, take, Appends, IsAtEnd, WriteStopped};
ghost use Rattle.lockword_script.specs.TraceOutput.{IsTextOf};
ghost use Rattle.lockword_script.specs.TraceOutcome.{ExplainsSink, ExplainsSource, Leaves};
ghost use Rattle.lockword_script.specs.TraceOutcome.{SinkIsWell, SourceIsWell};

use crate::outcome::{End, TraceFault};
use crate::script_run::ScriptRun;
use std::alloc::Global;
use std::io::{Read, Write};
use stream_base::reader_source::ReaderSource;
use stream_base::sink::{Sink, deliver_to, flush_to};
use stream_base::source::Source;
use stream_base::writer_sink::WriterSink;

/// Runs a script: reads it to its end or to its first bad line, and writes its text. What the
/// source has left after a bad line, and in what state a fault leaves a device, is not said.
pub fn trace_on<S: Source, K: Sink>(
    alloc: Global,
    source: &mut S,
    sink: &mut K,
) -> Result<End, TraceFault>
    requires source_uninterrupted { S.interruptions source.old ≡ 0 }
    requires sink_uninterrupted { K.interruptions sink.old ≡ 0 }

    // Where the script is known, its text was written and nothing else.
    ensures text { IfOk result (λ end. IfSome (S.remaining source.old) (λ script.
        (text : List ℕ) × IsTextOf script text end
        × Appends (K.contents sink.old) (K.contents sink.new) text)) }
    ensures whole { IfOk result (λ end. end ≡ End.Whole → IsAtEnd (S.remaining source.new)) }
    ensures left { IfErr result (λ fault. Leaves fault
        (S.remaining source.old) (S.remaining source.new)
        (K.contents sink.old) (K.contents sink.new)) }

    // A fault comes only of a device that failed, was interrupted too often or took nothing, or of
    // want of memory; and but for a fault of its own the sink is flushed.
    ensures source_well { OnOk result (SourceIsWell (S.failed source.old) (S.failed source.new)
        (S.interruptions source.new)) }
    ensures sink_well { OnOk result (SinkIsWell (K.failed sink.old) (K.failed sink.new)
        (K.interruptions sink.new) (K.took_nothing sink.old) (K.took_nothing sink.new)
        (K.flushed sink.new)) }
    ensures source_cause { IfErr result (λ fault. ExplainsSource fault
        (S.failed source.old) (S.failed source.new) (S.interruptions source.new)) }
    ensures sink_cause { IfErr result (λ fault. ExplainsSink fault
        (K.failed sink.old) (K.failed sink.new) (K.interruptions sink.new)
        (K.took_nothing sink.old) (K.took_nothing sink.new) (K.flushed sink.new)) }

    // They stay the same devices.
    ensures source_same { S.stays source.old source.new }
    ensures sink_same { K.stays sink.old sink.new }
{
    let mut run = ScriptRun::new(alloc);
    let mut out = Vec::new(alloc);
    // The caller may have written something already, and the first read may wait.
    if let Err(_) = flush_to(sink) {
        return Err(TraceFault::Write);
    }
    'chunks: loop {
        let count = match run.lines.fill(source) {
            Ok(count) => count,
            Err(_) => return Err(TraceFault::Read),
        };
        out.clear();
        let advanced = run.advance(count, &mut out);
        if let Err(_) = deliver_to(sink, out.as_slice()) {
            return Err(TraceFault::Write);
        }
        let ended = match advanced {
            Ok(ended) => ended,
            Err(_) => return Err(TraceFault::OutOfMemory),
        };
        match ended {
            None => {}
            Some(end) => return Ok(end),
        }
    }
}

/// The same on a reader and a writer of std's. These tell nothing of an error, so what a fault
/// comes of is said at [`trace_on`] alone. The writer is flushed before each read and at the end.
pub fn trace<R: Read, W: Write>(
    alloc: Global,
    reader: &mut R,
    writer: &mut W,
) -> Result<End, TraceFault>
    // Where the script is known, its text was written and nothing else.
    ensures text { IfOk result (λ end. IfSome (R.remaining reader.old) (λ script.
        (text : List ℕ) × IsTextOf script text end
        × Appends (W.contents writer.old) (W.contents writer.new) text)) }
    ensures whole { IfOk result (λ end. end ≡ End.Whole → IsAtEnd (R.remaining reader.new)) }
    ensures left { IfErr result (λ fault. Leaves fault
        (R.remaining reader.old) (R.remaining reader.new)
        (W.contents writer.old) (W.contents writer.new)) }
{
    let mut source = ReaderSource::new(reader);
    let mut sink = WriterSink::new(writer);
    trace_on(alloc, &mut source, &mut sink)
}
