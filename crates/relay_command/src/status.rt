//! The exit status of a run of a trace script.
//!
//! | Status | Meaning |
//! |---|---|
//! | 0 | the script was read to its end, and no line of it is bad |
//! | 1 | a line is bad |
//! | 3 | a device failed, or memory was refused |

ghost use Rattle.std.specs.Prelude.{◌≡◌, ◌⊎◌, ℕ, List, IfSome};
ghost use Rattle.std.specs.Io.KnownBytes.{Appends};
ghost use Rattle.lockword_script.specs.TraceOutput.{IsTextOf};
ghost use Rattle.lockword_script.specs.TraceOutcome.{Leaves};
ghost use Rattle.lockword_script.specs.declared.outcome.End.TheVariants.{Whole, BadLine};
ghost use Rattle.lockword_script.specs.declared.outcome.TraceFault.{TraceFault};

use crate::fault::Fault;
use lockword_script::{End, trace};
use std::alloc::Global;
use std::io::{Read, Write};

/// Runs a script, and says a fault on `errors`. A fault that cannot be said there is told by the
/// status alone.
pub fn trace_status<R: Read, W: Write, E: Write>(
    alloc: Global,
    reader: &mut R,
    writer: &mut W,
    errors: &mut E,
) -> u8
    ensures known { (result ≡ 0) ⊎ ((result ≡ 1) ⊎ (result ≡ 3)) }
    // The whole text of the script was written, and nothing else.
    ensures whole { result ≡ 0 → IfSome (R.remaining reader.old) (λ script. (text : List ℕ)
        × IsTextOf script text Whole
        × Appends (W.contents writer.old) (W.contents writer.new) text) }
    // The text up to the first bad line was written, with the line that says so, and nothing else.
    ensures bad_line { result ≡ 1
        → IfSome (R.remaining reader.old) (λ script. (text : List ℕ) × (n : ℕ)
        × IsTextOf script text (BadLine n)
        × Appends (W.contents writer.old) (W.contents writer.new) text) }
    ensures fault { result ≡ 3 → (fault : TraceFault) × Leaves fault
        (R.remaining reader.old) (R.remaining reader.new)
        (W.contents writer.old) (W.contents writer.new) }
    ensures said_at_3_alone { (result ≡ 3) ⊎ (E.contents errors.new ≡ E.contents errors.old) }
{
    match trace(alloc, reader, writer) {
        Ok(End::Whole) => 0,
        Ok(End::BadLine(_)) => 1,
        Err(fault) => {
            let fault = Fault::of_trace(fault);
            let _ = writeln!(errors, "{fault}");
            fault.status()
        }
    }
}
