//! Laws of scripts and their texts. Each function does nothing: its clause is the law.

ghost use Rattle.std.specs.Prelude.{◌≡◌, ◌<◌, ℕ, List, length, take};
ghost use Rattle.stream_base.specs.Lines.{lines_of};
ghost use Rattle.lockword_core.specs.declared.stake.Op.{Op};
ghost use Rattle.lockword_script.specs.declared.script.TheConstants.{HOLDERS, MAX_LINE_BYTES};
ghost use Rattle.lockword_script.specs.declared.script.TheConstants.{MAX_LINES};
ghost use Rattle.lockword_script.specs.Script.{Says, IsBadLine};
ghost use Rattle.lockword_script.specs.TraceOutput.{IsTextOf};
ghost use Rattle.lockword_script.specs.declared.outcome.End.{End};

/// One script has one text and one end.
pub fn one_script_has_one_text()
    ensures { (script text text' : List ℕ) (end end' : End)
        → IsTextOf script text end → IsTextOf script text' end' → (text ≡ text') × (end ≡ end') }
{}

/// Each script has a text.
pub fn each_script_has_a_text()
    ensures { (script : List ℕ) → (text : List ℕ) × (end : End) × IsTextOf script text end }
{}

/// A line says one thing.
pub fn a_line_says_one_thing()
    ensures { (line : List ℕ) (first count first' count' : ℕ) (op op' : Op)
        → Says line first count op → Says line first' count' op'
        → (first ≡ first') × (count ≡ count') × (op ≡ op') }
{}

/// A line of more than `MAX_LINE_BYTES` bytes is bad, so a run need not keep more of it.
pub fn a_long_line_is_bad()
    ensures { (line : List ℕ) → MAX_LINE_BYTES < length line → IsBadLine line }
{}

/// Only the first bad line counts: a script that begins with the same lines, up to and with that
/// one, has the same text and the same end, whatever follows.
pub fn only_the_first_bad_line_counts()
    ensures { (script other text : List ℕ) (number : ℕ) → IsTextOf script text (End.BadLine number)
        → take number (lines_of script) ≡ take number (lines_of other)
        → IsTextOf other text (End.BadLine number) }
{}

/// The limits of a script in figures: 67,108,864 holders, lines of 25 bytes, and 16,777,216 lines.
pub fn the_limits_in_figures()
    ensures holders { HOLDERS ≡ 67108864 }
    ensures line_bytes { MAX_LINE_BYTES ≡ 25 }
    ensures lines { MAX_LINES ≡ 16777216 }
{}
