//! Laws of the definitions that contracts cite: each holds of everything that it speaks of.

ghost use Rattle.std.specs.Prelude.{◌≡◌};
ghost use Rattle.stream_base.specs.declared.attempt.TheConstants.{MAX_INTERRUPTIONS};
ghost use Rattle.stream_base.specs.Laws.{EachTextIsOfLines, EndedLinesAreLines, OneNumberASpelling};
ghost use Rattle.stream_base.specs.Laws.{UnendedLineIsALine};

/// A number below 2^64 has a spelling of its own.
pub fn one_number_a_spelling()
    ensures { OneNumberASpelling }
{}

/// Each text is lines and what comes after the last line feed; those are its lines, and what comes
/// after them is one more line unless it is empty.
pub fn lines_of_a_text()
    ensures ended { EndedLinesAreLines }
    ensures unended { UnendedLineIsALine }
    ensures each { EachTextIsOfLines }
{}

/// How many interruptions in a row are borne, in figures. The definitions follow the code's
/// constant, so that this alone says which it is.
pub fn the_bound_on_interruptions_in_figures()
    ensures { MAX_INTERRUPTIONS ≡ 1024 }
{}
