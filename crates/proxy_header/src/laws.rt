//! Laws of headers, in the words of the public text. The bodies are empty.

ghost use Rattle.std.specs.Prelude.{◌≡◌};
ghost use Rattle.proxy_header.specs.Laws.{BeginningsAreShort, FaultsStay, HeadersStay};
ghost use Rattle.proxy_header.specs.Laws.{OneAnswer, Version1Says, Version2Says};
ghost use Rattle.proxy_header.specs.declared.header.TheConstants.{HEAD_BYTES, MAX_BYTES};
ghost use Rattle.proxy_header.specs.declared.header.TheConstants.{MAX_LINE_BYTES};
ghost use Rattle.proxy_header.specs.declared.header.TheConstants.{MAX_VERSION2_BYTES, NAME_BYTES};

/// A stream's first bytes have one answer: this header and no other, or the beginning of one, or
/// this fault, and never two of them.
pub fn bytes_have_one_answer()
    ensures { OneAnswer }
{}

/// What is the beginning of a header has fewer bytes than the longest header, so that a reader with
/// room for that never waits without end.
pub fn a_beginning_is_short()
    ensures { BeginningsAreShort }
{}

/// What comes behind a header doesn't change what it says, nor how long it is; and no bytes mend a
/// fault.
pub fn what_follows_changes_nothing()
    ensures headers { HeadersStay }
    ensures faults { FaultsStay }
{}

/// What is written of a connection is a header of it, whatever comes behind, and decodes to it: in
/// version 1 as far as that can say it.
pub fn a_written_header_says_what_it_was_written_of()
    ensures version2 { Version2Says }
    ensures version1 { Version1Says }
{}

/// The limits in figures. The definitions follow the code's constants, so that this alone says
/// which they are.
pub fn the_limits_in_figures()
    ensures line_bytes { MAX_LINE_BYTES ≡ 107 }
    ensures head_bytes { HEAD_BYTES ≡ 16 }
    ensures bytes { MAX_BYTES ≡ 536 }
    ensures name_bytes { NAME_BYTES ≡ 108 }
    ensures version2_bytes { MAX_VERSION2_BYTES ≡ 232 }
{}
