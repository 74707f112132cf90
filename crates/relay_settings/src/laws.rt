//! A law of what a configuration means. The body is empty.

ghost use Rattle.relay_settings.specs.Laws.{AreToldAsSpelled};

/// An address is told as a configuration spells it, so that what an operator reads is what an
/// operator may write.
pub fn an_address_is_told_as_it_is_spelled()
    ensures { AreToldAsSpelled }
{}
