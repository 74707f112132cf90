//! Why a stream's bytes begin with no header.

/// Why a stream's bytes begin with no header, whatever comes behind them. Of several the first in
/// this order is told.
#[derive(Clone, Copy, Debug, PartialEq, Eq, Drop)]
pub enum HeaderFault {
    /// The bytes begin as no header of either version does.
    NoHeader,
    /// Version 2: the version isn't 2, or the command is neither LOCAL nor PROXY.
    Command,
    /// Version 2: a family or a transport that the public text doesn't have. Under LOCAL none is
    /// looked at.
    Family,
    /// Version 2: the header has more than 536 bytes.
    TooLong,
    /// Version 2: the block has fewer bytes than the addresses of its family.
    TooShort,
    /// Version 1: 107 bytes, and no CR LF among them.
    NoEnd,
    /// Version 1: the line spells no header.
    BadLine,
}
