//! How the run of a script ends, and why it may stop before.

/// How a script ended.
#[derive(Clone, Copy, Debug, PartialEq, Eq, Drop)]
pub enum End {
    /// The script was read to its end, and no line of it is bad.
    Whole,
    /// The line of this number is the first bad one; lines are numbered from 1.
    BadLine(u64),
}

/// Why the run of a script stopped.
#[derive(Clone, Copy, Debug, PartialEq, Eq, Drop)]
pub enum TraceFault {
    /// A read failed, or was interrupted more often in a row than is borne.
    Read,
    /// A write or a flush failed or was interrupted more often in a row than is borne, or a write
    /// took nothing.
    Write,
    /// Memory was refused, to the machine or to the text that waits to be written.
    OutOfMemory,
}
