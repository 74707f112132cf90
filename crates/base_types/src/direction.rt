//! The two directions of a stream.

/// One of the two directions of a stream, which are locked, waited for and timed apart.
#[derive(Clone, Copy, Debug, Default, PartialEq, Eq, PartialOrd, Ord, Drop)]
pub enum Dir {
    #[default]
    Read,
    Write,
}
