//! What a start asks for.

use crate::settings::Settings;

/// Where a relay's rules stand: the path of a file, which a reload reads again.
#[derive(Debug, PartialEq, Eq, Drop)]
pub enum Source {
    /// A rules file.
    Rules(String),
    /// A configuration.
    Config(String),
}

/// What a start asks for.
#[derive(Debug, PartialEq, Eq, Drop)]
pub struct Asked {
    pub source: Source,
    /// What the words of the command line say beside it.
    pub words: Settings,
}
