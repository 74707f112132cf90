//! The tests of texts, of headers, of targets and of values. They stand beside their crates,
//! so that these aren't proved again with their tests.
#![tactic(auto)]

#[cfg(test)]
mod tests;
