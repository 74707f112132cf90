//! The tests of `fd_descriptor`. They stand beside it, so that it isn't proved again with them.
#![tactic(auto)]

#[cfg(test)]
mod tests;
