//! The tests of `lockword` and `fdmutex`. They stand beside the two crates, so that neither is
//! proved again with its tests, and share what both need.
#![tactic(auto)]

#[cfg(test)]
mod tests;
