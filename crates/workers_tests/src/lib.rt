//! Tests of `relay_workers`. They stand beside it, so that it isn't proved again with its tests.
#![tactic(auto)]

#[cfg(test)]
mod tests;
