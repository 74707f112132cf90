//! The tests of `relay_metrics` and of `metrics_server`. They stand beside them, so that neither is
//! proved again with its tests.
#![tactic(auto)]

#[cfg(test)]
mod tests;
