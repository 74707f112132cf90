//! Tests of the crates that need neither a descriptor nor a socket. They stand beside them, so that
//! none is proved again with its tests.
#![tactic(auto)]

#[cfg(test)]
mod tests;
