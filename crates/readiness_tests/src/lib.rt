//! Tests of sockets, pollers, tables and event loops: both ends in one process, over loopback and
//! Unix sockets. They stand apart, since a crate with tests is proved twice.
#![tactic(auto)]

#[cfg(test)]
mod tests;
