//! Tests of connections, and of handles as readers and writers: both ends in one process, over
//! loopback and Unix sockets. They stand apart, since a crate with tests is proved twice.
#![tactic(auto)]

#[cfg(test)]
mod tests;
