//! Tests of a net, its listeners and its connections, over loopback and Unix sockets.
#![tactic(auto)]

#[cfg(test)]
mod tests;
