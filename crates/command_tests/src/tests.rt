//! The program's rows: which words it takes, what it says of a fault, and the statuses of replies.

mod descriptors;
mod faults;
mod replies;
mod safeguards;
mod words;
