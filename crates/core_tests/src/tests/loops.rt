//! Rows of calls by scripted halves and waits.
mod halves;
mod recorded;
mod recording;
mod rows;
