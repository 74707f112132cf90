//! Rows of moments and lines, a queue at its bound, a long run of pushes and takes, and memory that
//! is refused.

mod json_lines;
mod lines;
mod moments;
mod queues;
mod refused_memory;
mod runs;
