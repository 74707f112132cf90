//! Worked values from outside, scripted devices and halves, threads, and memory that is refused, by
//! the subject of each crate.

mod accepts;
mod books;
mod deadlines;
mod kept;
mod loops;
mod machine_rows;
mod pairs;
mod scripts;
mod small_heaps;
mod streams;
mod tables;
mod tasks;
