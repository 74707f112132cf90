//! Rows of calls with their answers: a few for each definition.
mod alarm_rows;
mod call_rows;
mod poll_rows;
mod timer_rows;
