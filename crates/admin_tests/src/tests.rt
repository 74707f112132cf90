//! Worked lines and files, and sessions whose desk answers later.

mod addresses;
mod commands;
mod later;
mod rules_files;
mod telling;
mod verdicts;
