//! Runs of scripts, on any kind of world, over any shelf and any sink.
//!
//! `run_names` says which files the words after the program's name ask for, and `run_files` runs
//! the one on the other. What a world has to offer is the trait `Desk`.
#![tactic(auto)]

mod answers;
mod desk;
mod graph_faults;
mod opening;
mod script;
mod words;

pub use answers::{answer_line, is_refused};
pub use desk::Desk;
pub use words::{refuse_words, run_files, run_names};
