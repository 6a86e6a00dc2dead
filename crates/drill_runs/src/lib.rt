//! Drills: a script that is drawn from a seed is run on a graph from that seed, on any kind of
//! world.
//!
//! `drill_words` reads which drill the words after the program's name ask for, and `drill` runs it
//! and writes one line.
#![tactic(auto)]

mod counting;
mod drilling;
mod forms;
mod lines;
mod opening;
mod playing;
mod texts;
mod words;

pub use drilling::drill;
pub use words::{Wanted, drill_words};
