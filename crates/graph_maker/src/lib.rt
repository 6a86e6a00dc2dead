//! Graphs from a seed, written to a report as they are made.
//!
//! `make_words` reads which graph the words after the program's name ask for, and `make_graph`
//! writes it. Nothing of it is kept but the piece of text that goes out next.
#![tactic(auto)]

mod cells;
mod draws;
mod laws;
mod making;
mod sending;
mod words;

pub use draws::Draws;
pub use laws::made_is_a_document;
pub use making::make_graph;
pub use words::{Wanted, make_words, read_bounded};
