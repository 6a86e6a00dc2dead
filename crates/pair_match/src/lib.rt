//! Largest pairings of a numbered digraph whose arcs join left nodes and others, each with a set of
//! left nodes that shows that no pairing is larger.
#![tactic(auto)]

mod facing;
mod loads;
mod pairing;
mod read;

pub use pairing::{Pairing, largest};
