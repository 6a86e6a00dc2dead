//! Largest flows from one node of a numbered digraph to another, each with a least cut.
#![tactic(auto)]

mod found;
mod largest;
mod sent;

pub use largest::{Cut, max_flow};
