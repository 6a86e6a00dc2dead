//! A changeable digraph over tables whose rows are linked by index, after LEMON's list digraph.
//!
//! Each call is the plain step or the look-up of its name, as `plain_digraph` defines it.
#![tactic(auto)]

mod arcs;
mod facts;
mod faults;
mod graph;
mod moves;
mod nodes;
mod places;
mod rows;
mod sides;
mod undo;
mod walks;

pub use faults::AddFault;
pub use graph::ListDigraph;
