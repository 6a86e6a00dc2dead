//! Numbered digraphs: nodes 0 to n-1 and arcs 0 to m-1 in flat arrays, on which every algorithm
//! runs.
#![tactic(auto)]

mod answers;
mod build;
mod ends;
mod fault;
mod fixed;
mod places;
mod rows;
mod told;

pub use answers::{Barrier, CostAnswer};
pub use fault::FixFault;
pub use fixed::Fixed;
