//! Towers by number, and the values that their items pull from the base, in lists.
#![tactic(auto)]

mod cycles;
mod fault;
mod finding;
mod numbering;
mod pulled;

pub use cycles::{cycle_sum, facts_of, node_number};
pub use fault::ValueFault;
pub use finding::shows_node;
pub use numbering::number_tower;
pub use pulled::{arc_ints, node_bools, node_ints};
