//! Views by number: what a view shows as a numbered digraph, and checks of its values.
#![tactic(auto)]

mod checks;
mod cycles;
mod fault;
mod listing;
mod numbering;

pub use checks::{first_below, first_crossed, first_outside, narrow};
pub use cycles::{first_one_sided, turn_cycle};
pub use fault::NumberFault;
pub use listing::{list_arcs, list_nodes};
pub use numbering::number;
