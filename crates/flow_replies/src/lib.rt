//! What replies about flows and pairings tell of a digraph by number: the numbers that they name,
//! the ends of pairs, and values that may be absent.
#![tactic(auto)]

mod absent;
mod numbers;
mod pairs;

pub use absent::{first_out_of_order, slice_given};
pub use numbers::{arc_items, numbers_in, numbers_with_flow};
pub use pairs::left_first;
