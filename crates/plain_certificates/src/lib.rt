//! What shows that an answer about paths, flows or pairings is right, and the laws that say so.
//!
//! Algorithms see nodes 0 to n-1 and arcs 0 to m-1. `specs/` has such digraphs and a record for
//! each answer; `proofs/` has what the proofs of several algorithms share. There is no code: the
//! functions are laws, and the contract of each is the law.
#![tactic(auto)]

mod examples;
mod laws;
mod views;

pub use examples::certificates_have_examples;
pub use laws::{
    answers_exclude_each_other, assigned_is_cheapest, barrier_leaves_no_flow, cut_is_largest,
    free_cycle_has_no_end, heaviest_is_largest, mean_is_least, negative_cycle_leaves_no_least,
    optimal_is_cheapest, order_leaves_no_cycle, pairing_is_largest, paths_are_least,
    short_leaves_no_cover,
};
pub use views::numbered_view_keeps_ends;
