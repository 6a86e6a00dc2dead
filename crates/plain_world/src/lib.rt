//! The plain world: a digraph with all that is attached to it, and one step of it.
//!
//! `specs/` has the world, what commands demand of it, why they are refused, what they do and what
//! they answer. The code here is the one type that they name, and laws.
#![tactic(auto)]

mod answers;
mod laws;

pub use answers::Answer;
pub use laws::{
    altered_graphs_follow, answers_are_one, answers_tell_worlds, breaches_are_ranked,
    choices_tell_answers, demands_are_ordered, documents_are_valid, few_stamps_are_taken,
    items_are_named, loaded_worlds_are_valid, refusals_are_one, restored_graphs_are_copied,
    steps_keep_worlds, unused_names_are_free,
};
