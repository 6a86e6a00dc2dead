//! What views show, said apart from the code that walks them.
//!
//! `specs/` has shown digraphs, the adaptors, towers of layers, the values that views pull and the
//! marks of their items. The code here is laws: a function has no body, and its contract is the
//! law.
#![tactic(auto)]

mod adapting;
mod grounding;
mod renaming;
mod stacking;

pub use adapting::{
    residual_is_shown, reversed_is_shown, split_is_shown, sub_is_shown, undirected_is_shown,
};
pub use grounding::{base_is_below, base_is_shown, base_lists_arcs, base_shows_arcs};
pub use renaming::{
    numbered_filters_pass_alike, numbered_maps_pull_alike, numbered_maps_pull_alike_at_nodes,
    numbered_towers_show_alike,
};
pub use stacking::{tower_is_shown, tower_shows_live_items};
