//! Tests of the layers that show a digraph, so that their own crates are proved once.
#![tactic(auto)]

mod columns;
#[cfg(test)]
mod follows;
#[cfg(test)]
mod layers;
mod listing;
#[cfg(test)]
mod pairs;
mod present;
#[cfg(test)]
mod rows;
mod sides;

pub use columns::{Columns, have_maps};
pub use listing::{listed, pulled, walked};
pub use present::{IDS, Present};
pub use sides::{Side, kept_of, place_arc, place_node};
