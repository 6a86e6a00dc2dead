//! Tests of the digraph and of single observers, so that their own crates are proved once.
#![tactic(auto)]

#[cfg(test)]
mod digraph_limits;
#[cfg(test)]
mod digraph_tables;
mod followed;
mod guarded;
#[cfg(test)]
mod guards;
mod halved;
#[cfg(test)]
mod halves;
mod kept_up;
#[cfg(test)]
mod kernels;
#[cfg(test)]
mod maps;
mod modest;
mod steps;
mod undone;

pub use followed::{add, clear, erase, shift};
pub use guarded::Guarded;
pub use halved::Halved;
pub use kept_up::{name_item, set_bool, set_int, set_text, tie_item, write_true};
pub use modest::all_modest;
pub use steps::{Step, take};
