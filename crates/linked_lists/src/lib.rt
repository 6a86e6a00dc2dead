//! Doubly linked lists of ids through one table, linked by index.
//!
//! Any number of lists run through a table of [`Link`]s, and no id stands in two of them. A list
//! begins at its head, which the caller keeps. [`remove`] and [`insert`] take constant time.
#![tactic(auto)]

mod laws;
mod lists;
mod spots;

pub use laws::{inserted_in_list, insertion_keeps, removal_keeps, removed_from_list};
pub use lists::{Link, insert, loose, remove};
pub use spots::Spot;
