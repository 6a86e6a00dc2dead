//! Largest flows, by pushes along arcs with room from higher nodes to lower ones.
//!
//! The nodes are 0 to n-1, and the arcs are told by their ends and capacities, all in slices.
//! `find_cut` gives a largest flow from one node to another with a least cut. `solve` is the engine
//! under it: it moves what some nodes have too much of to where it is wanted.
#![tactic(auto)]

mod discharge;
mod largest;
mod push;
mod settle;
mod wave;

pub use largest::find_cut;
pub use push::{Ends, Spoke};
pub use settle::solve;
