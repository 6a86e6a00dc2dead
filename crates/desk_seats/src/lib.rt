//! What sits in the chains of a world: one variant for each observer, and one for boxed ones.
#![tactic(auto)]

mod half;
mod reads;
mod seat;
mod writes;

pub use seat::Seat;
