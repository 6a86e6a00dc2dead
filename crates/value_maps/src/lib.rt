//! Ints, bools and texts of live items, each map an observer.
#![tactic(auto)]

mod bools;
mod ints;
mod texts;

pub use bools::BoolMap;
pub use ints::IntMap;
pub use texts::TextMap;
