//! Towers of at most eight layers over a digraph, read at the moment of each call.
//!
//! A level knows one layer and is generic over what is below it, so a tower is eight levels, of
//! which those past its top pass on what they are given. Filters, capacities and flows are computed
//! from the layers, the values and the id alone, so no level calls itself.
#![tactic(auto)]

mod asked;
mod layers;
mod level;
mod marks;
mod over;
mod pulled;
mod reading;
mod stack;
mod values;

pub use layers::{Layer, Origin, arc_from, base_of};
pub use level::{How, Level, Level1, Level2, Level3, Level4, Level5, Level6, Level7, Level8};
pub use marks::{arc_marks, node_marks};
pub use over::{Over, Tower, tower};
pub use pulled::{arc_int_at, node_bool_at, node_int_at};
pub use stack::four;
pub use values::Values;
