//! Tables of names: what stands under each, in the order of making.
#![tactic(auto)]

mod name_table;

pub use name_table::{Keeps, NameTable};
