//! Sums, counts and least values of slices, by lanes of vectors and a plain rest.
#![tactic(auto)]

mod counts;
mod least;
mod reduced;
mod sums;

pub use counts::count_true;
pub use least::min_masked;
pub use reduced::least_reduced;
pub use sums::sum_i64;
