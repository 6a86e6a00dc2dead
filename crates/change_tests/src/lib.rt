//! Tests of what alters a digraph under observers, so that the crates of it are proved once.
#![tactic(auto)]

#[cfg(test)]
mod acts;
#[cfg(test)]
mod alterations;
#[cfg(test)]
mod chains;
#[cfg(test)]
mod fuse_rows;
#[cfg(test)]
mod fuses;
mod moody;
#[cfg(test)]
mod moody_rows;
#[cfg(test)]
mod refusals;
#[cfg(test)]
mod restored;
#[cfg(test)]
mod seats;
mod watcher;

pub use moody::Moody;
pub use watcher::Watcher;
