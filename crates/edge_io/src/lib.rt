//! The outside: files that are read and stored by name, and a stream of bytes that go out.
//!
//! A [`Shelf`] and a [`Sink`] count their faults. A call fails only where its count rose, so a fault
//! is never made up. What they hold is told where it can be known, as by [`MemShelf`] and [`MemSink`].
#![tactic(auto)]

mod faults;
mod mem_shelf;
mod mem_sink;
mod shelves;
mod sinks;
mod whole;

pub use faults::{Failed, InFault};
pub use mem_shelf::MemShelf;
pub use mem_sink::MemSink;
pub use shelves::Shelf;
pub use sinks::Sink;
pub use whole::{read_whole, write_piece};
