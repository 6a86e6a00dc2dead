//! Script lines: the forms of commands as one table, and how a line is read.
#![tactic(auto)]

mod build;
mod commands;
mod forms;
mod laws;
mod lines;
mod words;

pub use commands::{Command, Direction, GuardWord, LayerWord, MapType};
pub use laws::{one_column, one_command, some_column};
pub use lines::{LineFault, read_line};
