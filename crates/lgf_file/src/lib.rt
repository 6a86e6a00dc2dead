//! Graph files: the LEMON Graph Format in a profile, read into documents and written from them.
#![tactic(auto)]

mod arcs;
mod attributes;
mod documents;
mod faults;
mod heads;
mod laws;
mod nodes;
mod reading;
mod rows;
mod sections;
mod words;
mod writing;

pub use documents::{Doc, Link, Table};
pub use faults::{DocFault, LgfFault, LgfKind};
pub use heads::find_label;
pub use laws::{fault_spells_none, one_document, one_fault, plain_spells, some_answer};
pub use reading::read_doc;
pub use writing::{doc_bytes, push_attribute, push_cell, push_head, push_row};
