//! Texts as bytes, tables of labels, lines, and tokens: how they are read and written, with ints
//! and bools.
#![tactic(auto)]

mod compared;
mod escapes;
mod kept;
mod label_table;
mod laws;
mod line_tokens;
mod lines;
mod numbers;
mod texts;
mod tokens;
mod written;

pub use label_table::LabelTable;
pub use laws::{
    decimal_reads, one_reading, some_reading, some_tokens, written_inside, written_reads,
    written_stands,
};
pub use line_tokens::{LineTokens, read_tokens};
pub use lines::{is_passed_over, next_line, split_once};
pub use numbers::{read_bool, read_int};
pub use texts::{Text, copy_text};
pub use tokens::{Token, TokenFault, after_blanks, read_token, split_word};
pub use written::{push_token, token_bytes};
