//! Words of a line, each behind a blank.

ghost use Rattle.std.specs.Prelude.{◌≡◌, ◌++◌, decimal, OnOk};
ghost use Rattle.std.specs.Fmt.{signed_decimal};
ghost use Rattle.token_text.specs.Written.{written};
ghost use Rattle.report_text.specs.Lines as lines;
ghost use Rattle.report_text.specs.Texts as texts;

use base_items::ItemSort;
use itoa::Buffer;
use std::alloc::AllocError;
use token_text::{Text, push_token};

/// Puts a word to the text.
pub fn push_word(out: &mut Vec<u8>, word: &[u8]) -> Result<(), AllocError>
    ensures { OnOk result (out.new.items ≡ out.old.items ++ lines.word word.now) }
{
    out.push(b' ')?;
    out.extend_from_slice(word)
}

/// Puts a name to the text, as it is written.
pub fn push_name(out: &mut Vec<u8>, name: &Text) -> Result<(), AllocError>
    ensures { OnOk result (out.new.items ≡ out.old.items ++ lines.word (written name.now)) }
{
    out.push(b' ')?;
    push_token(out, name.as_bytes())
}

/// Puts a number to the text.
pub fn push_number(out: &mut Vec<u8>, number: u64) -> Result<(), AllocError>
    ensures { OnOk result (out.new.items ≡ out.old.items ++ lines.word (decimal number)) }
{
    let mut buffer = Buffer::new();
    push_word(out, buffer.format(number).as_bytes())
}

/// Puts a number that may be below 0 to the text.
pub fn push_signed(out: &mut Vec<u8>, number: i128) -> Result<(), AllocError>
    ensures { OnOk result (out.new.items ≡ out.old.items ++ lines.word (signed_decimal number)) }
{
    let mut buffer = Buffer::new();
    push_word(out, buffer.format(number).as_bytes())
}

/// What the items of the sort are called.
pub fn sort_name(sort: ItemSort) -> &'static [u8]
    ensures { result.now ≡ texts.sort_name sort }
{
    match sort {
        ItemSort::Node => b"nodes",
        ItemSort::Arc => b"arcs",
    }
}

/// The word for the sort.
pub fn sort_word(sort: ItemSort) -> &'static [u8]
    ensures { result.now ≡ lines.sort_word sort }
{
    match sort {
        ItemSort::Node => b"node",
        ItemSort::Arc => b"arc",
    }
}

/// Whether a set supplies too much, or too little.
pub fn side_word(over: bool) -> &'static [u8]
    ensures { result.now ≡ lines.side_word over }
{
    if over { b"over" } else { b"under" }
}
