//! Lines: a title, and the words of a value behind it.

ghost use Rattle.std.specs.Prelude.{◌≡◌, ◌++◌, OnOk};
ghost use Rattle.std.specs.List.{flat_map};
ghost use Rattle.report_text.specs.Lines as lines;
ghost use Rattle.report_text.specs.Texts as texts;

use std::alloc::AllocError;

/// A value that a line of a reply shows, as some words.
pub trait Words {
    ghost use Rattle.std.specs.Prelude.{ℕ, List};

    // The words, each without the blank in front.
    ghost words: { Self → List (List ℕ) };

    /// Puts the words to the text, each behind a blank.
    fn push_words(&self, out: &mut Vec<u8>) -> Result<(), AllocError>
        ensures { OnOk result (out.new.items
            ≡ out.old.items ++ flat_map lines.word (words self.now)) };
}

/// Puts a line with this title to the text.
pub fn push_line<W: Words>(out: &mut Vec<u8>, title: &[u8], value: &W) -> Result<(), AllocError>
    ensures { OnOk result (out.new.items
        ≡ out.old.items ++ lines.line_text title.now (W.words value.now)) }
{
    out.extend_from_slice(title)?;
    value.push_words(out)?;
    out.push(b'\n')?;
    Ok(())
}

/// Puts a line with this title for each of the values, in their order.
pub fn push_lines<W: Words>(out: &mut Vec<u8>, title: &[u8], values: &[W]) -> Result<(), AllocError>
    ensures { OnOk result (out.new.items
        ≡ out.old.items ++ lines.lines_text title.now W.words values.now) }
{
    for value in values {
        push_line(out, title, value)?;
    }
    Ok(())
}

/// Puts a line for each of the values, and then one with another title and the words of the last
/// value.
pub fn push_block<W: Words, E: Words>(
    out: &mut Vec<u8>,
    title: &[u8],
    values: &[W],
    end: &[u8],
    last: &E,
) -> Result<(), AllocError>
    ensures { OnOk result (out.new.items ≡ out.old.items
        ++ lines.lines_text title.now W.words values.now
        ++ lines.line_text end.now (E.words last.now)) }
{
    push_lines(out, title, values)?;
    push_line(out, end, last)
}

/// Puts a line for each of the values, and then one with another title and their number.
pub fn push_listing<W: Words>(
    out: &mut Vec<u8>,
    title: &[u8],
    values: &[W],
    end: &[u8],
) -> Result<(), AllocError>
    ensures { OnOk result (out.new.items ≡ out.old.items
        ++ texts.listing_text title.now W.words values.now end.now) }
{
    push_block(out, title, values, end, &values.len())
}
