//! Tokens: how the next one of a line is read.

ghost use Rattle.std.specs.Prelude.{◌≡◌, ◌≤◌, ◌+◌, true, None, ◌++◌, length, IfOk, IfErr};
ghost use Rattle.std.specs.List.{list_all};
ghost use Rattle.token_text.specs.Grammar.{QuotedBytes, IsStop, after_blanks, is_word_bytes};
ghost use Rattle.token_text.specs.Bytes as bytes;
ghost use Rattle.token_text.specs.Scan as scan;
ghost use Rattle.token_text.specs.Laws.{Stands, Meets};
ghost use Rattle.token_text.specs.Results.{Found, Faults, Tells};

use crate::escapes::quoted_byte;
use crate::texts::{Text, copy_text};
use std::alloc::{AllocError, Global};

/// A token of a line: the place of its first byte, the place after its last one, and the bytes that
/// it stands for.
#[derive(Debug, Drop)]
pub struct Token {
    pub start: usize,
    pub end: usize,
    pub bytes: Text,
}

/// Why no token was read.
#[derive(Clone, Copy, Debug, PartialEq, Eq)]
pub enum TokenFault {
    /// The quote at this place isn't closed, and every backslash behind it begins an escape.
    OpenQuote(usize),
    /// The backslash at this place is the first of a quoted token that begins no escape.
    BadEscape(usize),
    /// Memory ran out.
    Memory,
}

impl From<AllocError> for TokenFault {
    ghost use Rattle.token_text.specs.declared.tokens.TokenFault.{TokenFault};

    ghost from_gives = { λ _ fault. fault ≡ TokenFault.Memory };

    fn from(_error: AllocError) -> TokenFault {
        TokenFault::Memory
    }
}

fn is_blank(byte: u8) -> bool
    ensures { result ≡ bytes.is_blank byte }
{
    9 <= byte && byte <= 13 && byte != b'\n' || byte == b' '
}

/// What is left of the text from its first byte on that is no blank.
pub fn after_blanks(text: &[u8]) -> &[u8]
    ensures { result.now ≡ after_blanks text.now }
{
    let mut rest = text;
    while let Some((byte, after)) = rest.split_first() {
        if !is_blank(*byte) {
            return rest;
        }
        rest = after;
    }
    rest
}

/// The bytes up to the next blank, and what follows them.
pub fn split_word(text: &[u8]) -> (&[u8], &[u8])
    ensures split { text.now ≡ result.0.now ++ result.1.now }
    ensures visible { is_word_bytes result.0.now ≡ true }
    ensures stop { IsStop result.1.now }
{
    for i in 0..text.len() {
        if is_blank(text[i]) {
            return text.split_at(i);
        }
    }
    text.split_at(text.len())
}

fn is_plain(byte: u8) -> bool
    ensures { result ≡ scan.is_plain byte }
{
    byte != b'"' && byte != b'\\'
}

// The bytes up to the next quote or backslash, and what follows them.
fn split_plain(text: &[u8]) -> (&[u8], &[u8])
    ensures split { text.now ≡ result.0.now ++ result.1.now }
    ensures plain { list_all scan.is_plain result.0.now ≡ true }
{
    for i in 0..text.len() {
        if !is_plain(text[i]) {
            return text.split_at(i);
        }
    }
    text.split_at(text.len())
}

// The bytes in quotes, and what follows the last one that can be read.
fn read_quoted(alloc: Global, text: &[u8]) -> Result<(Text, &[u8]), AllocError>
    ensures quoted { IfOk result (λ read. QuotedBytes text.now read.0 read.1.now) }
    ensures stop { IfOk result (λ read. scan.quoted_byte read.1.now ≡ None) }
{
    let (plain, after) = split_plain(text);
    if quoted_byte(after).is_none() {
        return Ok((copy_text(alloc, plain)?, after));
    }
    let mut bytes = Vec::from_slice(alloc, plain)?;
    let mut rest = after;
    while let Some((byte, after)) = quoted_byte(rest) {
        bytes.push(byte)?;
        rest = after;
    }
    Ok((copy_text(alloc, bytes.as_slice())?, rest))
}

/// The next token from a place of the line on, or None where only blanks follow.
///
/// A token that begins with a double quote runs to the next quote that is no part of an escape. Any
/// other token runs up to the next blank or to the end, and its bytes stand for themselves. The
/// answer is an error where a quoted token has a backslash that begins no escape (`BadEscape`),
/// where it has none but is never closed (`OpenQuote`), and where memory runs out.
pub fn read_token(alloc: Global, line: &[u8], at: usize) -> Result<Option<Token>, TokenFault>
    requires { at ≤ length line.now }
    ensures found { IfOk result (Found line.now at) }
    ensures faults { IfErr result (Faults line.now at) }

    // Whatever stands next is what is answered, unless memory ran out.
    ensures exact { (stands : Stands) → Meets line.now at stands → Tells stands result }
{
    let text = after_blanks(&line[at..]);
    let start = line.len() - text.len();
    let Some((first, inner)) = text.split_first() else {
        return Ok(None);
    };
    if *first != b'"' {
        let (word, rest) = split_word(text);
        let end = line.len() - rest.len();
        let bytes = copy_text(alloc, word)?;
        return Ok(Some(Token { start, end, bytes }));
    }
    let (bytes, rest) = read_quoted(alloc, inner)?;
    let Some((last, after)) = rest.split_first() else {
        return Err(TokenFault::OpenQuote(start));
    };
    if *last != b'"' {
        return Err(TokenFault::BadEscape(line.len() - rest.len()));
    }
    let end = line.len() - after.len();
    Ok(Some(Token { start, end, bytes }))
}
