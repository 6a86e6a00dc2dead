//! Lines, as a file has them, and those that are passed over.

ghost use Rattle.std.specs.Prelude.{◌≡◌, ◌<◌, ◌∷◌, ◌++◌, [], length, IfSome, IfNone};
ghost use Rattle.token_text.specs.Lines.{LacksByte, lines_of, is_passed_over};

use crate::tokens::after_blanks;

/// What stands before the first place of the byte, and what follows it. None exactly where the byte
/// isn't there.
pub fn split_once(bytes: &[u8], byte: u8) -> Option<(&[u8], &[u8])>
    ensures parts { IfSome result (λ parts.
        (bytes.now ≡ parts.0.now ++ byte ∷ parts.1.now) × LacksByte byte parts.0.now) }
    ensures none { IfNone result (LacksByte byte bytes.now) }
{
    for i in 0..bytes.len() {
        if bytes[i] == byte {
            return Some((&bytes[..i], &bytes[i + 1..]));
        }
    }
    None
}

/// The first line without its end, which the last line may lack, and what follows. None exactly at
/// the end of the bytes.
pub fn next_line(bytes: &[u8]) -> Option<(&[u8], &[u8])>
    ensures line { IfSome result (λ parts.
        lines_of bytes.now ≡ parts.0.now ∷ lines_of parts.1.now) }
    ensures less { IfSome result (λ parts. length parts.1.now < length bytes.now) }
    ensures none { IfNone result (bytes.now ≡ []) }
{
    if bytes.is_empty() {
        return None;
    }
    match split_once(bytes, b'\n') {
        Some((line, after)) => Some((line, after)),
        None => Some((bytes, &[])),
    }
}

/// Whether the line has blanks only, or its first byte that is no blank is `#`.
pub fn is_passed_over(line: &[u8]) -> bool
    ensures { result ≡ is_passed_over line.now }
{
    match after_blanks(line).first() {
        Some(byte) => *byte == b'#',
        None => true,
    }
}
