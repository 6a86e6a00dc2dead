//! The tokens of a line.

ghost use Rattle.std.specs.Prelude.{IfOk, IfSome, IfNone};
ghost use Rattle.lgf_file.specs.Rows.{Cells, Words};

use std::alloc::{AllocError, Global};
use token_text::{Text, TokenFault, read_token};

/// The tokens of the line, with room for this many from the start. None where one of them can't be
/// read.
pub fn read_words(alloc: Global, line: &[u8], room: usize) -> Result<Option<Vec<Text>>, AllocError>
    ensures found { IfOk result (λ read. IfSome read (λ cells. Words line.now cells.items)) }
    ensures none { IfOk result (λ read. IfNone read ((cells : Cells) → Words line.now cells → ⊥)) }
{
    let mut cells = Vec::with_capacity(alloc, room)?;
    let mut at = 0;
    'tokens: loop {
        match read_token(alloc, line, at) {
            Ok(Some(token)) => {
                at = token.end;
                cells.push(token.bytes)?;
            }
            Ok(None) => return Ok(Some(cells)),
            Err(TokenFault::BadEscape(_)) => return Ok(None),
            Err(TokenFault::OpenQuote(_)) => return Ok(None),
            Err(TokenFault::Memory) => return Err(AllocError),
        }
    }
}
