//! The tokens of a line.

ghost use Rattle.std.specs.Prelude.{◌<◌, length, All, IfOk, IfSome};
ghost use Rattle.token_text.specs.LineTokens.{HasTokens};

use crate::tokens::{Token, TokenFault, read_token};
use std::alloc::{AllocError, Global};

/// The tokens of a line up to its end or to one that can't be read, and the place where that one
/// goes wrong.
#[derive(Drop)]
pub struct LineTokens {
    pub tokens: Vec<Token>,
    pub fault: Option<usize>,
}

/// The tokens of the line.
pub fn read_tokens(alloc: Global, line: &[u8]) -> Result<LineTokens, AllocError>
    ensures tokens { IfOk result (λ read. HasTokens line.now 0 read.tokens.items read.fault) }
    ensures starts { IfOk result (λ read.
        All (λ token. token.start < length line.now) read.tokens.items) }
    ensures place { IfOk result (λ read. IfSome read.fault (λ place. place < length line.now)) }
{
    let mut tokens = Vec::new(alloc);
    let mut at = 0;
    'tokens: loop {
        match read_token(alloc, line, at) {
            Ok(Some(token)) => {
                at = token.end;
                tokens.push(token)?;
            }
            Ok(None) => {
                return Ok(LineTokens {
                    tokens,
                    fault: None,
                });
            }
            Err(TokenFault::BadEscape(place)) => {
                return Ok(LineTokens {
                    tokens,
                    fault: Some(place),
                });
            }
            Err(TokenFault::OpenQuote(place)) => {
                return Ok(LineTokens {
                    tokens,
                    fault: Some(place),
                });
            }
            Err(TokenFault::Memory) => return Err(AllocError),
        }
    }
}
