//! How a line is read.

ghost use Rattle.std.specs.Prelude.{◌≡◌, ℕ, ◌+◌, ◌<◌, ◌≤◌, length, take, true, Ok, None, IfOk};
ghost use Rattle.std.specs.Prelude.{IfErr, IfSome, IfNone};
ghost use Rattle.token_text.specs.Lines.{is_passed_over};
ghost use Rattle.script_words.specs.Lines.{Matches, GoesOn, Says, IsBad};
ghost use Rattle.script_words.specs.Code as code;
ghost use Rattle.script_words.specs.Forms.{shape};
ghost use Rattle.script_words.specs.Results.{Answers, Refuses, Tells};
ghost use Rattle.script_words.specs.Valid.{IsValid};
ghost use Rattle.script_words.specs.declared.forms.Form.{Form as FormWord};
ghost use Rattle.script_words.specs.declared.commands.Command.{Command as CommandWord};

use crate::build::build;
use crate::commands::Command;
use crate::forms::{FORMS, Form, places};
use crate::words::reach;
use std::alloc::Global;
use token_text::{Token, is_passed_over, read_tokens};

/// Why a line was read as no command.
#[derive(Clone, Copy, Debug, PartialEq, Eq)]
pub enum LineFault {
    /// It says none, and goes wrong in this column, counted in bytes from 1: at the open quote or
    /// the bad backslash of a token that can't be read, or at the first byte of the first token
    /// with which no form goes on, whichever token comes first; else, where tokens are missing,
    /// behind its last byte.
    Bad(usize),
    /// Memory ran out.
    Memory,
}

/// The command that the line says. None for a line that is blank or a comment.
///
/// A line is blank where it has blanks only, and a comment where its first byte that is no blank is
/// `#`.
pub fn read_line(alloc: Global, line: &[u8]) -> Result<Option<Command>, LineFault>
    ensures passed_over { IfOk result (λ found. IfNone found (is_passed_over line.now ≡ true)) }
    ensures said { IfOk result (λ found. IfSome found (Says line.now)) }
    ensures valid { IfOk result (λ found. IfSome found IsValid) }
    ensures refused { IfErr result (Refuses line.now) }

    // Whatever the line is, is what is answered, unless memory ran out.
    ensures exact { (command : CommandWord) → Says line.now command → Answers command result }
    ensures exact_none { is_passed_over line.now ≡ true → result ≡ Ok None }
    ensures exact_column { (column : ℕ) → IsBad line.now column → Tells column result }
{
    if is_passed_over(line) {
        return Ok(None);
    }
    let Ok(read) = read_tokens(alloc, line) else {
        return Err(LineFault::Memory);
    };
    let tokens = read.tokens.as_slice();
    let reached = farthest(tokens);
    if reached < tokens.len() {
        return Err(LineFault::Bad(tokens[reached].start + 1));
    }
    if let Some(place) = read.fault {
        return Err(LineFault::Bad(place + 1));
    }
    let Some(form) = whole_form(tokens) else {
        return Err(LineFault::Bad(line.len() + 1));
    };
    match build(alloc, form, tokens) {
        Ok(command) => Ok(Some(command)),
        Err(_) => Err(LineFault::Memory),
    }
}

// How far the form goes that goes on farthest with these tokens.
fn farthest(tokens: &[Token]) -> usize
    ensures within { result ≤ length tokens.now }
    ensures reached { GoesOn (take result tokens.now) }
    ensures stuck { result < length tokens.now → GoesOn (take (result + 1) tokens.now) → ⊥ }
{
    let mut most = 0;
    for form in &FORMS {
        let reached = reach(places(*form), tokens);
        if reached > most {
            most = reached;
        }
    }
    most
}

// The form that the tokens are.
fn whole_form(tokens: &[Token]) -> Option<Form>
    ensures found { IfSome result (λ form. Matches form tokens.now) }
    ensures none { IfNone result ((form : FormWord) → Matches form tokens.now → ⊥) }
{
    for form in &FORMS {
        if is_whole(*form, tokens) {
            return Some(*form);
        }
    }
    None
}

fn is_whole(form: Form, tokens: &[Token]) -> bool
    ensures { result ≡ code.is_whole (shape form).slots tokens.now }
{
    let places = places(form);
    places.len() == tokens.len() && reach(places, tokens) == tokens.len()
}
