//! The answer to a line, its text, and how both are handed over.

ghost use Rattle.std.specs.Prelude.{◌≡◌, ℕ, ◌+◌, ◌^◌, ◌<◌, ◌≤◌, ◌⊎◌, [], ◌∷◌, List, Some, true};
ghost use Rattle.std.specs.Prelude.{MatchOption, IfOk, IfSome, IfNone, OnOk, OnErr, false};
ghost use Rattle.edge_io.specs.Causes.{Rose, NeverFall, StayedSame};
ghost use Rattle.edge_io.specs.Files.{Files, Took};
ghost use Rattle.token_text.specs.Lines.{is_passed_over};
ghost use Rattle.script_words.specs.Valid.{IsValid};
ghost use Rattle.plain_world.specs.Steps.{Step};
ghost use Rattle.plain_machine.specs.Built as built;
ghost use Rattle.plain_machine.specs.Texts as texts;
ghost use Rattle.plain_machine.specs.Outcome.{Counts, Nothing};
ghost use Rattle.base_items.specs.declared.limits.TheConstants.{MAX_STAMP as STAMP_LIMIT};
ghost use Rattle.script_runs.specs.Unhanded.{Unhanded};

use crate::desk::Desk;
use edge_io::{Failed, Shelf, Sink, write_piece};
use plain_world::Answer;
use report_text::{Fault, Reply, StepFault, fault_bytes, reply_bytes};
use script_words::{Command, LineFault, read_line};
use std::alloc::{AllocError, Global};
use token_text::after_blanks;

/// The answer to a line. None for one that is passed over. It needs 2^24 stamps, and uses fewer.
pub fn answer_line<D: Desk>(
    alloc: Global,
    desk: &mut D,
    line: &[u8],
) -> Result<Option<Answer>, AllocError>
    requires in_step { D.in_step desk.old }
    requires stamps { (D.plain desk.old).graph.stamps + 2 ^ 24 ≤ STAMP_LIMIT }
    ensures passed { IfOk result (λ found. IfNone found
        ((is_passed_over line.now ≡ true) × (D.plain desk.new ≡ D.plain desk.old))) }
    ensures answered { IfOk result (λ found. IfSome found (λ answer.
        (is_passed_over line.now ≡ false)
        × built.Answers (D.plain desk.old) line.now answer (D.plain desk.new))) }
    ensures asked { OnErr result (is_passed_over line.now ≡ false) }
    ensures in_step { D.in_step desk.new }
    ensures stamps { (D.plain desk.new).graph.stamps < (D.plain desk.old).graph.stamps + 2 ^ 24 }
{
    match read_line(alloc, line) {
        Ok(None) => Ok(None),
        Ok(Some(command)) => {
            let answer = answer_command(alloc, desk, line, &command);
            drop(command);
            Ok(Some(answer?))
        }
        Err(LineFault::Bad(column)) => Ok(Some(Answer::Refused(Fault::BadLine(column)))),
        Err(LineFault::Memory) => Err(AllocError),
    }
}

// The column of the first byte that is no blank.
fn first_column(line: &[u8]) -> usize
    ensures { result ≡ built.first_column line.now }
{
    line.len() - after_blanks(line).len() + 1
}

// The answer to a line that says the command.
fn answer_command<D: Desk>(
    alloc: Global,
    desk: &mut D,
    line: &[u8],
    command: &Command,
) -> Result<Answer, AllocError>
    requires valid { IsValid command.now }
    requires in_step { D.in_step desk.old }
    requires stamps { (D.plain desk.old).graph.stamps + 2 ^ 24 ≤ STAMP_LIMIT }
    ensures answered { IfOk result (λ answer. built.AnswersCommand Step (D.plain desk.old)
        line.now command.now answer (D.plain desk.new)) }
    ensures in_step { D.in_step desk.new }
    ensures stamps { (D.plain desk.new).graph.stamps < (D.plain desk.old).graph.stamps + 2 ^ 24 }
{
    if !D::built(command) {
        return Ok(Answer::Refused(Fault::BadLine(first_column(line))));
    }
    match desk.step(alloc, command) {
        Ok(reply) => Ok(Answer::Answered(reply)),
        Err(StepFault::Refused(fault)) => Ok(Answer::Refused(fault)),
        Err(StepFault::Memory) => Err(AllocError),
    }
}

/// The text of the answer to the line with this number.
pub fn answer_bytes(alloc: Global, number: u64, answer: &Answer) -> Result<Vec<u8>, AllocError>
    ensures { IfOk result (λ text. text.items ≡ texts.answer_text number answer.now) }
{
    match answer {
        Answer::Answered(reply) => reply_bytes(alloc, reply),
        Answer::Refused(fault) => fault_bytes(alloc, number, fault),
    }
}

/// Whether the answer refuses its line.
pub fn is_refused(answer: &Answer) -> bool
    ensures { result ≡ texts.is_refused answer.now }
{
    match answer {
        Answer::Answered(_) => false,
        Answer::Refused(_) => true,
    }
}

// The name and the bytes of the file that the answer saves.
fn saved(answer: &Answer) -> Option<(&[u8], &[u8])>
    ensures { MatchOption result (texts.saves_of answer.now ≡ []) (λ save.
        texts.saves_of answer.now ≡ (save.0.now, save.1.now) ∷ []) }
{
    match answer {
        Answer::Answered(Reply::Save(name, bytes)) => Some((name.as_bytes(), bytes.as_slice())),
        _ => None,
    }
}

/// Stores the file that the answer saves, and then hands over its text.
pub fn hand_over<S: Shelf, K: Sink>(
    answer: &Answer,
    text: &[u8],
    shelf: &mut S,
    report: &mut K,
) -> Result<(), Failed>
    ensures handed { OnOk result ((files : Files) → S.files shelf.old ≡ Some files
        → (S.files shelf.new ≡ Some (texts.overwritten files (texts.saves_of answer.now)))
        × Took (K.taken report.old) (K.taken report.new) text.now) }
    ensures unhanded { OnErr result (
        let before : Counts =
        record { writes = K.faults report.old; stores = S.store_faults shelf.old } in
        let now : Counts =
        record { writes = K.faults report.new; stores = S.store_faults shelf.new } in
        (files : Files) → S.files shelf.old ≡ Some files → (out : List ℕ) × (left : Files)
        × Took (K.taken report.old) (K.taken report.new) out × (S.files shelf.new ≡ Some left)
        × Unhanded files (texts.saves_of answer.now) text.now
        (record { out = out; files = left; handed = Nothing; before = before; now = now })) }
    ensures cause { OnErr result (Rose (K.faults report.old) (K.faults report.new)
        ⊎ ((name : List ℕ)
        × Rose (S.store_faults shelf.old name) (S.store_faults shelf.new name))) }
    ensures writes { K.faults report.old ≤ K.faults report.new }
    ensures stores { NeverFall (S.store_faults shelf.old) (S.store_faults shelf.new) }
    ensures quiet { OnOk result (StayedSame (S.read_faults shelf.old) (S.read_faults shelf.new)
        × StayedSame (S.store_faults shelf.old) (S.store_faults shelf.new)
        × (K.faults report.new ≡ K.faults report.old)) }
{
    if let Some((name, bytes)) = saved(answer) {
        shelf.store(name, bytes)?;
    }
    write_piece(report, text)
}
