//! The rows of a section, one after the other.

ghost use Rattle.std.specs.Prelude.{◌≡◌, ◌+◌, ◌<◌, ◌≤◌, ◌^◌, ◌∷◌, ◌++◌, [], length, MatchOption};
ghost use Rattle.std.specs.Prelude.{IfSome, IfOk, IfErr, IfNone, OnOk};
ghost use Rattle.token_text.specs.Lines.{lines_of};
ghost use Rattle.lgf_file.specs.Sections.{rows_of};
ghost use Rattle.lgf_file.specs.Rows.{Rows};
ghost use Rattle.lgf_file.specs.Reading.{Blames, InOrder};

use crate::faults::{DocFault, LgfFault, LgfKind};
use crate::sections::{LineKind, kind_of};
use crate::words::read_words;
use std::alloc::{AllocError, Global};
use token_text::{Text, next_line};

/// A row: its line, with its number, and the bytes behind it.
#[derive(Clone, Copy)]
pub struct Row<'a> {
    pub number: u64,
    pub line: &'a [u8],
    pub after: &'a [u8],
}

/// The next row of a section, whose first line has this number. None at its end.
pub fn next_row(bytes: &[u8], number: u64) -> Option<Row<'_>>
    requires { number + length bytes.now < 2 ^ 64 }
    ensures rows { MatchOption result (rows_of number (lines_of bytes.now) ≡ []) (λ row.
        rows_of number (lines_of bytes.now)
        ≡ (row.number, row.line.now) ∷ rows_of (row.number + 1) (lines_of row.after.now)) }
    ensures less { IfSome result (λ row. length row.after.now < length bytes.now) }
    ensures room { IfSome result (λ row.
        row.number + 1 + length row.after.now ≤ number + length bytes.now) }
{
    let mut rest = bytes;
    let mut at = number;
    'lines: while let Some((line, after)) = next_line(rest) {
        match kind_of(line) {
            LineKind::Row => {
                return Some(Row {
                    number: at,
                    line,
                    after,
                });
            }
            LineKind::Opens(_) => return None,
            LineKind::Passed => {
                rest = after;
                at += 1;
            }
        }
    }
    None
}

/// What is made of the rows of a section, taken in one after the other.
pub trait RowReader {
    ghost use Rattle.std.specs.Prelude.{Option, List};
    ghost use Rattle.lgf_file.specs.Rows.{Cells};
    ghost use Rattle.lgf_file.specs.declared.faults.LgfKind.{LgfKind as Kind};

    // The labels of the nodes, by which rows are read.
    ghost labels: { Self → Cells };

    // What is at fault with a row behind others.
    ghost fault: { Cells → List Cells → Cells → Option Kind };

    // The rows that were taken in.
    ghost read: { Self → List Cells };

    // What was made of them fits them.
    ghost IsSound: { Self → Type 0 };

    /// Takes in a row with these tokens, or tells what is at fault with it. After a fault, and
    /// where memory runs out, nothing is said of the reader.
    fn take(&mut self, alloc: Global, cells: Vec<Text>) -> Result<Option<LgfKind>, AllocError>
        requires sound { IsSound self.old }
        requires some { 0 < length cells.items }
        ensures fault { IfOk result (λ found.
            found ≡ fault (labels self.old) (read self.old) cells.items) }
        ensures taken { IfOk result (λ found.
            IfNone found (read self.new ≡ read self.old ++ cells.items ∷ [])) }
        ensures sound { IfOk result (λ found. IfNone found (IsSound self.new)) }
        ensures labels { IfOk result (λ found. IfNone found (labels self.new ≡ labels self.old)) };
}

/// Takes in the rows of a section, whose first line has this number, up to its end or to the first
/// row that is at fault.
pub fn read_rows<R: RowReader>(
    alloc: Global,
    reader: &mut R,
    bytes: &[u8],
    number: u64,
) -> Result<(), DocFault>
    requires room { number + length bytes.now < 2 ^ 64 }
    requires sound { R.IsSound reader.old }
    requires first { R.read reader.old ≡ [] }
    ensures read { OnOk result (Rows (rows_of number (lines_of bytes.now)) (R.read reader.new)) }
    ensures fine { OnOk result (InOrder (R.fault (R.labels reader.new)) [] (R.read reader.new)) }
    ensures sound { OnOk result (R.IsSound reader.new) }
    ensures labels { OnOk result (R.labels reader.new ≡ R.labels reader.old) }
    ensures bad { IfErr result
        (Blames (R.fault (R.labels reader.old)) (rows_of number (lines_of bytes.now))) }
{
    let mut rest = bytes;
    let mut at = number;
    let mut width = 0;
    'rows: while let Some(row) = next_row(rest, at) {
        let Some(cells) = read_words(alloc, row.line, width)? else {
            return Err(fault_at(row.number, LgfKind::Token));
        };
        width = cells.len();
        if let Some(kind) = reader.take(alloc, cells)? {
            return Err(fault_at(row.number, kind));
        }
        rest = row.after;
        at = row.number + 1;
    }
    Ok(())
}

/// The fault of this kind in the line.
pub fn fault_at(line: u64, kind: LgfKind) -> DocFault
    ensures { result ≡ DocFault.Lgf (record { line = line; kind = kind }) }
{
    DocFault::Lgf(LgfFault { line, kind })
}
