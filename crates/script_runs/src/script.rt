//! Runs of a script, line by line.

ghost use Rattle.std.specs.Prelude.{◌≡◌, ◌+◌, ◌*◌, ◌^◌, ◌≤◌, ◌⊎◌, ℕ, List, Some, length};
ghost use Rattle.edge_io.specs.Causes.{Rose, NeverFall, StayedSame};
ghost use Rattle.edge_io.specs.Files.{Files, Took};
ghost use Rattle.token_text.specs.Lines.{lines_of};
ghost use Rattle.plain_world.specs.Documents.{load};
ghost use Rattle.plain_machine.specs.Built.{Answers};
ghost use Rattle.plain_machine.specs.Outcome.{Counts, IsAnswered, Plays};
ghost use Rattle.plain_machine.specs.Outcome as outcome;
ghost use Rattle.plain_machine.specs.Statuses.{EndsByFault};
ghost use Rattle.script_runs.specs.Handing.{handed_at};

use crate::answers::{answer_bytes, answer_line, hand_over, is_refused};
use crate::desk::Desk;
use base_items::MAX_STAMP;
use edge_io::{Shelf, Sink};
use plain_machine::Status;
use std::alloc::Global;
use token_text::next_line;

/// Answers the lines of the script in turn. Each answer that saves a file stores it first; its text
/// goes out as one piece before the next line. It needs 2^24 stamps for each line.
pub fn run_script<D: Desk, S: Shelf, K: Sink>(
    alloc: Global,
    desk: &mut D,
    script: &[u8],
    shelf: &mut S,
    report: &mut K,
) -> Status
    requires in_step { D.in_step desk.old }
    requires stamps { (D.plain desk.old).graph.stamps + 2 ^ 24 * (length script.now + 1)
        ≤ MAX_STAMP }
    ensures plays { let before : Counts =
        record { writes = K.faults report.old; stores = S.store_faults shelf.old } in
        let now : Counts =
        record { writes = K.faults report.new; stores = S.store_faults shelf.new } in
        (files : Files) → S.files shelf.old ≡ Some files → (out : List ℕ) × (left : Files)
        × Took (K.taken report.old) (K.taken report.new) out × (S.files shelf.new ≡ Some left)
        × Plays Answers load outcome.Desk (D.plain desk.old) files (lines_of script.now)
        (record {
          out = out;
          files = left;
          handed = handed_at result (D.plain desk.new);
          before = before;
          now = now;
        }) result }
    ensures in_step { D.in_step desk.new }
    ensures status { IsAnswered result ⊎ (result ≡ Status.WriteFault) }
    ensures cause { result ≡ Status.WriteFault → Rose (K.faults report.old) (K.faults report.new)
        ⊎ ((name : List ℕ) × Rose (S.store_faults shelf.old name) (S.store_faults shelf.new name)) }
    ensures writes { K.faults report.old ≤ K.faults report.new }
    ensures stores { NeverFall (S.store_faults shelf.old) (S.store_faults shelf.new) }
    ensures quiet { EndsByFault result
        ⊎ (StayedSame (S.read_faults shelf.old) (S.read_faults shelf.new)
        × StayedSame (S.store_faults shelf.old) (S.store_faults shelf.new)
        × (K.faults report.new ≡ K.faults report.old)) }
{
    let mut rest = script;
    let mut number: u64 = 0;
    let mut refused = false;
    'script: while let Some((line, after)) = next_line(rest) {
        let Ok(found) = answer_line(alloc, desk, line) else {
            return Status::Memory;
        };
        if let Some(answer) = found {
            let Ok(text) = answer_bytes(alloc, number + 1, &answer) else {
                return Status::Memory;
            };
            if hand_over(&answer, text.as_slice(), shelf, report).is_err() {
                return Status::WriteFault;
            }
            refused |= is_refused(&answer);
            drop(answer);
        }
        number += 1;
        rest = after;
    }
    if refused {
        Status::SomeRefused
    } else {
        Status::Done
    }
}
