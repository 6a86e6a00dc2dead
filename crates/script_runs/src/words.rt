//! What the words ask for.

ghost use Rattle.std.specs.Prelude.{◌≡◌, ◌↔◌, ◌⊎◌, ℕ, [], List, Some, IfSome, IfNone};
ghost use Rattle.std.specs.Prelude.{IsSome, IsTrue};
ghost use Rattle.edge_io.specs.Causes.{Rose, StayedSame};
ghost use Rattle.edge_io.specs.Files.{Files, Took};
ghost use Rattle.plain_machine.specs.Built.{Answers};
ghost use Rattle.plain_machine.specs.Words.{RunOn, Asks, IsFileName, contents};
ghost use Rattle.plain_machine.specs.Inputs.{ReadRose};
ghost use Rattle.plain_machine.specs.Outcome.{Counts, Ends, EndsUsage};
ghost use Rattle.plain_machine.specs.Statuses.{EndsByFault};
ghost use Rattle.script_runs.specs.Handing.{EndsWhole, handed_by, kept_at};

use crate::desk::Desk;
use crate::opening::{Opened, open_files};
use crate::script::run_script;
use edge_io::{Shelf, Sink, write_piece};
use plain_machine::Status;
use std::alloc::Global;

const USAGE: &[u8] = b"usage: lgdesk run GRAPH SCRIPT | make SEED N M | drill SEED K\n";

/// Writes the line on how to use the program.
pub fn refuse_words<K: Sink>(report: &mut K) -> Status
    ensures ends { (out : List ℕ) × Took (K.taken report.old) (K.taken report.new) out
        × EndsUsage out (K.faults report.old) (K.faults report.new) result }
    ensures quiet { EndsByFault result ⊎ (K.faults report.new ≡ K.faults report.old) }
{
    if write_piece(report, USAGE).is_err() {
        Status::WriteFault
    } else {
        Status::Usage
    }
}

/// Reads the two files, and runs the script on the graph with these boxes, on any kind of world.
/// The world is handed back where all lines were answered.
pub fn run_files<D: Desk, S: Shelf, K: Sink>(
    alloc: Global,
    graph: &[u8],
    script: &[u8],
    shelf: &mut S,
    report: &mut K,
    pool: D::Pool,
) -> (Status, Option<D>)
    requires { D.untold pool }
    ensures ends { let before : Counts =
        record { writes = K.faults report.old; stores = S.store_faults shelf.old } in
        let now : Counts =
        record { writes = K.faults report.new; stores = S.store_faults shelf.new } in
        (files : Files) → S.files shelf.old ≡ Some files → (out : List ℕ) × (left : Files)
        × Took (K.taken report.old) (K.taken report.new) out × (S.files shelf.new ≡ Some left)
        × Ends Answers (D.kinds pool) files (RunOn graph.now script.now)
        (record {
          out = out;
          files = left;
          handed = handed_by D.plain result.1;
          before = before;
          now = now;
        }) result.0 }
    ensures handed { IsSome result.1 ↔ EndsWhole result.0 }
    ensures in_step { IfSome result.1 D.in_step }
    ensures asked { result.0 ≡ Status.Usage → ⊥ }
    ensures read { result.0 ≡ Status.ReadFault
        → ReadRose (S.files shelf.old) graph.now script.now (S.read_faults shelf.old)
        (S.read_faults shelf.new)
        × Took (K.taken report.old) (K.taken report.new) []
        × (S.files shelf.new ≡ S.files shelf.old) }
    ensures write { result.0 ≡ Status.WriteFault
        → Rose (K.faults report.old) (K.faults report.new)
        ⊎ ((name : List ℕ) × Rose (S.store_faults shelf.old name) (S.store_faults shelf.new name)) }
    ensures quiet { EndsByFault result.0
        ⊎ (StayedSame (S.read_faults shelf.old) (S.read_faults shelf.new)
        × StayedSame (S.store_faults shelf.old) (S.store_faults shelf.new)
        × (K.faults report.new ≡ K.faults report.old)) }
{
    match open_files::<D, S, K>(alloc, graph, script, shelf, report, pool) {
        Err(status) => (status, None),
        Ok(opened) => {
            let Opened { mut desk, text } = opened;
            let status = run_script(alloc, &mut desk, text.as_slice(), shelf, report);
            (status, handed_back(status, desk))
        }
    }
}

// The world, where all lines were answered.
fn handed_back<D: Drop>(status: Status, desk: D) -> Option<D>
    ensures { result ≡ kept_at status desk }
{
    match status {
        Status::Done => Some(desk),
        Status::SomeRefused => Some(desk),
        _ => None,
    }
}

/// The names of the graph and of the script, where the words have that shape.
pub fn run_names(words: &[Vec<u8>]) -> Option<(&[u8], &[u8])>
    ensures some { IfSome result (λ names.
        Asks (contents words.now) (RunOn names.0.now names.1.now)) }
    ensures none { IfNone result ((graph script : List ℕ)
        → Asks (contents words.now) (RunOn graph script) → ⊥) }
{
    let [first, graph, script] = words else {
        return None;
    };
    if first.as_slice() == b"run".as_slice()
        && is_file_name(graph.as_slice())
        && is_file_name(script.as_slice())
    {
        Some((graph.as_slice(), script.as_slice()))
    } else {
        None
    }
}

// Whether the name isn't empty and doesn't begin with a dash.
fn is_file_name(name: &[u8]) -> bool
    ensures { IsTrue result ↔ IsFileName name.now }
{
    match name {
        [] => false,
        [first, ..] => *first != b'-',
    }
}
