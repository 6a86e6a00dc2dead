//! The two files of a run are read, and the world of the graph is made.

ghost use Rattle.std.specs.Prelude.{◌≡◌, ◌+◌, ◌≤◌, ◌⊎◌, ℕ, [], List, Some, length};
ghost use Rattle.std.specs.Prelude.{IfOk, IfErr, OnOk};
ghost use Rattle.edge_io.specs.Causes.{Rose, NeverFall, StayedSame};
ghost use Rattle.edge_io.specs.Files.{Files, Took};
ghost use Rattle.plain_machine.specs.Built.{Answers};
ghost use Rattle.plain_machine.specs.Words.{RunOn};
ghost use Rattle.plain_machine.specs.Inputs.{ReadRose};
ghost use Rattle.plain_machine.specs.Outcome.{Counts, Ends, Nothing};
ghost use Rattle.plain_machine.specs.Statuses.{EndsByFault};
ghost use Rattle.script_runs.specs.Opening.{Opens, EndsUnopened};
ghost use Rattle.script_runs.specs.Refused.{RefusesGraph};

use crate::desk::Desk;
use crate::graph_faults::graph_fault_bytes;
use base_items::{MAX_ARCS, MAX_NODES};
use edge_io::{InFault, Shelf, Sink, read_whole, write_piece};
use lgf_file::{DocFault, LgfFault, read_doc};
use plain_machine::{GRAPH_LIMIT, SCRIPT_LIMIT, Status};
use std::alloc::Global;

/// The world of a graph file, and the text of a script.
#[derive(Drop)]
pub struct Opened<D> {
    pub desk: D,
    pub text: Vec<u8>,
}

/// Reads the two files, and makes the world of the graph with these boxes. The error is the status
/// with which the run ends before its first line; where the graph file is none, why was written.
pub fn open_files<D: Desk, S: Shelf, K: Sink>(
    alloc: Global,
    graph: &[u8],
    script: &[u8],
    shelf: &mut S,
    report: &mut K,
    pool: D::Pool,
) -> Result<Opened<D>, Status>
    requires { D.untold pool }
    ensures opened { IfOk result (λ opened. (files : Files) → S.files shelf.old ≡ Some files
        → Opens files graph.now script.now (D.kinds pool) (D.plain opened.desk)
        opened.text.items) }
    ensures in_step { IfOk result (λ opened. D.in_step opened.desk) }
    ensures stamps { IfOk result (λ opened.
        (D.plain opened.desk).graph.stamps ≤ MAX_NODES + MAX_ARCS) }
    ensures within { IfOk result (λ opened. length opened.text.items ≤ SCRIPT_LIMIT) }
    ensures kept { OnOk result (S.files shelf.new ≡ S.files shelf.old) }
    ensures ends { let before : Counts =
        record { writes = K.faults report.old; stores = S.store_faults shelf.old } in
        let now : Counts =
        record { writes = K.faults report.new; stores = S.store_faults shelf.new } in
        IfErr result (λ status.
        (files : Files) → S.files shelf.old ≡ Some files → (out : List ℕ) × (left : Files)
        × Took (K.taken report.old) (K.taken report.new) out × (S.files shelf.new ≡ Some left)
        × Ends Answers (D.kinds pool) files (RunOn graph.now script.now)
        (record { out = out; files = left; handed = Nothing; before = before; now = now })
        status) }
    ensures unopened { IfErr result EndsUnopened }
    ensures read { IfErr result (λ status. status ≡ Status.ReadFault
        → ReadRose (S.files shelf.old) graph.now script.now (S.read_faults shelf.old)
        (S.read_faults shelf.new)
        × Took (K.taken report.old) (K.taken report.new) []
        × (S.files shelf.new ≡ S.files shelf.old)) }
    ensures write { IfErr result (λ status. status ≡ Status.WriteFault
        → Rose (K.faults report.old) (K.faults report.new)) }
    ensures quiet { IfErr result (λ status. EndsByFault status
        ⊎ (StayedSame (S.read_faults shelf.old) (S.read_faults shelf.new)
        × StayedSame (S.store_faults shelf.old) (S.store_faults shelf.new)
        × (K.faults report.new ≡ K.faults report.old))) }
    ensures still { OnOk result (StayedSame (S.read_faults shelf.old) (S.read_faults shelf.new)
        × StayedSame (S.store_faults shelf.old) (S.store_faults shelf.new)
        × (K.faults report.new ≡ K.faults report.old)
        × (K.taken report.new ≡ K.taken report.old)) }
{
    let bytes = match read_whole(alloc, shelf, graph, GRAPH_LIMIT) {
        Ok(bytes) => bytes,
        Err(InFault::Failed) => return Err(Status::ReadFault),
        Err(InFault::TooLong) => return Err(Status::TooLong),
        Err(InFault::Memory) => return Err(Status::Memory),
    };
    let doc = match read_doc(alloc, bytes.as_slice()) {
        Ok(doc) => doc,
        Err(DocFault::Lgf(fault)) => return Err(refuse_graph(alloc, &fault, report)),
        Err(DocFault::Memory) => return Err(Status::Memory),
    };
    drop(bytes);
    let text = match read_whole(alloc, shelf, script, SCRIPT_LIMIT) {
        Ok(text) => text,
        Err(InFault::Failed) => return Err(Status::ReadFault),
        Err(InFault::TooLong) => return Err(Status::TooLong),
        Err(InFault::Memory) => return Err(Status::Memory),
    };
    match D::load(alloc, doc, pool) {
        Ok(desk) => Ok(Opened { desk, text }),
        Err(_) => Err(Status::Memory),
    }
}

// Writes why the graph file is none.
fn refuse_graph<K: Sink>(alloc: Global, fault: &LgfFault, report: &mut K) -> Status
    ensures told { (out : List ℕ) × Took (K.taken report.old) (K.taken report.new) out
        × RefusesGraph fault.now out (K.faults report.old) (K.faults report.new) result }
    ensures writes { K.faults report.old ≤ K.faults report.new }
    ensures quiet { EndsByFault result ⊎ (K.faults report.new ≡ K.faults report.old) }
{
    let Ok(text) = graph_fault_bytes(alloc, fault) else {
        return Status::Memory;
    };
    if write_piece(report, text.as_slice()).is_err() {
        Status::WriteFault
    } else {
        Status::BadGraph
    }
}
