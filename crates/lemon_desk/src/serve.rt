//! All that the program does.

ghost use Rattle.std.specs.Prelude.{◌≡◌, ◌↔◌, ◌⊎◌, ℕ, [], List, Some, IfSome, IsSome};
ghost use Rattle.edge_io.specs.Causes.{Rose, StayedSame};
ghost use Rattle.edge_io.specs.Files.{Files, HoldsWithin, Took};
ghost use Rattle.token_text.specs.Lines.{lines_of};
ghost use Rattle.lgf_file.specs.Documents.{Spells};
ghost use Rattle.lgf_file.specs.declared.documents.Doc.{Doc as Document};
ghost use Rattle.lgf_file.specs.Plain.{plain};
ghost use Rattle.plain_machine.specs.Generator.{made};
ghost use Rattle.plain_machine.specs.Built.{Answers};
ghost use Rattle.plain_machine.specs.Words.{RunOn, MakeOf, DrillOf, Asks, AskNothing, contents};
ghost use Rattle.plain_machine.specs.Inputs.{HasGraph, HasTooLong, LacksNeeded, ReadRose, SavesTo};
ghost use Rattle.plain_machine.specs.Outcome.{Counts, Outcome, EndsUsage, EndsText, EndsDrill};
ghost use Rattle.plain_machine.specs.Outcome.{IsAnswered, EndsEarly};
ghost use Rattle.plain_machine.specs.Statuses.{EndsByFault};
ghost use Rattle.plain_digraph.specs.Lists.{AllOf};
ghost use Rattle.desk_world.specs.InStep.{IsInStep};
ghost use Rattle.desk_world.specs.Plain.{kinds_of, plain_of};
ghost use Rattle.script_runs.specs.Handing.{EndsWhole, handed_by};
ghost use Rattle.lemon_desk.specs.Found.{found_in};
ghost use Rattle.lemon_desk.specs.Pool.{IsUntoldGuard};
ghost use Rattle.lemon_desk.specs.Told.{AllTrack};

use crate::boxed::Boxed;
use crate::desk::{Final, Played, as_final, wrap_boxes};
use crate::unfiled::answer_unfiled;
use desk_seats::Seat;
use edge_io::{Shelf, Sink};
use observe_core::Observer;
use plain_machine::{GRAPH_LIMIT, SCRIPT_LIMIT, Status};
use script_runs::{run_files, run_names};
use std::alloc::Global;

/// Runs a script on a graph, makes a graph from a seed, or runs a drill, and writes to the report.
///
/// The words are those after the program's name: `run`, the name of the graph file and the name of
/// the script; or `make`, a seed from 1 to 2147483646 and how many nodes and arcs there are to be,
/// from 1 to 100000 and from 0 to 400000; or `drill`, such a seed and how many lines are drawn,
/// from 0 to 100000. The pool has the guards that a script may attach; each has to be one that
/// tracks nothing. What went out, the files, the status and the world that is handed back are an
/// outcome of the plain machine for these words, boxes and files. A fault of the outside comes only
/// where the count of that file, or of the report, rose in this call. Want of memory may come at
/// any place.
pub fn serve<S: Shelf, K: Sink>(
    alloc: Global,
    words: &[Vec<u8>],
    shelf: &mut S,
    report: &mut K,
    pool: Vec<Box<dyn Observer>>,
) -> (Status, Final)
    // Each box is a guard that tracks nothing.
    requires { AllOf (λ it. IsUntoldGuard (watch it).seen) pool.items }

    // What went out, the files afterwards, the world that is handed back and the status are an
    // outcome of the words, the boxes and the files.
    ensures outcome { let before : Counts =
        record { writes = K.faults report.old; stores = S.store_faults shelf.old } in
        let now : Counts =
        record { writes = K.faults report.new; stores = S.store_faults shelf.new } in
        (files : Files) → S.files shelf.old ≡ Some files → (out : List ℕ) × (left : Files)
        × Took (K.taken report.old) (K.taken report.new) out × (S.files shelf.new ≡ Some left)
        × Outcome (contents words.now) (kinds_of (λ it. watch it) pool.items) files
        (record {
          out = out;
          files = left;
          handed = handed_by (plain_of ⟦<Seat<Boxed> as Observer>⟧.watch) (found_in result.1);
          before = before;
          now = now;
        }) result.0 }
    // A world is handed back exactly where the words have the shape of a run and all lines were
    // answered, or that of a drill and its line went out. Its seats are in step with its digraph
    // and its tables.
    ensures handed { IsSome (found_in result.1)
        ↔ (((graph : List ℕ) × (script : List ℕ) × Asks (contents words.now) (RunOn graph script)
        × EndsWhole result.0)
        ⊎ ((seed : ℕ) × (lines : ℕ) × Asks (contents words.now) (DrillOf seed lines)
        × (result.0 ≡ Status.Done))) }
    ensures in_step { IfSome (found_in result.1)
        (IsInStep ⟦<Seat<Boxed> as Observer>⟧.watch) }
    // What each guard in it tracks is exactly the live items of its sort, and its law holds of
    // them.
    ensures told { IfSome (found_in result.1)
        (AllTrack ⟦<Seat<Boxed> as Observer>⟧.watch) }

    // Usage exactly where the words have no shape and the usage line was written. No file is
    // stored.
    ensures usage { result.0 ≡ Status.Usage → AskNothing (contents words.now) }
    ensures shapeless { AskNothing (contents words.now) → (out : List ℕ)
        × Took (K.taken report.old) (K.taken report.new) out
        × EndsUsage out (K.faults report.old) (K.faults report.new) result.0
        × (S.files shelf.new ≡ S.files shelf.old) }
    // Where the words ask for a graph, its text goes out, or a prefix of it before a write failed
    // or memory ran out. No file is stored.
    ensures made { (seed nodes arcs : ℕ) → Asks (contents words.now) (MakeOf seed nodes arcs)
        → (out : List ℕ) × Took (K.taken report.old) (K.taken report.new) out
        × EndsText (plain (made seed nodes arcs)) out (K.faults report.old) (K.faults report.new)
        result.0
        × (S.files shelf.new ≡ S.files shelf.old) }
    // Where the words ask for a drill, its line goes out and its world is handed back, or a prefix
    // of the line goes out before a write failed, or nothing where memory ran out. No file is
    // stored.
    ensures drilled { (seed lines : ℕ) → Asks (contents words.now) (DrillOf seed lines)
        → (out : List ℕ) × Took (K.taken report.old) (K.taken report.new) out
        × EndsDrill Answers (kinds_of (λ it. watch it) pool.items) seed lines out
        (handed_by (plain_of ⟦<Seat<Boxed> as Observer>⟧.watch) (found_in result.1))
        (K.faults report.old) (K.faults report.new) result.0
        × (S.files shelf.new ≡ S.files shelf.old) }
    // A read fault only where the count of a file whose bytes are needed rose; nothing went out,
    // and no file is stored.
    ensures read { result.0 ≡ Status.ReadFault → (graph : List ℕ) × (script : List ℕ)
        × Asks (contents words.now) (RunOn graph script)
        × ReadRose (S.files shelf.old) graph script (S.read_faults shelf.old)
        (S.read_faults shelf.new)
        × Took (K.taken report.old) (K.taken report.new) []
        × (S.files shelf.new ≡ S.files shelf.old) }
    // A write fault only where the count of the report rose, or that of the stores to a file.
    ensures write { result.0 ≡ Status.WriteFault → Rose (K.faults report.old) (K.faults report.new)
        ⊎ ((name : List ℕ) × Rose (S.store_faults shelf.old name) (S.store_faults shelf.new name)) }
    // The first call of the outside that fails ends the run: on any other status no count has
    // changed.
    ensures quiet { EndsByFault result.0
        ⊎ (StayedSame (S.read_faults shelf.old) (S.read_faults shelf.new)
        × StayedSame (S.store_faults shelf.old) (S.store_faults shelf.new)
        × (K.faults report.new ≡ K.faults report.old)) }

    // Where a needed file is missing: a read fault, or memory ran out. Nothing went out, and no
    // file is stored.
    ensures lacking { (files : Files) (graph script : List ℕ) → S.files shelf.old ≡ Some files
        → Asks (contents words.now) (RunOn graph script) → LacksNeeded files graph script
        → ((result.0 ≡ Status.ReadFault) ⊎ (result.0 ≡ Status.Memory))
        × Took (K.taken report.old) (K.taken report.new) [] × (S.files shelf.new ≡ Some files) }
    // Where a needed file is too long, the run says so, if it doesn't end early.
    ensures too_long { (files : Files) (graph script : List ℕ) → S.files shelf.old ≡ Some files
        → Asks (contents words.now) (RunOn graph script) → HasTooLong files graph script
        → (result.0 ≡ Status.TooLong) ⊎ EndsEarly result.0 }
    // Where the graph file spells no document, the run says so, if it doesn't end early.
    ensures bad_graph { (files : Files) (graph script bytes : List ℕ)
        → S.files shelf.old ≡ Some files → Asks (contents words.now) (RunOn graph script)
        → HoldsWithin files graph GRAPH_LIMIT bytes
        → ((doc : Document) → Spells bytes doc → ⊥)
        → (result.0 ≡ Status.BadGraph) ⊎ EndsEarly result.0 }
    // Where both files are as they should be and no count rose, all lines were answered. Of the
    // counts of stores those of the files count that a line saves to.
    ensures complete { (files : Files) (graph script text : List ℕ) (doc : Document)
        → S.files shelf.old ≡ Some files → Asks (contents words.now) (RunOn graph script)
        → HasGraph files graph doc → HoldsWithin files script SCRIPT_LIMIT text
        → (Rose (S.read_faults shelf.old graph) (S.read_faults shelf.new graph) → ⊥)
        → (Rose (S.read_faults shelf.old script) (S.read_faults shelf.new script) → ⊥)
        → ((name : List ℕ) → SavesTo (lines_of text) name
        → Rose (S.store_faults shelf.old name) (S.store_faults shelf.new name) → ⊥)
        → (Rose (K.faults report.old) (K.faults report.new) → ⊥) → IsAnswered result.0 }
{
    let Some((graph, script)) = run_names(words) else {
        return answer_unfiled(alloc, words, report, pool);
    };
    let Ok(boxes) = wrap_boxes(alloc, pool) else {
        return (Status::Memory, Final::Nothing);
    };
    let (status, found) = run_files::<Played<Boxed>, S, K>(
        alloc, graph, script, shelf, report, boxes,
    );
    (status, as_final(found))
}
