//! Words that name no files.

ghost use Rattle.std.specs.Prelude.{◌≡◌, ◌↔◌, ◌⊎◌, ℕ, List, IfSome, IsSome};
ghost use Rattle.edge_io.specs.Files.{Took};
ghost use Rattle.plain_digraph.specs.Lists.{AllOf};
ghost use Rattle.plain_machine.specs.Words.{RunOn, Asks, AsksDrill, contents};
ghost use Rattle.plain_machine.specs.Statuses.{EndsByFault};
ghost use Rattle.script_runs.specs.Handing.{handed_by};
ghost use Rattle.desk_world.specs.InStep.{IsInStep};
ghost use Rattle.desk_world.specs.Plain.{kinds_of, plain_of};
ghost use Rattle.lemon_desk.specs.Found.{found_in};
ghost use Rattle.lemon_desk.specs.Pool.{IsUntoldGuard};
ghost use Rattle.lemon_desk.specs.Unfiled.{EndsUnfiled, EndsWritten};

use crate::boxed::Boxed;
use crate::desk::{Final, Played, as_final, wrap_boxes};
use desk_seats::Seat;
use drill_runs::{drill, drill_words};
use edge_io::Sink;
use graph_maker::{make_graph, make_words};
use observe_core::Observer;
use plain_machine::Status;
use script_runs::refuse_words;
use std::alloc::Global;

// Writes the graph that the words ask for, or where they ask for none, how to use the program.
fn write_asked<K: Sink>(alloc: Global, words: &[Vec<u8>], report: &mut K) -> Status
    requires run { (graph script : List ℕ) → Asks (contents words.now) (RunOn graph script) → ⊥ }
    requires drill { (seed lines : ℕ) → AsksDrill (contents words.now) seed lines → ⊥ }
    ensures ends { (out : List ℕ) × Took (K.taken report.old) (K.taken report.new) out
        × EndsWritten (contents words.now) out (K.faults report.old) (K.faults report.new) result }
    ensures quiet { EndsByFault result ⊎ (K.faults report.new ≡ K.faults report.old) }
{
    match make_words(words) {
        Some(wanted) => make_graph(alloc, report, wanted.seed, wanted.nodes, wanted.arcs),
        None => refuse_words(report),
    }
}

/// Runs the drill that the words ask for; else writes the graph that they ask for, or how to use
/// the program.
pub fn answer_unfiled<K: Sink>(
    alloc: Global,
    words: &[Vec<u8>],
    report: &mut K,
    pool: Vec<Box<dyn Observer>>,
) -> (Status, Final)
    requires run { (graph script : List ℕ) → Asks (contents words.now) (RunOn graph script) → ⊥ }
    requires untold { AllOf (λ it. IsUntoldGuard (watch it).seen) pool.items }
    ensures ends { (out : List ℕ) × Took (K.taken report.old) (K.taken report.new) out
        × EndsUnfiled (contents words.now) (kinds_of (λ it. watch it) pool.items) out
        (handed_by (plain_of ⟦<Seat<Boxed> as Observer>⟧.watch) (found_in result.1))
        (K.faults report.old) (K.faults report.new) result.0 }
    ensures handed { IsSome (found_in result.1) ↔ ((seed : ℕ) × (lines : ℕ)
        × AsksDrill (contents words.now) seed lines × (result.0 ≡ Status.Done)) }
    ensures in_step { IfSome (found_in result.1) (IsInStep ⟦<Seat<Boxed> as Observer>⟧.watch) }
    ensures quiet { EndsByFault result.0 ⊎ (K.faults report.new ≡ K.faults report.old) }
{
    let Some(wanted) = drill_words(words) else {
        return (write_asked(alloc, words, report), Final::Nothing);
    };
    let Ok(boxes) = wrap_boxes(alloc, pool) else {
        return (Status::Memory, Final::Nothing);
    };
    let (status, found) = drill::<Played<Boxed>, K>(
        alloc,
        report,
        wanted.seed,
        wanted.lines,
        boxes,
    );
    (status, as_final(found))
}
