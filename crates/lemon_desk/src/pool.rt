//! The guards that the program has ready.

ghost use Rattle.std.specs.Prelude.{◌≡◌, ◌≢◌, ℕ, List, Some, IfOk, OnErr, is_some};
ghost use Rattle.edge_io.specs.Files.{Files, Took};
ghost use Rattle.observe_core.specs.declared.kinds.Kind.TheVariants.{Map};
ghost use Rattle.plain_machine.specs.Words.{contents};
ghost use Rattle.plain_machine.specs.Outcome.{Counts, Handed, Outcome};
ghost use Rattle.desk_world.specs.Plain.{word_of};
ghost use Rattle.lemon_desk.specs.Found.{found_in};
ghost use Rattle.lemon_desk.specs.Pool.{all_boxes, kind_at};

use crate::desk::Final;
use crate::serve::serve;
use edge_io::{Shelf, Sink};
use guard_kinds::Guard;
use observe_core::{Kind, Observer};
use plain_machine::Status;
use std::alloc::{AllocError, Global};

// How many boxes there are: sixteen of each of the six kinds.
const BOXES: u32 = 96;

// The kind of the box at a place.
fn kind_at(place: u32) -> Kind
    ensures kind { word_of result ≡ kind_at place }
    ensures guard { result ≢ Map }
{
    match place % 6 {
        0 => Kind::Quota,
        1 => Kind::Loopless,
        2 => Kind::Simple,
        3 => Kind::OutCap,
        4 => Kind::Fuse,
        _ => Kind::Tally,
    }
}

// Whether it is a world.
fn is_world(last: Final) -> bool
    ensures { result ≡ is_some (found_in last) }
{
    match last {
        Final::Nothing => false,
        Final::Desk(_) => true,
    }
}

/// Runs a script on a graph as [`serve`](crate::serve::serve) does, with sixteen boxes of each of
/// the six kinds of guards. The status, and whether a world was handed back.
///
/// The error is want of memory for the boxes. Nothing was read or written then.
pub fn serve_with_boxes<S: Shelf, K: Sink>(
    alloc: Global,
    words: &[Vec<u8>],
    shelf: &mut S,
    report: &mut K,
) -> Result<(Status, bool), AllocError>
    // What went out, the files afterwards and the status are an outcome of the words, all boxes and
    // the files.
    ensures outcome { let before : Counts =
        record { writes = K.faults report.old; stores = S.store_faults shelf.old } in
        let now : Counts =
        record { writes = K.faults report.new; stores = S.store_faults shelf.new } in
        IfOk result (λ end. (files : Files) → S.files shelf.old ≡ Some files → (out : List ℕ)
        × (left : Files) × (handed : Handed) × Took (K.taken report.old) (K.taken report.new) out
        × (S.files shelf.new ≡ Some left)
        × Outcome (contents words.now) all_boxes files (record {
          out = out;
          files = left;
          handed = handed;
          before = before;
          now = now;
        }) end.0) }
    ensures nothing { OnErr result ((shelf.new ≡ shelf.old) × (report.new ≡ report.old)) }
{
    let mut pool: Vec<Box<dyn Observer>> = Vec::new(alloc);
    for place in 0..BOXES {
        pool.push(Box::new(alloc, Guard::new(kind_at(place), alloc))?)?;
    }
    let (status, last) = serve(alloc, words, shelf, report, pool);
    Ok((status, is_world(last)))
}
