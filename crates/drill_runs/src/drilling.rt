//! A drill is run, and says what it came to.

ghost use Rattle.std.specs.Prelude.{◌≡◌, ◌↔◌, ◌⊎◌, ◌<◌, ◌≤◌, ℕ, List, IfOk, IfSome, IsSome};
ghost use Rattle.edge_io.specs.Files.{Took};
ghost use Rattle.plain_machine.specs.Built.{Answers};
ghost use Rattle.plain_machine.specs.Drill as spec;
ghost use Rattle.plain_machine.specs.Outcome.{EndsDrill};
ghost use Rattle.plain_machine.specs.Statuses.{EndsByFault};
ghost use Rattle.script_runs.specs.Handing.{handed_by};

use crate::opening::open_graph;
use crate::playing::{answer_drawn, answer_first};
use crate::texts::drill_bytes;
use base_items::ItemSort;
use edge_io::{Sink, write_piece};
use plain_machine::Status;
use script_runs::Desk;
use std::alloc::{AllocError, Global};

// The world after the last line, and the line that says what was counted.
#[derive(Drop)]
struct Drilled<D> {
    desk: D,
    text: Vec<u8>,
}

// Answers all lines.
fn run_lines<D: Desk>(
    alloc: Global,
    seed: u32,
    lines: u32,
    pool: D::Pool,
) -> Result<Drilled<D>, AllocError>
    requires seed { seed < 2147483647 }
    requires lines { lines ≤ 100000 }
    requires untold { D.untold pool }
    ensures drilled { IfOk result (λ drilled. spec.Drilled Answers (D.kinds pool) seed lines
        (D.plain drilled.desk) drilled.text.items) }
    ensures in_step { IfOk result (λ drilled. D.in_step drilled.desk) }
{
    let mut desk = open_graph::<D>(alloc, seed, pool)?;
    answer_first(alloc, &mut desk)?;
    let counts = answer_drawn(alloc, &mut desk, seed, lines)?;
    let nodes = desk.live(ItemSort::Node);
    let arcs = desk.live(ItemSort::Arc);
    let text = drill_bytes(alloc, counts.accepted, counts.refused, nodes, arcs)?;
    Ok(Drilled { desk, text })
}

/// Runs a drill with these boxes, on any kind of world: so many lines that are drawn from a seed,
/// on the graph of that seed. Writes how many lines were accepted and how many refused, and how
/// many nodes and arcs there are in the end.
///
/// `Done`, with the world after the last line, where the line went out. `WriteFault` leaves the
/// front of it, and `Memory` nothing.
pub fn drill<D: Desk, K: Sink>(
    alloc: Global,
    report: &mut K,
    seed: u32,
    lines: u32,
    pool: D::Pool,
) -> (Status, Option<D>)
    requires seed { seed < 2147483647 }
    requires lines { lines ≤ 100000 }
    requires untold { D.untold pool }
    ensures ends { (out : List ℕ) × Took (K.taken report.old) (K.taken report.new) out
        × EndsDrill Answers (D.kinds pool) seed lines out (handed_by D.plain result.1)
        (K.faults report.old) (K.faults report.new) result.0 }
    ensures handed { IsSome result.1 ↔ (result.0 ≡ Status.Done) }
    ensures in_step { IfSome result.1 D.in_step }
    ensures quiet { EndsByFault result.0 ⊎ (K.faults report.new ≡ K.faults report.old) }
{
    let Ok(drilled) = run_lines::<D>(alloc, seed, lines, pool) else {
        return (Status::Memory, None);
    };
    let Drilled { desk, text } = drilled;
    if write_piece(report, text.as_slice()).is_err() {
        (Status::WriteFault, None)
    } else {
        (Status::Done, Some(desk))
    }
}
