//! The graph of a drill.

ghost use Rattle.std.specs.Prelude.{◌≡◌, ◌+◌, ◌<◌, ◌≤◌, IfOk};
ghost use Rattle.plain_world.specs.Documents.{load as loaded_of};
ghost use Rattle.plain_machine.specs.Generator.{made};

use base_items::{MAX_ARCS, MAX_NODES};
use edge_io::MemSink;
use graph_maker::make_graph;
use lgf_file::{Doc, read_doc};
use plain_machine::Status;
use script_runs::Desk;
use std::alloc::{AllocError, Global};

/// How many nodes and arcs the graph of a drill has.
const NODES: u32 = 100;

const ARCS: u32 = 400;

// The graph of a seed as a document.
fn made_doc(alloc: Global, seed: u32) -> Result<Doc, AllocError>
    requires { seed < 2147483647 }
    ensures { IfOk result (λ doc. doc ≡ made seed 100 400) }
{
    let mut text = MemSink::new(alloc);
    match make_graph(alloc, &mut text, seed, NODES, ARCS) {
        Status::Done => {}
        _ => return Err(AllocError),
    }
    match read_doc(alloc, text.taken()) {
        Ok(doc) => Ok(doc),
        Err(_) => Err(AllocError),
    }
}

/// The world of the graph of a seed, with these boxes.
pub fn open_graph<D: Desk>(alloc: Global, seed: u32, pool: D::Pool) -> Result<D, AllocError>
    requires seed { seed < 2147483647 }
    requires untold { D.untold pool }
    ensures loaded { IfOk result (λ desk.
        D.plain desk ≡ loaded_of (made seed 100 400) (D.kinds pool)) }
    ensures in_step { IfOk result D.in_step }
    ensures stamps { IfOk result (λ desk. (D.plain desk).graph.stamps ≤ MAX_NODES + MAX_ARCS) }
{
    let doc = made_doc(alloc, seed)?;
    D::load(alloc, doc, pool)
}
