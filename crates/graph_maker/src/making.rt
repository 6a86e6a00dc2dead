//! A graph from a seed goes out line by line.

ghost use Rattle.std.specs.Prelude.{◌≡◌, ◌⊎◌, ◌<◌, ◌≤◌, ◌++◌, ℕ, List, IfErr, OnOk};
ghost use Rattle.edge_io.specs.Files.{Took};
ghost use Rattle.lgf_file.specs.Plain.{plain};
ghost use Rattle.plain_machine.specs.Generator.{made};
ghost use Rattle.plain_machine.specs.Outcome.{EndsText};
ghost use Rattle.plain_machine.specs.Statuses.{EndsByFault};
ghost use Rattle.graph_maker.specs.Cells as cells;
ghost use Rattle.graph_maker.specs.Sending.{Sends, Stops};

use crate::cells::{push_arc, push_node};
use crate::draws::Draws;
use crate::sending::{send, send_piece, send_text};
use edge_io::Sink;
use plain_machine::Status;
use std::alloc::Global;

const NODES_HEAD: &[u8] = b"@nodes\nlabel\t\n";

const ARCS_HEAD: &[u8] = b"@arcs\n\t\tlabel\tcap\tcost\t\n";

/// Sends the line of a node.
fn send_node<K: Sink>(report: &mut K, held: &mut Vec<u8>, node: u32) -> Result<(), Status>
    ensures sent { OnOk result (Sends (K.taken report.old) (K.taken report.new)
        held.old.items held.new.items (cells.node_line node)) }
    ensures stopped { IfErr result (Stops (K.taken report.old) (K.taken report.new)
        (held.old.items ++ cells.node_line node) (K.faults report.old) (K.faults report.new)) }
    ensures quiet { OnOk result (K.faults report.new ≡ K.faults report.old) }
{
    match push_node(held, node) {
        Err(_) => Err(Status::Memory),
        Ok(()) => send_piece(report, held),
    }
}

/// Sends the lines of the nodes.
fn send_nodes<K: Sink>(report: &mut K, held: &mut Vec<u8>, nodes: u32) -> Result<(), Status>
    ensures sent { OnOk result (Sends (K.taken report.old) (K.taken report.new)
        held.old.items held.new.items (cells.nodes_text nodes)) }
    ensures stopped { IfErr result (Stops (K.taken report.old) (K.taken report.new)
        (held.old.items ++ cells.nodes_text nodes) (K.faults report.old) (K.faults report.new)) }
    ensures quiet { OnOk result (K.faults report.new ≡ K.faults report.old) }
{
    let mut node = 0;
    while node < nodes {
        send_node(report, held, node)?;
        node += 1;
    }
    Ok(())
}

/// Draws an arc, and sends its line.
fn send_arc<K: Sink>(
    report: &mut K,
    held: &mut Vec<u8>,
    draws: &mut Draws,
    arc: u32,
    nodes: u32,
) -> Result<(), Status>
    requires state { draws.old.state < 2147483647 }
    requires nodes { 0 < nodes }
    ensures sent { OnOk result (Sends (K.taken report.old) (K.taken report.new)
        held.old.items held.new.items (cells.arc_line nodes arc draws.old.state)) }
    ensures stopped { IfErr result (Stops (K.taken report.old) (K.taken report.new)
        (held.old.items ++ cells.arc_line nodes arc draws.old.state)
        (K.faults report.old) (K.faults report.new)) }
    ensures quiet { OnOk result (K.faults report.new ≡ K.faults report.old) }
    ensures drawn { OnOk result (draws.new.state ≡ cells.after_four draws.old.state) }
    ensures below { OnOk result (draws.new.state < 2147483647) }
{
    match push_arc(held, draws, arc, nodes) {
        Err(_) => Err(Status::Memory),
        Ok(()) => send_piece(report, held),
    }
}

/// Sends the lines of the arcs.
fn send_arcs<K: Sink>(
    report: &mut K,
    held: &mut Vec<u8>,
    seed: u32,
    nodes: u32,
    arcs: u32,
) -> Result<(), Status>
    requires seed { seed < 2147483647 }
    requires nodes { 0 < nodes }
    ensures sent { OnOk result (Sends (K.taken report.old) (K.taken report.new)
        held.old.items held.new.items (cells.arcs_text seed nodes arcs)) }
    ensures stopped { IfErr result (Stops (K.taken report.old) (K.taken report.new)
        (held.old.items ++ cells.arcs_text seed nodes arcs) (K.faults report.old)
        (K.faults report.new)) }
    ensures quiet { OnOk result (K.faults report.new ≡ K.faults report.old) }
{
    let mut draws = Draws { state: seed as u64 };
    let mut arc = 0;
    while arc < arcs {
        send_arc(report, held, &mut draws, arc, nodes)?;
        arc += 1;
    }
    Ok(())
}

/// Sends the whole graph.
fn send_graph<K: Sink>(
    alloc: Global,
    report: &mut K,
    seed: u32,
    nodes: u32,
    arcs: u32,
) -> Result<(), Status>
    requires seed { seed < 2147483647 }
    requires nodes { 0 < nodes }
    ensures sent { OnOk result (Took (K.taken report.old) (K.taken report.new)
        (plain (made seed nodes arcs))) }
    ensures stopped { IfErr result (Stops (K.taken report.old) (K.taken report.new)
        (plain (made seed nodes arcs)) (K.faults report.old) (K.faults report.new)) }
    ensures quiet { OnOk result (K.faults report.new ≡ K.faults report.old) }
{
    let mut held = Vec::new(alloc);
    send_text(report, &mut held, NODES_HEAD)?;
    send_nodes(report, &mut held, nodes)?;
    send_text(report, &mut held, ARCS_HEAD)?;
    send_arcs(report, &mut held, seed, nodes, arcs)?;
    send(report, &mut held)
}

/// Writes the graph of a seed with so many nodes and arcs to the report, as it is made.
///
/// `Done` where all of it went out. `WriteFault` and `Memory` leave the front of its text.
pub fn make_graph<K: Sink>(
    alloc: Global,
    report: &mut K,
    seed: u32,
    nodes: u32,
    arcs: u32,
) -> Status
    requires seed { seed < 2147483647 }
    requires nodes { 0 < nodes }
    ensures ends { (out : List ℕ) × Took (K.taken report.old) (K.taken report.new) out
        × EndsText (plain (made seed nodes arcs)) out (K.faults report.old) (K.faults report.new)
        result }
    ensures quiet { EndsByFault result ⊎ (K.faults report.new ≡ K.faults report.old) }
{
    match send_graph(alloc, report, seed, nodes, arcs) {
        Ok(()) => Status::Done,
        Err(status) => status,
    }
}
