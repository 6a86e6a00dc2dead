//! Listings of the base.

ghost use Rattle.std.specs.Prelude.{◌≡◌, Some, map, IfOk};
ghost use Rattle.plain_digraph.specs.Items as items;
ghost use Rattle.plain_world.specs.World as plain;
ghost use Rattle.desk_world.specs.Plain.{plain_of, look_of};
ghost use Rattle.desk_world.specs.InStep.{IsInStep};
ghost use Rattle.desk_world.specs.Lines.{node_line, arc_line, line_of};

use crate::orders::{arc_order, node_order};
use crate::world::World;
use base_items::{ItemSort, List};
use desk_seats::Seat;
use observe_core::Observer;
use report_text::{ArcLine, NodeLine};
use std::alloc::{AllocError, Global};
use token_text::Text;

/// An arc with what its line says, which isn't copied yet.
#[derive(Clone, Copy)]
pub struct SeenArc<'a> {
    pub id: u32,
    pub name: &'a Text,
    pub from: &'a Text,
    pub to: &'a Text,
}

// The line of the arc.
fn copy_line(seen: &SeenArc<'_>) -> Result<ArcLine, AllocError>
    ensures { IfOk result (λ line. line ≡ line_of seen.now) }
{
    let name = seen.name.clone()?;
    let from = seen.from.clone()?;
    let to = seen.to.clone()?;
    Ok(ArcLine {
        id: seen.id,
        name,
        from,
        to,
    })
}

impl<B: Observer> World<Seat<B>> {
    /// The nodes, the newest first, each with its label.
    pub(crate) fn list_nodes(&self, alloc: Global) -> Result<List<NodeLine>, AllocError>
        requires { IsInStep ⟦<Seat<B> as Observer>⟧.watch self.now }
        ensures { let world = plain_of ⟦<Seat<B> as Observer>⟧.watch self.now in
            IfOk result (λ lines. lines ≡ map (node_line world) (items.ids world.graph.nodes)) }
    {
        let nodes = node_order(alloc, self.graph.graph())?;
        let labels = self.labels(ItemSort::Node);
        let mut lines = Vec::new(alloc);
        for id in nodes.as_slice() {
            let label = self.label_in(labels, ItemSort::Node, *id);
            let name = label.clone()?;
            lines.push(NodeLine { id: *id, name })?;
        }
        Ok(List::from_vec(lines))
    }

    /// The arcs, for each node in turn those from it, the newest first, each with its label and
    /// those of its ends.
    pub(crate) fn list_arcs(&self, alloc: Global) -> Result<List<ArcLine>, AllocError>
        requires { IsInStep ⟦<Seat<B> as Observer>⟧.watch self.now }
        ensures { let world = plain_of ⟦<Seat<B> as Observer>⟧.watch self.now in
            IfOk result (λ lines. lines ≡ map (arc_line world) (items.all_arcs world.graph)) }
    {
        let arcs = arc_order(alloc, self.graph.graph())?;
        let seen = self.see_arcs(alloc, arcs.as_slice())?;
        let mut lines = Vec::with_capacity(alloc, seen.len())?;
        for arc in seen.as_slice() {
            lines.push(copy_line(arc)?)?;
        }
        Ok(List::from_vec(lines))
    }

    // The arcs with what their lines say. It takes a pass of its own, short enough that the
    // processor waits for the places of several labels at a time; so does the copying of labels.
    fn see_arcs(&self, alloc: Global, arcs: &[u32]) -> Result<Vec<SeenArc<'_>>, AllocError>
        requires in_step { IsInStep ⟦<Seat<B> as Observer>⟧.watch self.now }
        requires listed { arcs.now ≡ items.all_arcs self.now.graph.graph.graph }
        ensures { let world = plain_of ⟦<Seat<B> as Observer>⟧.watch self.now in
            IfOk result (λ seen. map line_of seen.items ≡ map (arc_line world) arcs.now) }
    {
        let node_labels = self.labels(ItemSort::Node);
        let arc_labels = self.labels(ItemSort::Arc);
        let mut seen = Vec::with_capacity(alloc, arcs.len())?;
        for id in arcs {
            seen.push(self.see_arc(node_labels, arc_labels, *id))?;
        }
        Ok(seen)
    }

    // An arc with its label and those of its ends, looked up in the seats of the labels.
    fn see_arc<'a>(&self, node_labels: &'a Seat<B>, arc_labels: &'a Seat<B>, id: u32) -> SeenArc<'a>
        requires in_step { IsInStep ⟦<Seat<B> as Observer>⟧.watch self.now }
        requires nodes { look_of ⟦<Seat<B> as Observer>⟧.watch self.now ItemSort.Node
            self.now.nodes.labels.0 ≡ Some (⟦<Seat<B> as Observer>⟧.watch node_labels.now).seen }
        requires arcs { look_of ⟦<Seat<B> as Observer>⟧.watch self.now ItemSort.Arc
            self.now.arcs.labels.0 ≡ Some (⟦<Seat<B> as Observer>⟧.watch arc_labels.now).seen }
        requires live { items.IsLive self.now.graph.graph.graph ItemSort.Arc id }
        ensures { let world = plain_of ⟦<Seat<B> as Observer>⟧.watch self.now in
            line_of result ≡ arc_line world id }
    {
        let Some(fact) = self.graph.graph().fact(ItemSort::Arc, id) else {
            unreachable!()
        };
        let name = self.label_in(arc_labels, ItemSort::Arc, id);
        let from = self.label_in(node_labels, ItemSort::Node, fact.from);
        let to = self.label_in(node_labels, ItemSort::Node, fact.to);
        SeenArc { id, name, from, to }
    }
}
