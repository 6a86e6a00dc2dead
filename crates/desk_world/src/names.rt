//! The names of the items that a view shows: labels with marks.

ghost use Rattle.std.specs.Prelude.{◌≡◌, IfOk, map};
ghost use Rattle.plain_digraph.specs.Items.{IsLive};
ghost use Rattle.plain_digraph.specs.Lists.{AllOf};
ghost use Rattle.plain_views.specs.Marks as marks;
ghost use Rattle.plain_world.specs.Views.{origin_label};
ghost use Rattle.plain_views.specs.TowerLaws.{IsLiveOrigin};
ghost use Rattle.plain_views.specs.Towers.{base_node};
ghost use Rattle.view_tower.specs.Layers.{tower_of, origin_of};
ghost use Rattle.desk_world.specs.Naming.{node_called, arc_called, called_node, called_arc};
ghost use Rattle.desk_world.specs.Naming.{ComesFromLive};
ghost use Rattle.desk_world.specs.Plain.{plain_of};
ghost use Rattle.desk_world.specs.InStep.{IsInStep};

use crate::world::World;
use base_items::{Fact, ItemSort, List};
use desk_seats::Seat;
use observe_core::Observer;
use report_text::{ArcLine, NodeLine};
use std::alloc::{AllocError, Global};
use token_text::{Text, copy_text};
use view_tower::{Layer, Origin, arc_from, arc_marks, base_of, node_marks};

// The label with the marks behind it, if there are marks.
fn marked(alloc: Global, label: &Text, letters: &Text) -> Result<Text, AllocError>
    ensures { IfOk result (λ text. text ≡ marks.marked label.now letters.now) }
{
    if letters.is_empty() {
        return copy_text(alloc, label.as_bytes());
    }
    let mut bytes = Vec::new(alloc);
    bytes.extend_from_slice(label.as_bytes())?;
    bytes.push(b'/')?;
    bytes.extend_from_slice(letters.as_bytes())?;
    copy_text(alloc, bytes.as_slice())
}

impl<B: Observer> World<Seat<B>> {
    /// The name of a node that these layers show.
    pub(crate) fn node_called(
        &self,
        alloc: Global,
        layers: &[Layer],
        node: u32,
    ) -> Result<Text, AllocError>
        requires in_step { IsInStep ⟦<Seat<B> as Observer>⟧.watch self.now }
        requires live { IsLive self.now.graph.graph.graph ItemSort.Node
            (base_node (tower_of layers.now) node) }
        ensures { let world = plain_of ⟦<Seat<B> as Observer>⟧.watch self.now in
            IfOk result (λ name. name ≡ node_called world (tower_of layers.now) node) }
    {
        let label = self.label_of(ItemSort::Node, base_of(layers, node));
        let marks = node_marks(alloc, layers, node)?;
        marked(alloc, label, &marks)
    }

    // The label of the item that an arc comes from.
    fn origin_label(&self, origin: Origin) -> &Text
        requires in_step { IsInStep ⟦<Seat<B> as Observer>⟧.watch self.now }
        requires live { IsLiveOrigin self.now.graph.graph.graph (origin_of origin) }
        ensures { result.now
            ≡ origin_label (plain_of ⟦<Seat<B> as Observer>⟧.watch self.now) (origin_of origin) }
    {
        match origin {
            Origin::Arc(arc) => self.label_of(ItemSort::Arc, arc),
            Origin::Bind(node) => self.label_of(ItemSort::Node, node),
        }
    }

    /// The name of an arc that these layers show.
    pub(crate) fn arc_called(
        &self,
        alloc: Global,
        layers: &[Layer],
        arc: u32,
    ) -> Result<Text, AllocError>
        requires in_step { IsInStep ⟦<Seat<B> as Observer>⟧.watch self.now }
        requires live { IsLiveOrigin self.now.graph.graph.graph
            (marks.arc_origin (tower_of layers.now) arc) }
        ensures { let world = plain_of ⟦<Seat<B> as Observer>⟧.watch self.now in
            IfOk result (λ name. name ≡ arc_called world (tower_of layers.now) arc) }
    {
        let label = self.origin_label(arc_from(layers, arc));
        let marks = arc_marks(alloc, layers, arc)?;
        marked(alloc, label, &marks)
    }

    /// The nodes, each with its name.
    pub(crate) fn node_lines(
        &self,
        alloc: Global,
        layers: &[Layer],
        nodes: &[u32],
    ) -> Result<List<NodeLine>, AllocError>
        requires in_step { IsInStep ⟦<Seat<B> as Observer>⟧.watch self.now }
        requires live { AllOf (λ node. IsLive self.now.graph.graph.graph ItemSort.Node
            (base_node (tower_of layers.now) node)) nodes.now }
        ensures { let world = plain_of ⟦<Seat<B> as Observer>⟧.watch self.now in
            IfOk result (λ lines. lines
            ≡ map (called_node world (tower_of layers.now)) nodes.now) }
    {
        let mut lines = Vec::new(alloc);
        for node in nodes {
            let name = self.node_called(alloc, layers, *node)?;
            lines.push(NodeLine { id: *node, name })?;
        }
        Ok(List::from_vec(lines))
    }

    /// The arcs, each with its name and those of its ends.
    pub(crate) fn arc_lines(
        &self,
        alloc: Global,
        layers: &[Layer],
        arcs: &[Fact],
    ) -> Result<List<ArcLine>, AllocError>
        requires in_step { IsInStep ⟦<Seat<B> as Observer>⟧.watch self.now }
        requires live { AllOf (ComesFromLive self.now.graph.graph.graph (tower_of layers.now))
            arcs.now }
        ensures { let world = plain_of ⟦<Seat<B> as Observer>⟧.watch self.now in
            IfOk result (λ lines. lines
            ≡ map (called_arc world (tower_of layers.now)) arcs.now) }
    {
        let mut lines = Vec::new(alloc);
        for arc in arcs {
            lines.push(self.called_line(alloc, layers, arc)?)?;
        }
        Ok(List::from_vec(lines))
    }

    // An arc with its name and those of its ends.
    fn called_line(
        &self,
        alloc: Global,
        layers: &[Layer],
        arc: &Fact,
    ) -> Result<ArcLine, AllocError>
        requires in_step { IsInStep ⟦<Seat<B> as Observer>⟧.watch self.now }
        requires live { ComesFromLive self.now.graph.graph.graph (tower_of layers.now) arc.now }
        ensures { let world = plain_of ⟦<Seat<B> as Observer>⟧.watch self.now in
            IfOk result (λ line. line ≡ called_arc world (tower_of layers.now) arc.now) }
    {
        let name = self.arc_called(alloc, layers, arc.id)?;
        let from = self.node_called(alloc, layers, arc.from)?;
        let to = self.node_called(alloc, layers, arc.to)?;
        Ok(ArcLine {
            id: arc.id,
            name,
            from,
            to,
        })
    }
}
