//! The graph file of a world.

ghost use Rattle.std.specs.Prelude.{◌≡◌, ◌++◌, map, IfOk, OnOk};
ghost use Rattle.std.specs.List.{flat_map};
ghost use Rattle.token_text.specs.Lines.{ended};
ghost use Rattle.lgf_file.specs.Documents.{node_labels, link_cells};
ghost use Rattle.lgf_file.specs.Plain as lines;
ghost use Rattle.plain_digraph.specs.Items.{IsLive};
ghost use Rattle.plain_world.specs.Documents.{doc_of, cells_of};
ghost use Rattle.desk_world.specs.Plain.{plain_of};
ghost use Rattle.desk_world.specs.InStep.{IsInStep};

use crate::documents::has_values;
use crate::world::World;
use base_items::ItemSort;
use desk_seats::Seat;
use lgf_file::{push_attribute, push_cell, push_head, push_row};
use observe_core::Observer;
use std::alloc::{AllocError, Global};

impl<B: Observer> World<Seat<B>> {
    /// The graph file of the world: that of its document, from what the world holds. It fails only
    /// where memory runs out.
    pub(crate) fn written(&self, alloc: Global) -> Result<Vec<u8>, AllocError>
        requires { IsInStep ⟦<Seat<B> as Observer>⟧.watch self.now }
        ensures { let world = plain_of ⟦<Seat<B> as Observer>⟧.watch self.now in
            IfOk result (λ bytes. bytes.items ≡ lines.plain (doc_of world)) }
    {
        let mut out = Vec::new(alloc);
        self.push_node_lines(alloc, &mut out)?;
        self.push_arc_lines(alloc, &mut out)?;
        self.push_attribute_lines(alloc, &mut out)?;
        Ok(out)
    }

    // Appends the lines of the nodes.
    fn push_node_lines(&self, alloc: Global, out: &mut Vec<u8>) -> Result<(), AllocError>
        requires { IsInStep ⟦<Seat<B> as Observer>⟧.watch self.now }
        ensures { let world = plain_of ⟦<Seat<B> as Observer>⟧.watch self.now in
            let own = lines.node_lines (doc_of world).nodes in
            OnOk result (out.new.items ≡ out.old.items ++ flat_map ended own) }
    {
        out.extend_from_slice(b"@nodes\n")?;
        let columns = self.copy_columns(alloc, ItemSort::Node)?;
        push_row(out, columns.as_slice())?;
        self.push_node_rows(alloc, out)
    }

    // Appends the rows of the nodes.
    fn push_node_rows(&self, alloc: Global, out: &mut Vec<u8>) -> Result<(), AllocError>
        requires { IsInStep ⟦<Seat<B> as Observer>⟧.watch self.now }
        ensures { let world = plain_of ⟦<Seat<B> as Observer>⟧.watch self.now in
            let own = map lines.row_text (doc_of world).nodes.rows in
            OnOk result (out.new.items ≡ out.old.items ++ flat_map ended own) }
    {
        let graph = self.graph.graph();
        for id in 0..graph.used(ItemSort::Node) {
            if graph.fact(ItemSort::Node, id).is_some() {
                self.push_values(alloc, ItemSort::Node, id, out)?;
            }
        }
        Ok(())
    }

    // Appends the lines of the arcs.
    fn push_arc_lines(&self, alloc: Global, out: &mut Vec<u8>) -> Result<(), AllocError>
        requires { IsInStep ⟦<Seat<B> as Observer>⟧.watch self.now }
        ensures { let doc = doc_of (plain_of ⟦<Seat<B> as Observer>⟧.watch self.now) in
            let own = lines.arc_lines (node_labels doc.nodes) doc.arc_columns doc.arcs in
            OnOk result (out.new.items ≡ out.old.items ++ flat_map ended own) }
    {
        out.extend_from_slice(b"@arcs\n")?;
        let columns = self.copy_columns(alloc, ItemSort::Arc)?;
        push_head(out, columns.as_slice())?;
        self.push_arc_rows(alloc, out)
    }

    // Appends the rows of the arcs.
    fn push_arc_rows(&self, alloc: Global, out: &mut Vec<u8>) -> Result<(), AllocError>
        requires { IsInStep ⟦<Seat<B> as Observer>⟧.watch self.now }
        ensures { let doc = doc_of (plain_of ⟦<Seat<B> as Observer>⟧.watch self.now) in
            let labels = node_labels doc.nodes in
            let own = map (λ arc. lines.row_text (link_cells labels arc)) doc.arcs in
            OnOk result (out.new.items ≡ out.old.items ++ flat_map ended own) }
    {
        let graph = self.graph.graph();
        for id in 0..graph.used(ItemSort::Arc) {
            if let Some(fact) = graph.fact(ItemSort::Arc, id) {
                push_cell(out, self.label_of(ItemSort::Node, fact.from).as_bytes())?;
                push_cell(out, self.label_of(ItemSort::Node, fact.to).as_bytes())?;
                self.push_values(alloc, ItemSort::Arc, id, out)?;
            }
        }
        Ok(())
    }

    // Appends the label of a live item, what the maps of values have at it, and the line end.
    fn push_values(
        &self,
        alloc: Global,
        sort: ItemSort,
        id: u32,
        out: &mut Vec<u8>,
    ) -> Result<(), AllocError>
        requires in_step { IsInStep ⟦<Seat<B> as Observer>⟧.watch self.now }
        requires live { IsLive self.now.graph.graph.graph sort id }
        ensures { let world = plain_of ⟦<Seat<B> as Observer>⟧.watch self.now in
            let own = lines.row_text (cells_of world sort id) in
            OnOk result (out.new.items ≡ out.old.items ++ ended own) }
    {
        push_cell(out, self.label_of(sort, id).as_bytes())?;
        let maps = &self.tables(sort).maps;
        for place in 0..maps.len() {
            let row = maps.value(place);
            if has_values(&row.kind) {
                let text = self.row_text(alloc, sort, row, id)?;
                push_cell(out, text.as_bytes())?;
            }
        }
        out.push(b'\n')?;
        Ok(())
    }

    // Appends the lines of the attributes, if there are any.
    fn push_attribute_lines(&self, alloc: Global, out: &mut Vec<u8>) -> Result<(), AllocError>
        requires { IsInStep ⟦<Seat<B> as Observer>⟧.watch self.now }
        ensures { let world = plain_of ⟦<Seat<B> as Observer>⟧.watch self.now in
            let own = lines.attribute_lines (doc_of world).attributes in
            OnOk result (out.new.items ≡ out.old.items ++ flat_map ended own) }
    {
        let attributes = self.copy_attributes(alloc)?;
        if attributes.is_empty() {
            return Ok(());
        }
        out.extend_from_slice(b"@attributes\n")?;
        for attribute in attributes.as_slice() {
            push_attribute(out, attribute)?;
        }
        Ok(())
    }
}
