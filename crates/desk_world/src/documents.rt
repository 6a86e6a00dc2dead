//! The document of a world.

ghost use Rattle.std.specs.Prelude.{◌≡◌, IfOk};
ghost use Rattle.lgf_file.specs.Documents.{IsDoc};
ghost use Rattle.plain_digraph.specs.Items.{IsLive};
ghost use Rattle.plain_world.specs.World.{attached};
ghost use Rattle.plain_world.specs.Documents.{doc_of, columns_of, cells_of};
ghost use Rattle.desk_world.specs.Plain.{plain_of};
ghost use Rattle.desk_world.specs.InStep.{IsInStep, has_values};
ghost use Rattle.desk_world.specs.RowPlaces.{row_places};

use crate::tables::MapKind;
use crate::world::World;
use base_items::{ItemSort, List};
use desk_seats::Seat;
use lgf_file::{Doc, Link, Table};
use observe_core::Observer;
use std::alloc::{AllocError, Global};
use token_text::{Text, copy_text};

// The rows of the nodes by rising id, and for each id that is in use the place of its row.
#[derive(Drop)]
struct NodeRows {
    rows: Vec<List<Text>>,
    places: Vec<u32>,
}

/// Whether a map has values of its own.
pub(crate) fn has_values(kind: &MapKind) -> bool
    ensures { result ≡ has_values kind.now }
{
    match kind {
        MapKind::Ints => true,
        MapKind::Bools => true,
        MapKind::Texts => true,
        MapKind::Degrees(_) => false,
        MapKind::Trues(_) => false,
    }
}

impl<B: Observer> World<Seat<B>> {
    /// The document of the world, which is valid: rows by rising id, the column `label` in front of
    /// the maps of values by order of making, and the attributes, a tied one with the label of its
    /// item. It fails only where memory runs out.
    pub fn doc(&self, alloc: Global) -> Result<Doc, AllocError>
        requires { IsInStep ⟦<Seat<B> as Observer>⟧.watch self.now }
        ensures doc { IfOk result (λ doc. doc
            ≡ doc_of (plain_of ⟦<Seat<B> as Observer>⟧.watch self.now)) }
        ensures valid { IfOk result IsDoc }
    {
        let rows = self.node_rows(alloc)?;
        Ok(Doc {
            arcs: self.arc_rows(alloc, rows.places.as_slice())?,
            nodes: Table {
                columns: self.copy_columns(alloc, ItemSort::Node)?,
                rows: List::from_vec(rows.rows),
            },
            arc_columns: self.copy_columns(alloc, ItemSort::Arc)?,
            attributes: self.copy_attributes(alloc)?,
        })
    }

    /// The names of the columns: `label`, and those of the maps of values.
    pub(crate) fn copy_columns(
        &self,
        alloc: Global,
        sort: ItemSort,
    ) -> Result<List<Text>, AllocError>
        requires { IsInStep ⟦<Seat<B> as Observer>⟧.watch self.now }
        ensures { let world = plain_of ⟦<Seat<B> as Observer>⟧.watch self.now in
            IfOk result (λ columns. columns ≡ columns_of (attached world sort)) }
    {
        let maps = &self.tables(sort).maps;
        let mut columns = Vec::new(alloc);
        columns.push(copy_text(alloc, b"label")?)?;
        for place in 0..maps.len() {
            if has_values(&maps.value(place).kind) {
                columns.push(copy_text(alloc, maps.name(place).as_bytes())?)?;
            }
        }
        Ok(List::from_vec(columns))
    }

    // The label of a live item, and what the maps of values have at it.
    fn copy_cells(&self, alloc: Global, sort: ItemSort, id: u32) -> Result<List<Text>, AllocError>
        requires in_step { IsInStep ⟦<Seat<B> as Observer>⟧.watch self.now }
        requires live { IsLive self.now.graph.graph.graph sort id }
        ensures { let world = plain_of ⟦<Seat<B> as Observer>⟧.watch self.now in
            IfOk result (λ cells. cells ≡ cells_of world sort id) }
    {
        let maps = &self.tables(sort).maps;
        let mut cells = Vec::new(alloc);
        cells.push(copy_text(alloc, self.label_of(sort, id).as_bytes())?)?;
        for place in 0..maps.len() {
            let row = maps.value(place);
            if has_values(&row.kind) {
                cells.push(self.row_text(alloc, sort, row, id)?)?;
            }
        }
        Ok(List::from_vec(cells))
    }

    // The rows of the nodes.
    fn node_rows(&self, alloc: Global) -> Result<NodeRows, AllocError>
        requires { IsInStep ⟦<Seat<B> as Observer>⟧.watch self.now }
        ensures rows { let world = plain_of ⟦<Seat<B> as Observer>⟧.watch self.now in
            IfOk result (λ made. made.rows.items ≡ (doc_of world).nodes.rows) }
        ensures places { IfOk result (λ made.
            made.places.items ≡ row_places self.now.graph.graph.graph) }
    {
        let graph = self.graph.graph();
        let mut rows = Vec::new(alloc);
        let mut places = Vec::new(alloc);
        for id in 0..graph.used(ItemSort::Node) {
            let place = rows.len() as u32;
            places.push(place)?;
            if graph.fact(ItemSort::Node, id).is_some() {
                rows.push(self.copy_cells(alloc, ItemSort::Node, id)?)?;
            }
        }
        Ok(NodeRows { rows, places })
    }

    // The arcs by rising id, each with the places of the rows of its ends.
    fn arc_rows(&self, alloc: Global, places: &[u32]) -> Result<List<Link>, AllocError>
        requires in_step { IsInStep ⟦<Seat<B> as Observer>⟧.watch self.now }
        requires places { places.now ≡ row_places self.now.graph.graph.graph }
        ensures { let world = plain_of ⟦<Seat<B> as Observer>⟧.watch self.now in
            IfOk result (λ arcs. arcs ≡ (doc_of world).arcs) }
    {
        let graph = self.graph.graph();
        let mut links = Vec::new(alloc);
        for id in 0..graph.used(ItemSort::Arc) {
            if let Some(fact) = graph.fact(ItemSort::Arc, id) {
                let values = self.copy_cells(alloc, ItemSort::Arc, id)?;
                links.push(Link {
                    from: places[fact.from as usize],
                    to: places[fact.to as usize],
                    values,
                })?;
            }
        }
        Ok(List::from_vec(links))
    }

    /// The attributes, each with its text, or with the label of its item. Those whose tie has ended
    /// are left out.
    pub(crate) fn copy_attributes(&self, alloc: Global) -> Result<List<(Text, Text)>, AllocError>
        requires { IsInStep ⟦<Seat<B> as Observer>⟧.watch self.now }
        ensures { let world = plain_of ⟦<Seat<B> as Observer>⟧.watch self.now in
            IfOk result (λ attributes. attributes ≡ (doc_of world).attributes) }
    {
        let mut attributes = Vec::new(alloc);
        for place in 0..self.attributes.len() {
            if let Some(text) = self.row_attribute(self.attributes.value(place)) {
                let name = copy_text(alloc, self.attributes.name(place).as_bytes())?;
                let value = copy_text(alloc, text.as_bytes())?;
                attributes.push((name, value))?;
            }
        }
        Ok(List::from_vec(attributes))
    }
}
