//! The items of a document and the seats of what is attached to them.

ghost use Rattle.std.specs.Prelude.{◌≡◌, OnOk, OnErr, IfOk, All, [], map, false};
ghost use Rattle.std.specs.FinMap as fin;
ghost use Rattle.token_text.specs.Names.{has_twice};
ghost use Rattle.lgf_file.specs.Documents.{AreAttributes};
ghost use Rattle.alter_graph.specs.Chains.{no_chains};
ghost use Rattle.alter_graph.specs.State.{state_of, IsInStep, IsSame};
ghost use Rattle.plain_world.specs.Tables.{under};
ghost use Rattle.plain_world.specs.World.{attached};
ghost use Rattle.plain_world.specs.Effects.{with_maps};
ghost use Rattle.observe_core.specs.Untold.{TracksNothing};
ghost use Rattle.alter_graph.specs.Attaching.{Attaches, HasNoCounts};
ghost use Rattle.desk_world.specs.Blank.{NodesLead, ArcsLead, HasLiveEnds, blank_world};
ghost use Rattle.desk_world.specs.Blank.{own_columns};
ghost use Rattle.desk_world.specs.Describing.{new_maps};
ghost use Rattle.desk_world.specs.Founding.{Founds};
ghost use Rattle.desk_world.specs.InStep.{AreBoxes, AreInStep};
ghost use Rattle.desk_world.specs.Plain.{plain_of, kinds_of};

use crate::tables::{AttributeRow, ItemTables};
use crate::world::World;
use alter_graph::Alterable;
use base_items::{ItemSort, List, Node};
use desk_names::NameTable;
use desk_seats::Seat;
use index_maps::{CrossRef, Ties};
use lgf_file::{Link, find_label};
use notify_chain::SeatKey;
use observe_core::Observer;
use script_words::MapType;
use std::alloc::{AllocError, Global};
use token_text::Text;

/// Adds a node for each row to a digraph that nobody observes.
pub fn add_nodes<O: Observer>(
    graph: &mut Alterable<O>,
    rows: &[List<Text>],
) -> Result<(), AllocError>
    requires in_step { IsInStep (state_of O.watch graph.old) }
    requires unseen { (state_of O.watch graph.old).chains ≡ no_chains }
    ensures in_step { IsInStep (state_of O.watch graph.new) }
    ensures unseen { OnOk result ((state_of O.watch graph.new).chains ≡ no_chains) }
    ensures leads { OnOk result
        (NodesLead rows.now graph.old.graph.graph graph.new.graph.graph) }
{
    let mut done = 0;
    while done < rows.len() {
        if graph.add_node().is_err() {
            return Err(AllocError);
        }
        done += 1;
    }
    Ok(())
}

/// Adds the arcs, whose ends are live, to a digraph that nobody observes.
pub fn add_arcs<O: Observer>(graph: &mut Alterable<O>, arcs: &[Link]) -> Result<(), AllocError>
    requires in_step { IsInStep (state_of O.watch graph.old) }
    requires unseen { (state_of O.watch graph.old).chains ≡ no_chains }
    requires ends { All (HasLiveEnds graph.old.graph.graph) arcs.now }
    ensures in_step { IsInStep (state_of O.watch graph.new) }
    ensures unseen { OnOk result ((state_of O.watch graph.new).chains ≡ no_chains) }
    ensures leads { OnOk result
        (ArcsLead arcs.now graph.old.graph.graph graph.new.graph.graph) }
{
    let mut done = 0;
    while done < arcs.len() {
        let arc = &arcs[done];
        if graph.add_arc(Node(arc.from), Node(arc.to)).is_err() {
            return Err(AllocError);
        }
        done += 1;
    }
    Ok(())
}

/// The columns but that of the labels.
pub fn without_label(columns: List<Text>) -> List<Text>
    ensures { result ≡ own_columns columns }
{
    let Some(place) = find_label(columns.as_slice()) else {
        return columns;
    };
    let mut rest = columns.into_vec();
    rest.remove(place);
    List::from_vec(rest)
}

// Attributes by name, each a plain text. No name stands twice.
fn plain_rows(
    alloc: Global,
    attributes: List<(Text, Text)>,
) -> Result<NameTable<AttributeRow>, AllocError>
    requires { AreAttributes attributes }
    ensures { IfOk result (λ rows.
        rows.rows ≡ map (λ a. under a.0 (AttributeRow.Plain a.1)) attributes) }
{
    let mut rows = NameTable::new(alloc);
    for (name, value) in attributes.into_vec() {
        rows.reserve()?;
        rows.put(name, AttributeRow::Plain(value));
    }
    Ok(rows)
}

/// Attaches an observer that was told nothing. The error is want of memory; all is then as before.
pub(crate) fn attach<O: Observer>(
    alloc: Global,
    graph: &mut Alterable<O>,
    sort: ItemSort,
    seat: O,
) -> Result<SeatKey, AllocError>
    requires in_step { IsInStep (state_of O.watch graph.old) }
    requires empty { TracksNothing (O.watch seat).seen }
    requires counts { HasNoCounts (O.watch seat).seen }
    ensures attaches { IfOk result (λ key. Attaches sort key.0 (O.watch seat)
        (state_of O.watch graph.old) (state_of O.watch graph.new)) }
    ensures same { OnErr result
        (IsSame (state_of O.watch graph.old) (state_of O.watch graph.new)) }
    ensures in_step { IsInStep (state_of O.watch graph.new) }
{
    match graph.attach(sort, seat, alloc) {
        Ok(key) => Ok(key),
        Err(_) => Err(AllocError),
    }
}

// Seats for the labels and the ties of a sort, each built once over the items that are there.
fn attach_tables<B: Observer>(
    alloc: Global,
    graph: &mut Alterable<Seat<B>>,
    sort: ItemSort,
) -> Result<ItemTables, AllocError>
    requires in_step { IsInStep (state_of ⟦<Seat<B> as Observer>⟧.watch graph.old) }
    ensures founds { IfOk result (λ items. Founds sort items
        (state_of ⟦<Seat<B> as Observer>⟧.watch graph.old)
        (state_of ⟦<Seat<B> as Observer>⟧.watch graph.new)) }
    ensures in_step { IsInStep (state_of ⟦<Seat<B> as Observer>⟧.watch graph.new) }
{
    let labels = attach(alloc, graph, sort, Seat::Refs(CrossRef::new(alloc)))?;
    let ties = attach(alloc, graph, sort, Seat::Ties(Ties::new(alloc)))?;
    Ok(ItemTables {
        labels,
        ties,
        maps: NameTable::new(alloc),
    })
}

impl<B: Observer> World<Seat<B>> {
    /// The world over a digraph that nobody observes, without a map, with these attributes and
    /// boxes. The error is want of memory.
    pub(crate) fn over(
        alloc: Global,
        graph: Alterable<Seat<B>>,
        attributes: List<(Text, Text)>,
        pool: Vec<Seat<B>>,
    ) -> Result<World<Seat<B>>, AllocError>
        requires in_step { IsInStep (state_of ⟦<Seat<B> as Observer>⟧.watch graph) }
        requires unseen { (state_of ⟦<Seat<B> as Observer>⟧.watch graph).chains ≡ no_chains }
        requires names { AreAttributes attributes }
        requires boxes { AreBoxes ⟦<Seat<B> as Observer>⟧.watch pool.items }
        ensures world { IfOk result (λ world. plain_of ⟦<Seat<B> as Observer>⟧.watch world
            ≡ blank_world [] [] (kinds_of ⟦<Seat<B> as Observer>⟧.watch pool.items) attributes
            graph.graph.graph fin.empty fin.empty) }
        ensures in_step { IfOk result (AreInStep ⟦<Seat<B> as Observer>⟧.watch) }
        ensures boxes { IfOk result (λ world. world.pool.items ≡ pool.items) }
    {
        let mut graph = graph;
        let nodes = attach_tables(alloc, &mut graph, ItemSort::Node)?;
        let arcs = attach_tables(alloc, &mut graph, ItemSort::Arc)?;
        let attributes = plain_rows(alloc, attributes)?;
        Ok(World {
            graph,
            nodes,
            arcs,
            guards: NameTable::new(alloc),
            snapshots: NameTable::new(alloc),
            views: NameTable::new(alloc),
            attributes,
            pool,
        })
    }

    /// Makes a map of texts for each of the columns, whose names differ, where there is no map yet.
    /// Each is built once over the items that are there. The error is want of memory.
    pub(crate) fn add_columns(
        &mut self,
        alloc: Global,
        sort: ItemSort,
        columns: &[Text],
    ) -> Result<(), AllocError>
        requires in_step { AreInStep ⟦<Seat<B> as Observer>⟧.watch self.old }
        requires no_maps { (attached (plain_of ⟦<Seat<B> as Observer>⟧.watch self.old) sort).maps
            ≡ [] }
        requires differ { has_twice columns.now ≡ false }
        ensures made { OnOk result (plain_of ⟦<Seat<B> as Observer>⟧.watch self.new
            ≡ with_maps (plain_of ⟦<Seat<B> as Observer>⟧.watch self.old) sort
            (new_maps (plain_of ⟦<Seat<B> as Observer>⟧.watch self.old) sort columns.now)) }
        ensures in_step { AreInStep ⟦<Seat<B> as Observer>⟧.watch self.new }
        ensures graph { self.new.graph.graph.graph ≡ self.old.graph.graph.graph }
        ensures pool { self.new.pool ≡ self.old.pool }
    {
        for name in columns {
            self.add_map(alloc, sort, name, MapType::Texts)?;
        }
        Ok(())
    }
}
