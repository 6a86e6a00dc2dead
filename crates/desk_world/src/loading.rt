//! The world of a document.

ghost use Rattle.std.specs.Prelude.{◌≡◌, ◌+◌, ◌≤◌, IfOk};
ghost use Rattle.lgf_file.specs.Documents.{IsDoc};
ghost use Rattle.plain_digraph.specs.Items.{count_of};
ghost use Rattle.plain_world.specs.Documents.{load};
ghost use Rattle.desk_world.specs.Plain.{plain_of, kinds_of};
ghost use Rattle.desk_world.specs.InStep.{IsInStep, AreBoxes};

use crate::opening::{add_arcs, add_nodes, without_label};
use crate::world::World;
use alter_graph::Alterable;
use base_items::{ItemSort, MAX_ARCS, MAX_NODES, MAX_STAMP};
use desk_seats::Seat;
use lgf_file::{Doc, Table, find_label};
use observe_core::Observer;
use std::alloc::{AllocError, Global};

impl<B: Observer> World<Seat<B>> {
    /// The world of a valid document, with these boxes, each a guard that was told nothing: its
    /// rows get ids from 0 in their order, and each column but `label` is a map of texts. Where the
    /// arcs have no column `label`, the label of an arc is its id in decimal. It has used a stamp
    /// for each row. It fails only where memory runs out.
    pub fn load(alloc: Global, doc: Doc, pool: Vec<Seat<B>>) -> Result<World<Seat<B>>, AllocError>
        requires doc { IsDoc doc }
        requires boxes { AreBoxes ⟦<Seat<B> as Observer>⟧.watch pool.items }
        ensures loaded { IfOk result (λ world. plain_of ⟦<Seat<B> as Observer>⟧.watch world
            ≡ load doc (kinds_of ⟦<Seat<B> as Observer>⟧.watch pool.items)) }
        ensures boxes { IfOk result (λ world. world.pool.items ≡ pool.items) }
        ensures in_step { IfOk result (IsInStep ⟦<Seat<B> as Observer>⟧.watch) }
        ensures stamps { IfOk result (λ world.
            world.graph.graph.graph.stamps ≤ MAX_NODES + MAX_ARCS) }
    {
        let Doc {
            nodes: Table { columns, rows },
            arc_columns,
            arcs,
            attributes,
        } = doc;
        let node_place = find_label(columns.as_slice());
        let arc_place = find_label(arc_columns.as_slice());
        let mut graph = Alterable::new(alloc);
        add_nodes(&mut graph, rows.as_slice())?;
        add_arcs(&mut graph, arcs.as_slice())?;
        let mut world = World::over(alloc, graph, attributes, pool)?;
        let columns = without_label(columns);
        let arc_columns = without_label(arc_columns);
        world.add_columns(alloc, ItemSort::Node, columns.as_slice())?;
        world.add_columns(alloc, ItemSort::Arc, arc_columns.as_slice())?;
        world.describe_nodes(alloc, node_place, columns.as_slice(), rows)?;
        world.describe_arcs(alloc, arc_place, arc_columns.as_slice(), arcs)?;
        Ok(world)
    }

    /// How many items of the sort are live.
    pub fn live(&self, sort: ItemSort) -> u32
        ensures { result ≡ count_of self.now.graph.graph.graph sort }
    {
        self.graph.graph().count(sort)
    }

    /// How many stamps are left of 2^62.
    pub fn stamps_left(&self) -> u64
        ensures { result + self.now.graph.graph.graph.stamps ≡ MAX_STAMP }
    {
        self.graph.graph().stamps_left()
    }
}
