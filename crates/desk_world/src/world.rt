//! The world: an observed digraph, and tables of what is attached to it by name.

use crate::tables::{AttributeRow, GuardRow, ItemTables, ViewRow};
use alter_graph::{Alterable, SnapKeys};
use desk_names::NameTable;

/// A digraph with all that is attached to it. What follows the digraph sits in its chains; the
/// tables say by which key, and each is in the order of making.
///
/// `O` is what sits in the chains. Contracts compare a world with the plain one that it stands for
/// (`plain_of`), and say that its seats are in step with it (`IsInStep`).
#[derive(Drop)]
pub struct World<O> {
    pub(crate) graph: Alterable<O>,
    pub(crate) nodes: ItemTables,
    pub(crate) arcs: ItemTables,
    pub(crate) guards: NameTable<GuardRow>,
    pub(crate) snapshots: NameTable<SnapKeys>,
    pub(crate) views: NameTable<ViewRow>,
    pub(crate) attributes: NameTable<AttributeRow>,
    // The boxes of guards that are not attached.
    pub(crate) pool: Vec<O>,
}
