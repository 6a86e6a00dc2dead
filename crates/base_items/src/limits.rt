//! How large a digraph, its values and its counter of stamps may grow.

/// The most live nodes. Ids of nodes are below it.
pub const MAX_NODES: u32 = 1_048_576;

/// The most live arcs. Ids of arcs are below it.
pub const MAX_ARCS: u32 = 4_194_304;

/// The most layers of a view.
pub const MAX_LAYERS: u32 = 8;

/// The largest magnitude of a length, a capacity, a cost or a supply: 2^36.
pub const VALUE_LIMIT: u64 = 68_719_476_736;

/// How many stamps there are: 2^62.
pub const MAX_STAMP: u64 = 4_611_686_018_427_387_904;

/// Which limit an addition would pass.
#[derive(Clone, Copy, Debug, PartialEq, Eq)]
pub enum Limit {
    Nodes,
    Arcs,
    Stamps,
}
