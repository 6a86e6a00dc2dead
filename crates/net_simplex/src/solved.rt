//! A run: pivots from the first tree until no arc may enter, or until a cycle is endless.

ghost use Rattle.std.specs.Prelude.{◌≡◌, ◌+◌, ◌<◌, ◌≤◌, ◌^◌, length, IfOk, pos};
ghost use Rattle.plain_certificates.specs.Tables.{at};
ghost use Rattle.static_digraph.specs.Fixed.{graph_of};
ghost use Rattle.task_bounds.specs.Plan.{AreCaps};
ghost use Rattle.net_simplex.specs.Network.{IsWeighed};
ghost use Rattle.net_simplex.specs.Solved.{IsSolved};
ghost use Rattle.task_bounds.specs.Excess.{AreLight};

use crate::start::{Flow, Tree, first_flow, first_tree};
use pivot_flow::{Endless, solve};
use static_digraph::Fixed;
use std::alloc::{AllocError, Global};

/// What a run leaves, and the cycle that it met, if that is endless.
#[derive(Drop)]
pub struct Solved {
    pub flow: Flow,
    pub tree: Tree,
    pub endless: Option<Endless>,
}

/// How many arcs are looked at together for one that enters: about the root of their number.
fn block_of(count: u32) -> u32
    ensures { 0 < result }
{
    let mut block: u32 = 16;
    while block < 4096 && block * block < count {
        block *= 2;
    }
    block
}

/// Pivots over the network of a digraph, where the nodes have so much to send, and the arcs of the
/// network have these capacities and costs.
pub fn solve_network(
    alloc: Global,
    g: &Fixed,
    excess: &[i64],
    cap: &[u64],
    cost: &[i64],
) -> Result<Solved, AllocError>
    requires nodes { length excess.now ≡ (graph_of g.now).nodes }
    requires light { AreLight (graph_of g.now) (at (pos 0) excess.now) }
    requires caps { AreCaps (graph_of g.now) (graph_of g.now).nodes cap.now }
    requires costs { length cost.now ≡ (graph_of g.now).arcs + (graph_of g.now).nodes }
    requires weighed { IsWeighed (graph_of g.now) (at (pos 0) cost.now) }
    ensures { IfOk result (IsSolved (graph_of g.now) (at (pos 0) excess.now) cap.now cost.now) }
{
    let n = g.node_count();
    let m = g.arc_count();
    let mut flow = first_flow(alloc, g, excess)?;
    let mut tree = first_tree(alloc, n, m)?;
    let mut queue = vec![in alloc; 0u32; n as usize + 1]?;
    let block = block_of(m);
    let endless = solve(
        &flow.ends,
        cap,
        cost,
        &mut flow.sent,
        &mut tree.first,
        &mut tree.next,
        &mut tree.prev,
        &mut tree.parent,
        &mut tree.arc,
        &mut tree.depth,
        &mut flow.price,
        &mut queue,
        m,
        block,
    );
    Ok(Solved {
        flow,
        tree,
        endless,
    })
}
