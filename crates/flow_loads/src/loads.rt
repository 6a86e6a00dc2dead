//! Runs of the engine over lists.

ghost use Rattle.std.specs.Prelude.{IfOk, length};
ghost use Rattle.push_flow.specs.Slices.{task_of};
ghost use Rattle.flow_loads.specs.Loads.{IsLoaded, HasSettled};

use flow_rows::Network;
use push_flow::solve;
use std::alloc::{AllocError, Global};

/// The flow of each arc, and of each node its excess, what it wants, and its height.
#[derive(Drop)]
pub struct Load {
    pub flow: Vec<u64>,
    pub excess: Vec<u64>,
    pub want: Vec<u64>,
    pub height: Vec<u32>,
}

/// Moves excess to where it is wanted, until none can be moved: the nodes that are below the number
/// of nodes in `height` have no excess then, and no arc with room leads to them from the others.
pub fn settle(alloc: Global, net: &Network, cap: &[u64], load: Load) -> Result<Load, AllocError>
    requires { IsLoaded net.now.ends.items net.now.start.items net.now.row.items cap.now load }
    ensures { IfOk result (HasSettled
        (task_of (length load.height.items) net.now.ends.items cap.now) load) }
{
    let mut flow = load.flow;
    let mut excess = load.excess;
    let mut want = load.want;
    let mut height = load.height;
    let nodes = height.len();
    let mut before = vec![in alloc; 0u32; nodes]?;
    let mut queue = vec![in alloc; 0u32; nodes]?;
    let mut ring = vec![in alloc; 0u32; nodes]?;
    solve(
        &net.ends,
        cap,
        &mut flow,
        &net.start,
        &net.row,
        &mut excess,
        &mut want,
        &mut before,
        &mut height,
        &mut queue,
        &mut ring,
    );
    Ok(Load {
        flow,
        excess,
        want,
        height,
    })
}
