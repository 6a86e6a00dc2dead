//! The endless cycle as a list of arcs.

ghost use Rattle.std.specs.Prelude.{◌≡◌, ◌<◌, ◌++◌, length, IfOk, OnOk};
ghost use Rattle.pivot_flow.specs.Tree.{ComesTo, ends_at, tree_of};
ghost use Rattle.net_simplex.specs.Cycles.{HangsIn, round_of, ups_to};
ghost use Rattle.pace_search.specs.Turns.{BeginsLeast};

use crate::solved::Solved;
use base_items::List;
use pace_search::least_first;
use pivot_flow::Endless;
use std::alloc::{AllocError, Global};

/// Lays down the arcs from a node up to one above.
fn climb(
    parent: &[u32],
    arc: &[u32],
    depth: &[u32],
    node: u32,
    top: u32,
    path: &mut Vec<u32>,
) -> Result<(), AllocError>
    requires sizes { (length arc.now ≡ length parent.now) × (length depth.now ≡ length parent.now) }
    requires node { node < length parent.now }
    requires above { ComesTo (tree_of parent.now arc.now depth.now) node top }
    requires hung { HangsIn (length parent.now) (tree_of parent.now arc.now depth.now) }
    ensures { OnOk result (path.new.items
        ≡ path.old.items ++ ups_to (tree_of parent.now arc.now depth.now) top node) }
{
    let mut here = node;
    while here != top {
        path.push(arc[here as usize])?;
        here = parent[here as usize];
    }
    Ok(())
}

/// The arcs of a cycle that an arc of the network closes, from the highest node on.
fn round(alloc: Global, solved: &Solved, endless: Endless) -> Result<Vec<u32>, AllocError>
    requires sizes { (length solved.now.tree.arc.items ≡ length solved.now.tree.parent.items)
        × (length solved.now.tree.depth.items ≡ length solved.now.tree.parent.items) }
    requires arc { endless.entering.arc < length solved.now.flow.ends.items }
    requires hung { HangsIn (length solved.now.tree.parent.items)
        (tree_of solved.now.tree.parent.items solved.now.tree.arc.items
        solved.now.tree.depth.items) }
    requires from { let end = ends_at solved.now.flow.ends.items endless.entering.arc in
        (end.from < length solved.now.tree.parent.items)
        × ComesTo (tree_of solved.now.tree.parent.items solved.now.tree.arc.items
        solved.now.tree.depth.items) end.from endless.found.apex }
    requires to { let end = ends_at solved.now.flow.ends.items endless.entering.arc in
        (end.to < length solved.now.tree.parent.items)
        × ComesTo (tree_of solved.now.tree.parent.items solved.now.tree.arc.items
        solved.now.tree.depth.items) end.to endless.found.apex }
    ensures { let end = ends_at solved.now.flow.ends.items endless.entering.arc in
        IfOk result (λ arcs. arcs.items ≡ round_of (tree_of solved.now.tree.parent.items
        solved.now.tree.arc.items solved.now.tree.depth.items) endless.found.apex end.from
        endless.entering.arc end.to) }
{
    let e = endless.entering.arc;
    let end = solved.flow.ends[e as usize];
    let top = endless.found.apex;
    let tree = &solved.tree;
    let mut arcs = Vec::new(alloc);
    climb(
        &tree.parent,
        &tree.arc,
        &tree.depth,
        end.from,
        top,
        &mut arcs,
    )?;
    arcs.reverse();
    arcs.push(e)?;
    climb(&tree.parent, &tree.arc, &tree.depth, end.to, top, &mut arcs)?;
    Ok(arcs)
}

/// The arcs of a cycle that an arc of the network closes, from the least on.
pub fn cycle_of(alloc: Global, solved: &Solved, endless: Endless) -> Result<Vec<u32>, AllocError>
    requires sizes { (length solved.now.tree.arc.items ≡ length solved.now.tree.parent.items)
        × (length solved.now.tree.depth.items ≡ length solved.now.tree.parent.items) }
    requires arc { endless.entering.arc < length solved.now.flow.ends.items }
    requires hung { HangsIn (length solved.now.tree.parent.items)
        (tree_of solved.now.tree.parent.items solved.now.tree.arc.items
        solved.now.tree.depth.items) }
    requires from { let end = ends_at solved.now.flow.ends.items endless.entering.arc in
        (end.from < length solved.now.tree.parent.items)
        × ComesTo (tree_of solved.now.tree.parent.items solved.now.tree.arc.items
        solved.now.tree.depth.items) end.from endless.found.apex }
    requires to { let end = ends_at solved.now.flow.ends.items endless.entering.arc in
        (end.to < length solved.now.tree.parent.items)
        × ComesTo (tree_of solved.now.tree.parent.items solved.now.tree.arc.items
        solved.now.tree.depth.items) end.to endless.found.apex }
    ensures { let end = ends_at solved.now.flow.ends.items endless.entering.arc in
        IfOk result (λ turned. BeginsLeast (round_of (tree_of solved.now.tree.parent.items
        solved.now.tree.arc.items solved.now.tree.depth.items) endless.found.apex end.from
        endless.entering.arc end.to) turned.items) }
{
    let arcs = round(alloc, solved, endless)?;
    least_first(alloc, &arcs)
}
