//! The items of a part of an alteration, gathered before it begins.

ghost use Rattle.std.specs.Prelude.{◌≡◌, ◌||◌, ◌++◌, filter, OnOk, IfOk};
ghost use Rattle.plain_digraph.specs.Items.{IsLive, facts, out_arcs, in_arcs, source_of, target_of};
ghost use Rattle.plain_digraph.specs.Alterations as alterations;
ghost use Rattle.plain_digraph.specs.Valid.{IsValid};
ghost use Rattle.alter_graph.specs.Steps.{plain_steps};

use crate::steps::{Step, told_of};
use base_items::{Arc, Fact, ItemSort, Node};
use list_digraph::ListDigraph;
use std::alloc::{AllocError, Global};

/// What is told of all live items of a sort, by rising id.
pub fn all_facts(
    graph: &ListDigraph,
    sort: ItemSort,
    alloc: Global,
) -> Result<Vec<Fact>, AllocError>
    ensures { IfOk result (λ all. all.items ≡ facts graph.now.graph sort) }
{
    let mut all = Vec::new(alloc);
    for id in 0..graph.used(sort) {
        if let Some(fact) = graph.fact(sort, id) {
            all.push(fact)?;
        }
    }
    Ok(all)
}

/// The arcs from a node, the newest place first.
pub fn arcs_from(graph: &ListDigraph, n: Node, alloc: Global) -> Result<Vec<u32>, AllocError>
    requires valid { IsValid graph.now.graph }
    requires live { IsLive graph.now.graph ItemSort.Node n.0 }
    ensures { IfOk result (λ arcs. arcs.items ≡ out_arcs graph.now.graph n.0) }
{
    let mut arcs = Vec::new(alloc);
    let mut next = graph.first_out(n);
    'arcs: while let Some(arc) = next {
        arcs.push(arc.0)?;
        next = graph.next_out(arc);
    }
    Ok(arcs)
}

// Whether the target of an arc is neither of two nodes.
fn goes_elsewhere(graph: &ListDigraph, arc: u32, u: Node, v: Node) -> bool
    requires valid { IsValid graph.now.graph }
    requires live { IsLive graph.now.graph ItemSort.Arc arc }
    ensures { result ≡ alterations.is_neither u.0 v.0 (target_of graph.now.graph arc) }
{
    let end = told_of(graph, ItemSort::Arc, arc).to;
    end != u.0 && end != v.0
}

// Whether the source of an arc is neither of two nodes.
fn comes_from_elsewhere(graph: &ListDigraph, arc: u32, u: Node, v: Node) -> bool
    requires valid { IsValid graph.now.graph }
    requires live { IsLive graph.now.graph ItemSort.Arc arc }
    ensures { result ≡ alterations.is_neither u.0 v.0 (source_of graph.now.graph arc) }
{
    let end = told_of(graph, ItemSort::Arc, arc).from;
    end != u.0 && end != v.0
}

/// The moves of these arcs' sources to a node, behind other steps.
pub fn push_sources(steps: &mut Vec<Step>, arcs: &[u32], u: Node) -> Result<(), AllocError>
    ensures { OnOk result (plain_steps steps.new.items
        ≡ plain_steps steps.old.items ++ alterations.sources_to u.0 arcs.now) }
{
    for arc in arcs {
        steps.push(Step::MoveFrom(Arc(*arc), u))?;
    }
    Ok(())
}

// Whether an arc from v goes over: where `all`, or where its target is neither of the two.
fn goes_over(graph: &ListDigraph, arc: u32, u: Node, v: Node, all: bool) -> bool
    requires valid { IsValid graph.now.graph }
    requires live { IsLive graph.now.graph ItemSort.Arc arc }
    ensures { result ≡ (all || alterations.is_neither u.0 v.0 (target_of graph.now.graph arc)) }
{
    if all {
        return true;
    }
    goes_elsewhere(graph, arc, u, v)
}

// Whether an arc to v comes over: where `all`, or where its source is neither of the two.
fn comes_over(graph: &ListDigraph, arc: u32, u: Node, v: Node, all: bool) -> bool
    requires valid { IsValid graph.now.graph }
    requires live { IsLive graph.now.graph ItemSort.Arc arc }
    ensures { result ≡ (all || alterations.is_neither u.0 v.0 (source_of graph.now.graph arc)) }
{
    if all {
        return true;
    }
    comes_from_elsewhere(graph, arc, u, v)
}

/// The moves to u of the sources of the arcs from v, or of those whose targets are neither of the
/// two, behind other steps; the newest place comes first.
pub fn push_outward(
    graph: &ListDigraph,
    steps: &mut Vec<Step>,
    u: Node,
    v: Node,
    all: bool,
) -> Result<(), AllocError>
    requires valid { IsValid graph.now.graph }
    requires live { IsLive graph.now.graph ItemSort.Node v.0 }
    ensures { OnOk result (plain_steps steps.new.items ≡ plain_steps steps.old.items
        ++ alterations.sources_to u.0 (filter
        (λ arc. all || alterations.is_neither u.0 v.0 (target_of graph.now.graph arc))
        (out_arcs graph.now.graph v.0))) }
{
    let mut next = graph.first_out(v);
    'arcs: while let Some(arc) = next {
        if goes_over(graph, arc.0, u, v, all) {
            steps.push(Step::MoveFrom(arc, u))?;
        }
        next = graph.next_out(arc);
    }
    Ok(())
}

/// The moves to u of the targets of the arcs to v, or of those whose sources are neither of the
/// two, behind other steps; the newest place comes first.
pub fn push_inward(
    graph: &ListDigraph,
    steps: &mut Vec<Step>,
    u: Node,
    v: Node,
    all: bool,
) -> Result<(), AllocError>
    requires valid { IsValid graph.now.graph }
    requires live { IsLive graph.now.graph ItemSort.Node v.0 }
    ensures { OnOk result (plain_steps steps.new.items ≡ plain_steps steps.old.items
        ++ alterations.targets_to u.0 (filter
        (λ arc. all || alterations.is_neither u.0 v.0 (source_of graph.now.graph arc))
        (in_arcs graph.now.graph v.0))) }
{
    let mut next = graph.first_in(v);
    'arcs: while let Some(arc) = next {
        if comes_over(graph, arc.0, u, v, all) {
            steps.push(Step::MoveTo(arc, u))?;
        }
        next = graph.next_in(arc);
    }
    Ok(())
}
