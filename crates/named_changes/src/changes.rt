//! Alterations of a digraph under observers, by ids.

ghost use Rattle.std.specs.Prelude.{◌≡◌};
ghost use Rattle.alter_graph.specs.State.{state_of, IsInStep};

use alter_graph::{AlterFault, Alterable};
use base_items::{Arc, ItemSort, Node};
use digraph_text::is_live;
use observe_core::Observer;
use std::alloc::Global;

/// An alteration, whose items are named by their ids.
#[derive(Clone, Copy, Debug)]
pub enum Change {
    AddNode,
    AddArc(u32, u32),
    Source(u32, u32),
    Target(u32, u32),
    Turn(u32),
    EraseArc(u32),
    EraseNode(u32),
    Clear,
    /// The second goes into the first, by the form that makes no loops or by the one that may.
    Contract(u32, u32, bool),
    /// With the bind arc or without it.
    SplitNode(u32, bool),
    SplitArc(u32),
}

/// Alters the digraph. None where an item isn't live.
pub fn alter<O: Observer>(
    all: &mut Alterable<O>,
    change: Change,
    alloc: Global,
) -> Option<Result<(), AlterFault>>
    requires { IsInStep (state_of O.watch all.old) }
    ensures in_step { IsInStep (state_of O.watch all.new) }
    ensures names { all.new.chains.snaps ≡ all.old.chains.snaps }
{
    match change {
        Change::AddNode => Some(add_node(all)),
        Change::AddArc(u, v) => add_arc(all, u, v),
        Change::Source(arc, node) => move_from(all, arc, node),
        Change::Target(arc, node) => move_to(all, arc, node),
        Change::Turn(arc) => turn(all, arc),
        Change::EraseArc(arc) => erase_arc(all, arc),
        Change::EraseNode(node) => erase_node(all, node),
        Change::Clear => Some(clear(all)),
        Change::Contract(u, v, loops) => contract(all, u, v, loops, alloc),
        Change::SplitNode(node, connect) => split_node(all, node, connect, alloc),
        Change::SplitArc(arc) => split_arc(all, arc, alloc),
    }
}

fn add_node<O: Observer>(all: &mut Alterable<O>) -> Result<(), AlterFault>
    requires { IsInStep (state_of O.watch all.old) }
    ensures in_step { IsInStep (state_of O.watch all.new) }
    ensures names { all.new.chains.snaps ≡ all.old.chains.snaps }
{
    match all.add_node() {
        Ok(_) => Ok(()),
        Err(fault) => Err(fault),
    }
}

fn add_arc<O: Observer>(all: &mut Alterable<O>, u: u32, v: u32) -> Option<Result<(), AlterFault>>
    requires { IsInStep (state_of O.watch all.old) }
    ensures in_step { IsInStep (state_of O.watch all.new) }
    ensures names { all.new.chains.snaps ≡ all.old.chains.snaps }
{
    if !is_live(all.graph(), ItemSort::Node, u) {
        return None;
    }
    if !is_live(all.graph(), ItemSort::Node, v) {
        return None;
    }
    match all.add_arc(Node(u), Node(v)) {
        Ok(_) => Some(Ok(())),
        Err(fault) => Some(Err(fault)),
    }
}

fn move_from<O: Observer>(
    all: &mut Alterable<O>,
    arc: u32,
    node: u32,
) -> Option<Result<(), AlterFault>>
    requires { IsInStep (state_of O.watch all.old) }
    ensures in_step { IsInStep (state_of O.watch all.new) }
    ensures names { all.new.chains.snaps ≡ all.old.chains.snaps }
{
    if !is_live(all.graph(), ItemSort::Arc, arc) {
        return None;
    }
    if !is_live(all.graph(), ItemSort::Node, node) {
        return None;
    }
    Some(all.move_from(Arc(arc), Node(node)))
}

fn move_to<O: Observer>(
    all: &mut Alterable<O>,
    arc: u32,
    node: u32,
) -> Option<Result<(), AlterFault>>
    requires { IsInStep (state_of O.watch all.old) }
    ensures in_step { IsInStep (state_of O.watch all.new) }
    ensures names { all.new.chains.snaps ≡ all.old.chains.snaps }
{
    if !is_live(all.graph(), ItemSort::Arc, arc) {
        return None;
    }
    if !is_live(all.graph(), ItemSort::Node, node) {
        return None;
    }
    Some(all.move_to(Arc(arc), Node(node)))
}

fn turn<O: Observer>(all: &mut Alterable<O>, arc: u32) -> Option<Result<(), AlterFault>>
    requires { IsInStep (state_of O.watch all.old) }
    ensures in_step { IsInStep (state_of O.watch all.new) }
    ensures names { all.new.chains.snaps ≡ all.old.chains.snaps }
{
    if !is_live(all.graph(), ItemSort::Arc, arc) {
        return None;
    }
    Some(all.turn(Arc(arc)))
}

fn erase_arc<O: Observer>(all: &mut Alterable<O>, arc: u32) -> Option<Result<(), AlterFault>>
    requires { IsInStep (state_of O.watch all.old) }
    ensures in_step { IsInStep (state_of O.watch all.new) }
    ensures names { all.new.chains.snaps ≡ all.old.chains.snaps }
{
    if !is_live(all.graph(), ItemSort::Arc, arc) {
        return None;
    }
    all.erase_arc(Arc(arc));
    Some(Ok(()))
}

fn erase_node<O: Observer>(all: &mut Alterable<O>, node: u32) -> Option<Result<(), AlterFault>>
    requires { IsInStep (state_of O.watch all.old) }
    ensures in_step { IsInStep (state_of O.watch all.new) }
    ensures names { all.new.chains.snaps ≡ all.old.chains.snaps }
{
    if !is_live(all.graph(), ItemSort::Node, node) {
        return None;
    }
    all.erase_node(Node(node));
    Some(Ok(()))
}

fn clear<O: Observer>(all: &mut Alterable<O>) -> Result<(), AlterFault>
    requires { IsInStep (state_of O.watch all.old) }
    ensures in_step { IsInStep (state_of O.watch all.new) }
    ensures names { all.new.chains.snaps ≡ all.old.chains.snaps }
{
    all.clear();
    Ok(())
}

fn contract<O: Observer>(
    all: &mut Alterable<O>,
    u: u32,
    v: u32,
    loops: bool,
    alloc: Global,
) -> Option<Result<(), AlterFault>>
    requires { IsInStep (state_of O.watch all.old) }
    ensures in_step { IsInStep (state_of O.watch all.new) }
    ensures names { all.new.chains.snaps ≡ all.old.chains.snaps }
{
    if !is_live(all.graph(), ItemSort::Node, u) {
        return None;
    }
    if !is_live(all.graph(), ItemSort::Node, v) {
        return None;
    }
    Some(all.contract(Node(u), Node(v), loops, alloc))
}

fn split_node<O: Observer>(
    all: &mut Alterable<O>,
    node: u32,
    connect: bool,
    alloc: Global,
) -> Option<Result<(), AlterFault>>
    requires { IsInStep (state_of O.watch all.old) }
    ensures in_step { IsInStep (state_of O.watch all.new) }
    ensures names { all.new.chains.snaps ≡ all.old.chains.snaps }
{
    if !is_live(all.graph(), ItemSort::Node, node) {
        return None;
    }
    match all.split_node(Node(node), connect, alloc) {
        Ok(_) => Some(Ok(())),
        Err(fault) => Some(Err(fault)),
    }
}

fn split_arc<O: Observer>(
    all: &mut Alterable<O>,
    arc: u32,
    alloc: Global,
) -> Option<Result<(), AlterFault>>
    requires { IsInStep (state_of O.watch all.old) }
    ensures in_step { IsInStep (state_of O.watch all.new) }
    ensures names { all.new.chains.snaps ≡ all.old.chains.snaps }
{
    if !is_live(all.graph(), ItemSort::Arc, arc) {
        return None;
    }
    match all.split_arc(Arc(arc), alloc) {
        Ok(_) => Some(Ok(())),
        Err(fault) => Some(Err(fault)),
    }
}
