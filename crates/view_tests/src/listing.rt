//! What a tower shows, as a text.

ghost use Rattle.std.specs.Prelude.{◌≡◌, true};
ghost use Rattle.plain_digraph.specs.Lists as lists;

use crate::columns::Columns;
use base_items::{Arc, Node};
use std::alloc::{AllocError, Global};
use std::fmt::Write;
use view_core::Shown;
use view_tower::Over;

/// The nodes in their order, each with its marks in parentheses, the arcs from it behind `>` and
/// the arcs to it behind `<`. As `1(o) >3 2 <; 0(i) > <3 2; `.
pub fn listed<'a, G: Shown>(
    alloc: Global,
    tower: &Over<'a, Columns, G>,
) -> Result<String, AllocError> {
    let mut text = String::new(alloc);
    let mut next = tower.first_node();
    for _ in 0..64 {
        let Some(node) = next else {
            return Ok(text);
        };
        if !tower.has_node(node) {
            break;
        }
        push_node(alloc, &mut text, tower, node)?;
        next = tower.next_node(node);
    }
    text.push_str("more")?;
    Ok(text)
}

// A node with the arcs from it and the arcs to it.
fn push_node<'a, G: Shown>(
    alloc: Global,
    text: &mut String,
    tower: &Over<'a, Columns, G>,
    node: Node,
) -> Result<(), AllocError>
    requires { lists.has (⟦<Over<'a, Columns, G> as Shown>⟧.graph tower.now).nodes node.0 ≡ true }
{
    write!(text, "{}", node.0)?;
    push_marks(text, tower.node_marks(alloc, node)?.as_bytes())?;
    text.push_str(" >")?;
    push_outs(text, tower, node)?;
    text.push_str(" <")?;
    push_ins(text, tower, node)?;
    text.push_str("; ")
}

// Marks in parentheses, if there are any.
fn push_marks(text: &mut String, marks: &[u8]) -> Result<(), AllocError> {
    if marks.is_empty() {
        return Ok(());
    }
    text.push_str("(")?;
    for mark in marks {
        text.push(char::from(*mark))?;
    }
    text.push_str(")")
}

// The arcs from the node, each behind the first with a blank before it.
fn push_outs<G: Shown>(text: &mut String, view: &G, node: Node) -> Result<(), AllocError>
    requires { lists.has (G.graph view.now).nodes node.0 ≡ true }
{
    let mut next = view.first_out(node);
    for place in 0..64 {
        let Some(arc) = next else {
            return Ok(());
        };
        if !view.has_arc(arc) {
            break;
        }
        push_id(text, place, arc)?;
        next = view.next_out(arc);
    }
    text.push_str(" more")
}

// The arcs to the node.
fn push_ins<G: Shown>(text: &mut String, view: &G, node: Node) -> Result<(), AllocError>
    requires { lists.has (G.graph view.now).nodes node.0 ≡ true }
{
    let mut next = view.first_in(node);
    for place in 0..64 {
        let Some(arc) = next else {
            return Ok(());
        };
        if !view.has_arc(arc) {
            break;
        }
        push_id(text, place, arc)?;
        next = view.next_in(arc);
    }
    text.push_str(" more")
}

// The id at this place of a list, with a blank before each but the first.
fn push_id(text: &mut String, place: u32, arc: Arc) -> Result<(), AllocError> {
    if place > 0 {
        text.push_str(" ")?;
    }
    write!(text, "{}", arc.0)
}

/// The arcs with ids below a bound that are shown, by rising id, each with its marks in
/// parentheses, its ends, the values that it pulls from the capacity and from the flow, and whether
/// it passes. As `0(+) 1-2 2 0 yes; 1(-) 2-1 -2 0 yes; `.
pub fn pulled<'a, G: Shown>(
    alloc: Global,
    tower: &Over<'a, Columns, G>,
    bound: u32,
) -> Result<String, AllocError> {
    let mut text = String::new(alloc);
    for id in 0..bound {
        let arc = Arc(id);
        if tower.has_arc(arc) {
            write!(text, "{id}")?;
            push_marks(&mut text, tower.arc_marks(alloc, arc)?.as_bytes())?;
            let (from, to) = tower.ends(arc);
            let cap = tower.pulled_int(0, arc);
            let flow = tower.pulled_int(2, arc);
            let passes = if tower.pulled_bool(1, arc) {
                "yes"
            } else {
                "no"
            };
            write!(text, " {}-{} {cap} {flow} {passes}; ", from.0, to.0)?;
        }
    }
    Ok(text)
}

/// The nodes in their order, each with the arcs from it behind `>` and the arcs to it behind `<`;
/// then the ends of the arcs with ids below a bound, by rising id. As
/// `1 >3 2 <; 0 > <3 2; 2:1-0 3:1-0 `.
pub fn walked<G: Shown>(alloc: Global, view: &G, bound: u32) -> Result<String, AllocError> {
    let mut text = String::new(alloc);
    let mut next = view.first_node();
    for _ in 0..64 {
        let Some(node) = next else {
            push_ends(&mut text, view, bound)?;
            return Ok(text);
        };
        if !view.has_node(node) {
            break;
        }
        write!(text, "{} >", node.0)?;
        push_outs(&mut text, view, node)?;
        text.push_str(" <")?;
        push_ins(&mut text, view, node)?;
        text.push_str("; ")?;
        next = view.next_node(node);
    }
    text.push_str("more")?;
    Ok(text)
}

// The ends of all arcs with ids below the bound.
fn push_ends<G: Shown>(text: &mut String, view: &G, bound: u32) -> Result<(), AllocError> {
    for id in 0..bound {
        if view.has_arc(Arc(id)) {
            let (from, to) = view.ends(Arc(id));
            write!(text, "{id}:{}-{} ", from.0, to.0)?;
        }
    }
    Ok(())
}
