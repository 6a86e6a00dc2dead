//! The marks that tell the items of a tower apart that come from one item of the base.

ghost use Rattle.std.specs.Prelude.{◌≡◌, ◌++◌, reverse, IfOk};
ghost use Rattle.plain_views.specs.Marks as marks;
ghost use Rattle.view_tower.specs.Layers.{tower_of};

use crate::layers::Layer;
use std::alloc::{AllocError, Global};
use token_text::{Text, copy_text};

// Appends the marks of a node, those of the upper layers first.
fn push_node_marks(out: &mut Vec<u8>, layers: &[Layer], node: u32) -> Result<(), AllocError>
    ensures { IfOk result (λ _. reverse out.new.items
        ≡ marks.node_marks (tower_of layers.now) node ++ reverse out.old.items) }
{
    let mut at = layers.len();
    let mut id = node;
    'down: while at > 0 {
        at -= 1;
        match layers[at] {
            Layer::Split => {
                out.push(if id % 2 == 0 { b'i' } else { b'o' })?;
                id /= 2;
            }
            _ => {}
        }
    }
    Ok(())
}

// Appends the marks of an arc, those of the upper layers first.
fn push_arc_marks(out: &mut Vec<u8>, layers: &[Layer], arc: u32) -> Result<(), AllocError>
    ensures { IfOk result (λ _. reverse out.new.items
        ≡ marks.arc_marks (tower_of layers.now) arc ++ reverse out.old.items) }
{
    let mut at = layers.len();
    let mut id = arc;
    'down: while at > 0 {
        at -= 1;
        match layers[at] {
            Layer::Undirect => {
                out.push(if id % 2 == 0 { b'+' } else { b'-' })?;
                id /= 2;
            }
            Layer::Residual { .. } => {
                out.push(if id % 2 == 0 { b'+' } else { b'-' })?;
                id /= 2;
            }
            Layer::Split => {
                if id % 2 == 1 {
                    out.push(b'=')?;
                    return push_node_marks(out, &layers[..at], id / 2);
                }
                id /= 2;
            }
            _ => {}
        }
    }
    Ok(())
}

// The marks from the lowest layer up.
fn from_lowest(alloc: Global, marks: Vec<u8>) -> Result<Text, AllocError>
    ensures { IfOk result (λ text. text ≡ reverse marks.items) }
{
    let mut marks = marks;
    marks.reverse();
    copy_text(alloc, marks.as_slice())
}

/// The marks of a node of the tower: `i` for an in-node and `o` for an out-node, a letter for each
/// layer that splits, from the lowest up.
pub fn node_marks(alloc: Global, layers: &[Layer], node: u32) -> Result<Text, AllocError>
    ensures { IfOk result (λ text. text ≡ marks.node_marks (tower_of layers.now) node) }
{
    let mut out = Vec::new(alloc);
    push_node_marks(&mut out, layers, node)?;
    from_lowest(alloc, out)
}

/// The marks of an arc of the tower: `+` for an arc as it goes and `-` for one that is turned, a
/// mark for each undirect or residual layer from the lowest up. The arc that binds a split node has
/// the marks of the node and `=` in their place, up to the layer that split it.
pub fn arc_marks(alloc: Global, layers: &[Layer], arc: u32) -> Result<Text, AllocError>
    ensures { IfOk result (λ text. text ≡ marks.arc_marks (tower_of layers.now) arc) }
{
    let mut out = Vec::new(alloc);
    push_arc_marks(&mut out, layers, arc)?;
    from_lowest(alloc, out)
}
