//! How a word names a node of a view.

ghost use Rattle.std.specs.Prelude.{◌≡◌, ◌≤◌, ◌<◌, ℕ, List, Some, length, reverse};
ghost use Rattle.std.specs.Prelude.{is_some, IfOk, IfErr, IfNone, IfSome};
ghost use Rattle.report_text.specs.declared.faults.Fault.TheVariants as faults;
ghost use Rattle.plain_world.specs.Refusals.{unless};
ghost use Rattle.view_tower.specs.Layers.{tower_of};
ghost use Rattle.desk_world.specs.Faults.{Is};
ghost use Rattle.desk_world.specs.Naming.{ShowsLive};
ghost use Rattle.desk_world.specs.NodeWords as words;
ghost use Rattle.desk_world.specs.NodeWords.{IsParted, Means, letters_of, node_by, node_called_so};
ghost use Rattle.desk_world.specs.Plain.{plain_of};
ghost use Rattle.desk_world.specs.InStep.{IsInStep};

use crate::refusals::unknown;
use crate::world::World;
use base_items::{ItemSort, Node};
use desk_seats::Seat;
use observe_core::Observer;
use report_text::StepFault;
use std::alloc::{AllocError, Global};
use token_text::{Text, copy_text};
use view_core::Shown;
use view_tower::Layer;

// How many letters stand behind the label of a node: one for each layer that splits.
fn count_letters(layers: &[Layer]) -> usize
    requires { length layers.now ≤ 8 }
    ensures { result ≡ letters_of (tower_of layers.now) }
{
    let mut count = 0;
    for layer in layers {
        if is_split(layer) {
            count += 1;
        }
    }
    count
}

// Whether the layer splits nodes.
fn is_split(layer: &Layer) -> bool
    ensures { result ≡ words.is_split layer.now }
{
    match layer {
        Layer::Split => true,
        _ => false,
    }
}

// The label and the letters of which the word is made. None where it isn't made so.
fn parted(word: &[u8], count: usize) -> Option<(&[u8], &[u8])>
    ensures parts { IfSome result (λ parts. IsParted count word.now parts.0.now parts.1.now) }
    ensures none { IfNone result ((label letters : List ℕ)
        → IsParted count word.now label letters → ⊥) }
{
    if count == 0 {
        return Some((word, &word[word.len()..]));
    }
    if count >= word.len() {
        return None;
    }
    let at = word.len() - count - 1;
    if word[at] != b'/' {
        return None;
    }
    Some((&word[..at], &word[at + 1..]))
}

// The node that comes from this one by these letters, that of the lowest layer first. None where
// they are no such letters.
fn node_above(letters: &[u8], node: u32) -> Option<u32>
    requires few { length letters.now ≤ 8 }
    requires low { node < 4194304 }
    ensures { result ≡ node_by (reverse letters.now) node }
{
    let mut id = node;
    for letter in letters {
        if *letter == b'i' {
            id = 2 * id;
        } else if *letter == b'o' {
            id = 2 * id + 1;
        } else {
            return None;
        }
    }
    Some(id)
}

impl<B: Observer> World<Seat<B>> {
    /// The node that the layers would show under the name. None where the name is of no such form,
    /// or no node of the base has the label. The error is want of memory.
    pub(crate) fn node_meant(
        &self,
        alloc: Global,
        layers: &[Layer],
        word: &Text,
    ) -> Result<Option<u32>, AllocError>
        requires in_step { IsInStep ⟦<Seat<B> as Observer>⟧.watch self.now }
        requires few { length layers.now ≤ 8 }
        ensures { let world = plain_of ⟦<Seat<B> as Observer>⟧.watch self.now in
            IfOk result (Means world (tower_of layers.now) word.now) }
    {
        let Some((label, letters)) = parted(word.as_bytes(), count_letters(layers)) else {
            return Ok(None);
        };
        let label = copy_text(alloc, label)?;
        match self.item_named(ItemSort::Node, &label) {
            Some(node) => Ok(node_above(letters, node)),
            None => Ok(None),
        }
    }

    /// The shown node that has the name. `Unknown` where none has it.
    pub(crate) fn find_node<G: Shown>(
        &self,
        alloc: Global,
        layers: &[Layer],
        g: &G,
        word: &Text,
    ) -> Result<u32, StepFault>
        requires in_step { IsInStep ⟦<Seat<B> as Observer>⟧.watch self.now }
        requires few { length layers.now ≤ 8 }
        requires live { ShowsLive self.now.graph.graph.graph (tower_of layers.now)
            (G.graph g.now) }
        ensures found { let world = plain_of ⟦<Seat<B> as Observer>⟧.watch self.now in
            IfOk result (λ node. node_called_so world (tower_of layers.now) (G.graph g.now) word.now
            ≡ Some node) }
        ensures unknown { let world = plain_of ⟦<Seat<B> as Observer>⟧.watch self.now in
            let node = node_called_so world (tower_of layers.now) (G.graph g.now) word.now in
            IfErr result (Is (unless (is_some node) (faults.Unknown word.now))) }
    {
        match self.node_meant(alloc, layers, word)? {
            Some(node) => {
                if g.has_node(Node(node)) {
                    return Ok(node);
                }
                Err(unknown(alloc, word))
            }
            None => Err(unknown(alloc, word)),
        }
    }
}
