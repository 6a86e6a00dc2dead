//! A queue of nodes by their keys, the least key first.

ghost use Rattle.std.specs.Prelude.{◌≡◌, ◌≤◌, [], ◌∷◌, All, IfSome, IfNone, OnOk, OnErr};
ghost use Rattle.std.specs.Prelude.{IsPermutation};
ghost use Rattle.std.specs.BinaryHeap.{heap_items, IsHeap};
ghost use Rattle.std.proofs.Props.{props};
ghost use Rattle.path_search.specs.Queue.{entries_of};

use std::alloc::{AllocError, Global};
use std::cmp::Reverse;
use std::collections::BinaryHeap;

/// Nodes with their keys. A node may have several entries.
#[derive(Drop)]
pub struct Queue {
    heap: BinaryHeap<Reverse<(u64, u32)>>,
    ghost ordered: { IsHeap ⟦<Reverse<(u64, u32)> as Ord>⟧.cmp (heap_items heap) } by { Prim.hlevel props },
}

impl Queue {
    /// A queue without entries.
    pub fn new(alloc: Global) -> Queue
        ensures { entries_of (heap_items result.heap) ≡ [] }
    {
        Queue {
            heap: BinaryHeap::new(alloc),
        }
    }

    /// Adds an entry. Where memory is wanting the entries are as before.
    pub fn push(&mut self, key: u64, node: u32) -> Result<(), AllocError>
        ensures ok { OnOk result (IsPermutation
            ((key, node) ∷ entries_of (heap_items self.old.heap))
            (entries_of (heap_items self.new.heap))) }
        ensures err { OnErr result
            (entries_of (heap_items self.new.heap) ≡ entries_of (heap_items self.old.heap)) }
    {
        self.heap.push(Reverse((key, node)))?;
        Ok(())
    }

    /// Takes out an entry of the least key; None exactly where there is none.
    pub fn pop(&mut self) -> Option<(u64, u32)>
        ensures some { IfSome result (λ x. IsPermutation
            (entries_of (heap_items self.old.heap)) (x ∷ entries_of (heap_items self.new.heap))) }
        ensures least { IfSome result
            (λ x. All (λ y. x.0 ≤ y.0) (entries_of (heap_items self.new.heap))) }
        ensures none { IfNone result (entries_of (heap_items self.old.heap) ≡ []) }
    {
        let Reverse(top) = self.heap.pop()?;
        Some(top)
    }
}
