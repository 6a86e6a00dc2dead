//! A table of labels: each stands at a place of its own, and none stands twice.

ghost use Rattle.std.specs.Prelude.{◌≡◌, ◌-◌, ◌<◌, ◌==◌, ◌∷◌, ◌++◌, [], length, take, slice_get};
ghost use Rattle.std.specs.Prelude.{not, if◌then◌else◌, Some, MatchOption, IfOk, OnOk, OnErr};
ghost use Rattle.token_text.specs.Names.{IsNoneOf, is_among};

use crate::texts::Text;
use indexmap::IndexSet;
use std::alloc::{AllocError, Global};
use std::marker::Model;

/// Labels that differ, each at its place, from 0. A look-up takes one step, not one a label.
#[derive(Drop)]
pub struct LabelTable {
    labels: IndexSet<Text>,
}

impl Model for LabelTable {
    ghost use Rattle.std.specs.Prelude.{List, ℕ};

    ghost Value = { List (List ℕ) };

    ghost view = { λ t. t.labels.keys };
}

impl LabelTable {
    /// The table without labels.
    pub fn new(alloc: Global) -> LabelTable
        ensures { result ≡ [] }
    {
        LabelTable {
            labels: IndexSet::new(alloc),
        }
    }

    /// The number of labels.
    pub fn len(&self) -> usize
        ensures { result ≡ length self.now }
    {
        self.labels.len()
    }

    /// Whether there are no labels.
    pub fn is_empty(&self) -> bool
        ensures { result ≡ (length self.now == 0) }
    {
        self.labels.is_empty()
    }

    /// The place of the label. None exactly where it isn't there.
    pub fn find(&self, label: &Text) -> Option<usize>
        ensures { MatchOption result (IsNoneOf label.now self.now) (λ place.
            slice_get self.now place ≡ Some label.now) }
    {
        self.labels.get_index_of(label)
    }

    /// The label at the place.
    pub fn label(&self, place: usize) -> &Text
        requires { place < length self.now }
        ensures { slice_get self.now place ≡ Some result.now }
    {
        &self.labels[place]
    }

    /// Puts the label last, unless it is there already: whether it was put. Where memory runs out
    /// the table is as before.
    pub fn insert(&mut self, label: Text) -> Result<bool, AllocError>
        ensures fresh { IfOk result (λ fresh. fresh ≡ not (is_among label self.old)) }
        ensures inserted { IfOk result (λ fresh.
            self.new ≡ (if fresh then self.old ++ label ∷ [] else self.old)) }
        ensures unchanged { OnErr result (self.new ≡ self.old) }
    {
        let (_, fresh) = self.labels.insert_full(label)?;
        Ok(fresh)
    }

    /// Puts the label last. Where memory runs out the table is as before.
    pub fn add(&mut self, label: Text) -> Result<(), AllocError>
        requires { IsNoneOf label self.old }
        ensures added { OnOk result (self.new ≡ self.old ++ label ∷ []) }
        ensures unchanged { OnErr result (self.new ≡ self.old) }
    {
        self.labels.insert(label)?;
        Ok(())
    }

    /// Takes the last label away.
    pub fn remove_last(&mut self)
        requires { 0 < length self.old }
        ensures { self.new ≡ take (length self.old - 1) self.old }
    {
        let _ = self.labels.pop();
    }
}
