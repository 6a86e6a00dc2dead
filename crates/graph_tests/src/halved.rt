//! Half a snapshot beside the facts that it stands for, so that what each notice asks can be looked
//! up.

ghost use Rattle.std.specs.Prelude.{◌≡◌, ◌≢◌, true, Contains, IfSome};
ghost use Rattle.plain_digraph.specs.Facts.{fact_id};
ghost use Rattle.observe_core.specs.Items.{Lacks};
ghost use Rattle.observe_core.specs.Facts.{IsInBounds};
ghost use Rattle.observe_core.specs.Fits.{Fits};
ghost use Rattle.observe_core.specs.Conditions.{CanAdd, CanShift};
ghost use Rattle.fact_table.specs.Table.{facts_of};
ghost use Rattle.snap_shots.specs.HalfViews.{half_seen};
ghost use Rattle.graph_tests.specs.Props.{props};

use crate::guarded::is_in_bounds;
use base_items::Fact;
use fact_table::FactTable;
use observe_core::{After, Observer, Veto};
use snap_shots::Half;
use std::alloc::Global;

/// A half and the facts that it stands for.
#[derive(Drop)]
pub struct Halved {
    half: Half,
    facts: FactTable,
    ghost fits: { Fits (half_seen half) (facts_of facts) } by { Prim.hlevel props },
}

impl Halved {
    /// A half that was made when there was nothing.
    pub fn new(alloc: Global) -> Halved {
        Halved {
            half: Half::new(alloc),
            facts: FactTable::new(alloc),
        }
    }

    /// The half.
    pub fn half(&self) -> &Half {
        &self.half
    }

    // Whether the half may be told of the addition.
    fn can_add(&self, f: &Fact) -> bool
        ensures can { result ≡ true → CanAdd f.now (half_seen self.now.half) }
        ensures lacks { result ≡ true → Lacks fact_id f.now.id (facts_of self.now.facts) }
        ensures bounded { result ≡ true → IsInBounds f.now }
    {
        is_in_bounds(f) && self.facts.get(f.id).is_none()
    }

    // The fact before a move of which the half may be told.
    fn moves_from(&self, new: &Fact) -> Option<Fact>
        ensures can { IfSome result (λ old. CanShift old new.now (half_seen self.now.half)) }
        ensures there { IfSome result (λ old. Contains (facts_of self.now.facts) old) }
        ensures same { IfSome result (λ old. old.id ≡ new.now.id) }
        ensures differs { IfSome result (λ old. new.now ≢ old) }
        ensures bounded { IfSome result (λ _. IsInBounds new.now) }
    {
        let old = self.facts.get(new.id)?;
        if is_in_bounds(new) && old != *new {
            Some(old)
        } else {
            None
        }
    }

    /// Makes the half anew when this item is there alone. None where it can't be told of it, or
    /// memory is wanting.
    pub fn restart(&mut self, alloc: Global, f: Fact) -> Option<()> {
        let mut half = Half::new(alloc);
        let mut facts = FactTable::new(alloc);
        if !is_in_bounds(&f) || facts.insert(f).is_err() || half.build(&[f]).is_err() {
            return None;
        }
        *self = Halved { half, facts };
        Some(())
    }

    /// Tells the half of an addition. None where it can't be told, or memory is wanting.
    pub fn add(&mut self, f: Fact) -> Option<Result<(), Veto>> {
        if !self.can_add(&f) {
            return None;
        }
        if let Err(veto) = self.half.add(f) {
            return Some(Err(veto));
        }
        if self.facts.insert(f).is_err() {
            self.half.undo_add(f);
            return None;
        }
        Some(Ok(()))
    }

    /// Tells the half of an addition, and that it never counted.
    pub fn add_and_back(&mut self, f: Fact) -> Option<Result<(), Veto>> {
        if !self.can_add(&f) {
            return None;
        }
        if let Err(veto) = self.half.add(f) {
            return Some(Err(veto));
        }
        self.half.undo_add(f);
        Some(Ok(()))
    }

    /// Tells the half of a move. None where it can't be told.
    pub fn shift(&mut self, new: Fact) -> Option<Result<(), Veto>> {
        let old = self.moves_from(&new)?;
        if let Err(veto) = self.half.shift(old, new) {
            return Some(Err(veto));
        }
        self.facts.replace(new);
        Some(Ok(()))
    }

    /// Tells the half of a move, and that it never counted.
    pub fn shift_and_back(&mut self, new: Fact) -> Option<Result<(), Veto>> {
        let old = self.moves_from(&new)?;
        if let Err(veto) = self.half.shift(old, new) {
            return Some(Err(veto));
        }
        self.half.undo_shift(old, new);
        Some(Ok(()))
    }

    /// Tells the half of an erasure. None where it can't be told.
    pub fn erase(&mut self, id: u32) -> Option<After> {
        let fact = self.facts.get(id)?;
        let after = self.half.erase(fact);
        self.facts.remove(id);
        Some(after)
    }

    /// Tells the half of a clear.
    pub fn clear(&mut self) -> After {
        let after = self.half.clear();
        self.facts.clear();
        after
    }
}
