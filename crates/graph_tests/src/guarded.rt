//! A guard beside the facts that it stands for, so that what each notice asks can be looked up.

ghost use Rattle.std.specs.Prelude.{◌≡◌, ◌≢◌, ◌≤◌, true, Contains, IfSome};
ghost use Rattle.plain_digraph.specs.Facts.{fact_id};
ghost use Rattle.observe_core.specs.Items.{Lacks};
ghost use Rattle.observe_core.specs.Facts.{IsInBounds};
ghost use Rattle.observe_core.specs.Fits.{Fits};
ghost use Rattle.observe_core.specs.Guards.{fuse_part, greatest_k};
ghost use Rattle.observe_core.specs.Conditions.{HasSmallCounts, CanAdd, CanShift};
ghost use Rattle.fact_table.specs.Table.{facts_of};
ghost use Rattle.guard_kinds.specs.GuardViews.{guard_seen};

use base_items::{Fact, MAX_ARCS};
use fact_table::FactTable;
use guard_kinds::Guard;
use observe_core::{After, Kind, Observer, Readout, Veto};
use std::alloc::Global;

/// A guard and the facts that it stands for.
#[derive(Drop)]
pub struct Guarded {
    guard: Guard,
    facts: FactTable,
    ghost fits: { Fits (guard_seen guard) (facts_of facts) },
}

/// Whether the fact's id and ends are those of items.
pub fn is_in_bounds(fact: &Fact) -> bool
    ensures { result ≡ true → IsInBounds fact.now }
{
    fact.id < MAX_ARCS && fact.from < MAX_ARCS && fact.to < MAX_ARCS
}

// Whether the guard's counts leave room for one more.
fn has_small_counts(guard: &Guard) -> bool
    ensures { result ≡ true → HasSmallCounts (guard_seen guard.now) }
{
    let Readout {
        items: _,
        k: _,
        left: _,
        added,
        erased,
        moved,
    } = guard.readout();
    let limit = 1u64 << 62;
    added < limit && erased < limit && moved < limit
}

// Whether a guard of the kind may have this parameter.
fn is_parameter(kind: Kind, k: u32) -> bool
    ensures { result ≡ true → (k ≤ greatest_k kind) × (fuse_part kind 1 ≤ k) }
{
    match kind {
        Kind::Quota | Kind::OutCap => k <= MAX_ARCS,
        Kind::Fuse => k >= 1 && k <= MAX_ARCS,
        Kind::Map | Kind::Loopless | Kind::Simple | Kind::Tally => k == 0,
    }
}

impl Guarded {
    /// A guard with this parameter that tracks nothing. None where the kind has no such parameter.
    pub fn new(kind: Kind, k: u32, alloc: Global) -> Option<Guarded> {
        if kind == Kind::Map || !is_parameter(kind, k) {
            return None;
        }
        let mut guard = Guard::new(kind, alloc);
        guard.arm(k);
        Some(Guarded {
            guard,
            facts: FactTable::new(alloc),
        })
    }

    /// The guard's numbers.
    pub fn readout(&self) -> Readout {
        self.guard.readout()
    }

    // Whether the guard may be told of the addition.
    fn can_add(&self, f: &Fact) -> bool
        ensures can { result ≡ true → CanAdd f.now (guard_seen self.now.guard) }
        ensures lacks { result ≡ true → Lacks fact_id f.now.id (facts_of self.now.facts) }
        ensures bounded { result ≡ true → IsInBounds f.now }
    {
        is_in_bounds(f) && has_small_counts(&self.guard) && self.facts.get(f.id).is_none()
    }

    // The fact before a move of which the guard may be told.
    fn moves_from(&self, new: &Fact) -> Option<Fact>
        ensures can { IfSome result (λ old. CanShift old new.now (guard_seen self.now.guard)) }
        ensures there { IfSome result (λ old. Contains (facts_of self.now.facts) old) }
        ensures same { IfSome result (λ old. old.id ≡ new.now.id) }
        ensures differs { IfSome result (λ old. new.now ≢ old) }
        ensures bounded { IfSome result (λ _. IsInBounds new.now) }
    {
        let old = self.facts.get(new.id)?;
        if is_in_bounds(new) && has_small_counts(&self.guard) && old != *new {
            Some(old)
        } else {
            None
        }
    }

    /// Tells the guard of an addition. None where it can't be told, or memory is wanting.
    pub fn add(&mut self, f: Fact) -> Option<Result<(), Veto>> {
        if !self.can_add(&f) {
            return None;
        }
        if let Err(veto) = self.guard.add(f) {
            return Some(Err(veto));
        }
        if self.facts.insert(f).is_err() {
            self.guard.undo_add(f);
            return None;
        }
        Some(Ok(()))
    }

    /// Tells the guard of an addition, and, where it accepts it, that it never counted.
    pub fn add_and_back(&mut self, f: Fact) -> Option<Result<(), Veto>> {
        if !self.can_add(&f) {
            return None;
        }
        if let Err(veto) = self.guard.add(f) {
            return Some(Err(veto));
        }
        self.guard.undo_add(f);
        Some(Ok(()))
    }

    /// Tells the guard of a move. None where it can't be told.
    pub fn shift(&mut self, new: Fact) -> Option<Result<(), Veto>> {
        let old = self.moves_from(&new)?;
        if let Err(veto) = self.guard.shift(old, new) {
            return Some(Err(veto));
        }
        self.facts.replace(new);
        Some(Ok(()))
    }

    /// Tells the guard of a move, and, where it accepts it, that it never counted.
    pub fn shift_and_back(&mut self, new: Fact) -> Option<Result<(), Veto>> {
        let old = self.moves_from(&new)?;
        if let Err(veto) = self.guard.shift(old, new) {
            return Some(Err(veto));
        }
        self.guard.undo_shift(old, new);
        Some(Ok(()))
    }

    /// Tells the guard of an erasure. None where it can't be told.
    pub fn erase(&mut self, id: u32) -> Option<After> {
        let fact = self.facts.get(id)?;
        if !has_small_counts(&self.guard) {
            return None;
        }
        let after = self.guard.erase(fact);
        self.facts.remove(id);
        Some(after)
    }

    /// Tells the guard of a clear. None where it can't be told.
    pub fn clear(&mut self) -> Option<After> {
        if !has_small_counts(&self.guard) {
            return None;
        }
        let after = self.guard.clear();
        self.facts.clear();
        Some(after)
    }
}
