//! An observer beside the facts that it stands for, so that what each notice asks can be looked up.

ghost use Rattle.std.specs.Prelude.{◌≡◌, ◌≢◌, true, Contains, IfSome};
ghost use Rattle.plain_digraph.specs.Facts.{fact_id};
ghost use Rattle.observe_core.specs.Items.{Lacks};
ghost use Rattle.observe_core.specs.Facts.{IsInBounds};
ghost use Rattle.observe_core.specs.Fits.{Fits};
ghost use Rattle.observe_core.specs.Conditions.{HasSmallCounts, CanAdd, CanShift};
ghost use Rattle.fact_table.specs.Table.{facts_of};

use base_items::{Fact, MAX_ARCS};
use fact_table::FactTable;
use observe_core::{Observer, Readout};

// Whether the fact's id and ends are those of items.
fn is_in_bounds(fact: &Fact) -> bool
    ensures { result ≡ true → IsInBounds fact.now }
{
    fact.id < MAX_ARCS && fact.from < MAX_ARCS && fact.to < MAX_ARCS
}

// Whether the observer's counts leave room for one more.
fn has_small_counts<O: Observer>(observer: &O) -> bool
    ensures { result ≡ true → HasSmallCounts (O.watch observer.now).seen }
{
    let Readout {
        items: _,
        k: _,
        left: _,
        added,
        erased,
        moved,
    } = observer.readout();
    let limit = 1u64 << 62;
    added < limit && erased < limit && moved < limit
}

// Whether the observer may be told of the addition.
fn can_add<O: Observer>(observer: &O, facts: &FactTable, f: &Fact) -> bool
    requires { Fits (O.watch observer.now).seen (facts_of facts.now) }
    ensures can { result ≡ true → CanAdd f.now (O.watch observer.now).seen }
    ensures lacks { result ≡ true → Lacks fact_id f.now.id (facts_of facts.now) }
    ensures bounded { result ≡ true → IsInBounds f.now }
{
    is_in_bounds(f) && has_small_counts(observer) && facts.get(f.id).is_none()
}

/// Tells of an addition. False where it can't be told, is refused, or memory is wanting.
pub fn add<O: Observer>(observer: &mut O, facts: &mut FactTable, f: Fact) -> bool
    requires { Fits (O.watch observer.old).seen (facts_of facts.old) }
    ensures { Fits (O.watch observer.new).seen (facts_of facts.new) }
{
    if !can_add(observer, facts, &f) {
        return false;
    }
    if let Err(veto) = observer.add(f) {
        let _ = veto;
        return false;
    }
    if facts.insert(f).is_err() {
        observer.undo_add(f);
        return false;
    }
    true
}

// The fact before a move of which the observer may be told.
fn moves_from<O: Observer>(observer: &O, facts: &FactTable, new: &Fact) -> Option<Fact>
    requires { Fits (O.watch observer.now).seen (facts_of facts.now) }
    ensures can { IfSome result (λ old. CanShift old new.now (O.watch observer.now).seen) }
    ensures there { IfSome result (λ old. Contains (facts_of facts.now) old) }
    ensures same { IfSome result (λ old. old.id ≡ new.now.id) }
    ensures differs { IfSome result (λ old. new.now ≢ old) }
    ensures bounded { IfSome result (λ _. IsInBounds new.now) }
{
    let old = facts.get(new.id)?;
    if is_in_bounds(new) && has_small_counts(observer) && old != *new {
        Some(old)
    } else {
        None
    }
}

/// Tells of a move. False where it can't be told, is refused, or memory is wanting.
pub fn shift<O: Observer>(observer: &mut O, facts: &mut FactTable, new: Fact) -> bool
    requires { Fits (O.watch observer.old).seen (facts_of facts.old) }
    ensures { Fits (O.watch observer.new).seen (facts_of facts.new) }
{
    let Some(old) = moves_from(observer, facts, &new) else {
        return false;
    };
    if let Err(veto) = observer.shift(old, new) {
        let _ = veto;
        return false;
    }
    facts.replace(new);
    true
}

/// Tells of an erasure. False where it can't be told.
pub fn erase<O: Observer>(observer: &mut O, facts: &mut FactTable, id: u32) -> bool
    requires { Fits (O.watch observer.old).seen (facts_of facts.old) }
    ensures { Fits (O.watch observer.new).seen (facts_of facts.new) }
{
    let Some(fact) = facts.get(id) else {
        return false;
    };
    if !has_small_counts(observer) {
        return false;
    }
    let _ = observer.erase(fact);
    facts.remove(id);
    true
}

/// Tells of a clear. False where it can't be told.
pub fn clear<O: Observer>(observer: &mut O, facts: &mut FactTable) -> bool
    requires { Fits (O.watch observer.old).seen (facts_of facts.old) }
    ensures { Fits (O.watch observer.new).seen (facts_of facts.new) }
{
    if !has_small_counts(observer) {
        return false;
    }
    let _ = observer.clear();
    facts.clear();
    true
}
