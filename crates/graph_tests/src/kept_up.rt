//! Writes to maps that stand for the facts of a table, so that each map goes on to stand for them.

ghost use Rattle.std.specs.Prelude.{◌≡◌, ◌≤◌, true};
ghost use Rattle.observe_core.specs.Fits.{Fits};
ghost use Rattle.fact_table.specs.Table.{facts_of};
ghost use Rattle.value_maps.specs.Views.{ints_seen, bools_seen, texts_seen};
ghost use Rattle.index_maps.specs.TrueViews.{trues_seen};
ghost use Rattle.index_maps.specs.TieViews.{ties_seen};
ghost use Rattle.index_maps.specs.RefViews.{refs_seen, room_of};

use fact_table::FactTable;
use index_maps::{CrossRef, Ties, TrueItems};
use token_text::Text;
use value_maps::{BoolMap, IntMap, TextMap};

/// Sets the int of an item. False where it isn't live.
pub fn set_int(map: &mut IntMap, facts: &FactTable, id: u32, value: i64) -> bool
    requires { Fits (ints_seen map.old) (facts_of facts.now) }
    ensures { Fits (ints_seen map.new) (facts_of facts.now) }
{
    let Some(fact) = facts.get(id) else {
        return false;
    };
    map.set(id, value);
    true
}

/// Sets the bool of an item. False where it isn't live.
pub fn set_bool(map: &mut BoolMap, facts: &FactTable, id: u32, value: bool) -> bool
    requires { Fits (bools_seen map.old) (facts_of facts.now) }
    ensures { Fits (bools_seen map.new) (facts_of facts.now) }
{
    let Some(fact) = facts.get(id) else {
        return false;
    };
    map.set(id, value);
    true
}

/// Sets the text of an item: the text from before. None where it isn't live.
pub fn set_text(map: &mut TextMap, facts: &FactTable, id: u32, value: Text) -> Option<Text>
    requires { Fits (texts_seen map.old) (facts_of facts.now) }
    ensures { Fits (texts_seen map.new) (facts_of facts.now) }
{
    let fact = facts.get(id)?;
    Some(map.set(id, value))
}

/// Writes whether an item is true. False where it isn't live.
pub fn write_true(map: &mut TrueItems, facts: &FactTable, id: u32, value: bool) -> bool
    requires { Fits (trues_seen map.old) (facts_of facts.now) }
    ensures { Fits (trues_seen map.new) (facts_of facts.now) }
{
    let Some(fact) = facts.get(id) else {
        return false;
    };
    map.write(id, value);
    true
}

/// Ties a number to an item. False where it is tied, the item isn't live, or memory is wanting.
pub fn tie_item(ties: &mut Ties, facts: &FactTable, tie: u32, id: u32) -> bool
    requires { Fits (ties_seen ties.old) (facts_of facts.now) }
    ensures { Fits (ties_seen ties.new) (facts_of facts.now) }
{
    let Some(fact) = facts.get(id) else {
        return false;
    };
    if ties.item(tie).is_some() {
        return false;
    }
    match ties.put(tie, id) {
        Ok(()) => true,
        Err(_) => false,
    }
}

// Makes room for a label. False where it is an item's, or memory is wanting.
fn reserve_label(refs: &mut CrossRef, facts: &FactTable, label: &Text) -> bool
    requires { Fits (refs_seen refs.old) (facts_of facts.now) }
    ensures fits { Fits (refs_seen refs.new) (facts_of facts.now) }
    ensures room { result ≡ true → 1 ≤ room_of refs.new }
{
    let _ = facts;
    match refs.find(label) {
        Some(_) => return false,
        None => {}
    }
    match refs.reserve(label) {
        Ok(()) => true,
        Err(_) => false,
    }
}

/// Gives a label to an item. False where it has one, it isn't live, the label is an item's, or
/// memory is wanting.
pub fn name_item(refs: &mut CrossRef, facts: &FactTable, id: u32, label: Text) -> bool
    requires { Fits (refs_seen refs.old) (facts_of facts.now) }
    ensures { Fits (refs_seen refs.new) (facts_of facts.now) }
{
    let Some(fact) = facts.get(id) else {
        return false;
    };
    if !reserve_label(refs, facts, &label) {
        return false;
    }
    // the contracts of the calls below speak of the table with the room
    match refs.find(&label) {
        Some(_) => return false,
        None => {}
    }
    match refs.label(id) {
        Some(_) => return false,
        None => {}
    }
    refs.put(id, label);
    true
}
