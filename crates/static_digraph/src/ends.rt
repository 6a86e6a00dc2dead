//! The arcs by number: the item of each and the numbers of its ends.

ghost use Rattle.std.specs.Prelude.{◌≡◌, IfOk, map};
ghost use Rattle.plain_certificates.specs.Tables.{at};
ghost use Rattle.static_digraph.specs.Places.{AreInTable};

use base_items::Fact;
use std::alloc::{AllocError, Global};

/// The item of each arc, its source and its target.
#[derive(Drop)]
pub struct Ends {
    pub items: Vec<u32>,
    pub from: Vec<u32>,
    pub to: Vec<u32>,
}

/// Numbers the ends of arcs by a table of places.
pub fn number_ends(alloc: Global, arcs: &[Fact], table: &[u32]) -> Result<Ends, AllocError>
    requires { AreInTable table.now arcs.now }
    ensures items { IfOk result (λ ends. ends.items.items ≡ map (λ fact. fact.id) arcs.now) }
    ensures from { IfOk result
        (λ ends. ends.from.items ≡ map (λ fact. at 0 table.now fact.from) arcs.now) }
    ensures to { IfOk result
        (λ ends. ends.to.items ≡ map (λ fact. at 0 table.now fact.to) arcs.now) }
{
    let mut items = Vec::with_capacity(alloc, arcs.len())?;
    let mut from = Vec::with_capacity(alloc, arcs.len())?;
    let mut to = Vec::with_capacity(alloc, arcs.len())?;
    for fact in arcs {
        items.push(fact.id)?;
        from.push(table[fact.from as usize])?;
        to.push(table[fact.to as usize])?;
    }
    Ok(Ends { items, from, to })
}
