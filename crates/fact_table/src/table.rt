//! The table: facts go in, change, go out and are walked by their ids.

ghost use Rattle.std.specs.Prelude.{◌≡◌, ◌≤◌, IsTrue, length, vec_len};
ghost use Rattle.fact_table.specs.Tests.{facts_placed};
ghost use Rattle.observe_core.specs.Slots.{present};

use base_items::Fact;
use std::alloc::{AllocError, Global};

/// Facts of different ids, each with an id and ends below `MAX_ARCS`. Contracts see them by rising
/// id (`facts_of`).
///
/// Below the reach (`reach_of`), which no call lowers, a fact goes in without memory.
#[derive(Drop)]
pub struct FactTable {
    slots: Vec<Option<Fact>>,
    count: u32,
    ghost placed: { IsTrue (facts_placed slots.items) },
    ghost counted: { count ≡ length (present slots.items) },
    ghost small: { vec_len slots ≤ 4194304 },
}

impl FactTable {
    ghost use Rattle.std.specs.Prelude.{ℕ, ◌+◌, ◌<◌, [], OnOk, OnErr, IsOk};
    ghost use Rattle.std.specs.Prelude.{Contains, IfSome, IfNone};
    ghost use Rattle.plain_digraph.specs.Facts.{fact_id};
    ghost use Rattle.plain_digraph.specs.Rising.{with_item, without_item, swapped};
    ghost use Rattle.observe_core.specs.Items.{Lacks};
    ghost use Rattle.observe_core.specs.Facts.{IsInBounds};
    ghost use Rattle.fact_table.specs.Table.{facts_of, reach_of, next_after, from_id};

    /// A table without facts.
    pub fn new(alloc: Global) -> FactTable
        ensures { facts_of result ≡ [] }
    {
        FactTable {
            slots: Vec::new(alloc),
            count: 0,
        }
    }

    /// How many facts there are.
    pub fn len(&self) -> u32
        ensures { result ≡ length (facts_of self.now) }
    {
        self.count
    }

    /// Puts in a fact of an id that isn't there. The error is want of memory, which doesn't come
    /// where the id is below the reach; the facts are then as before.
    pub fn insert(&mut self, f: Fact) -> Result<(), AllocError>
        requires free { Lacks fact_id f.id (facts_of self.old) }
        requires bounded { IsInBounds f }
        ensures ok { OnOk result (facts_of self.new ≡ with_item fact_id f (facts_of self.old)) }
        ensures err { OnErr result (facts_of self.new ≡ facts_of self.old) }
        ensures len { OnOk result (length (facts_of self.new) ≡ length (facts_of self.old) + 1) }
        ensures succeeds { f.id < reach_of self.old → IsOk result }
        ensures reach { reach_of self.old ≤ reach_of self.new }
    {
        self.make_room(f.id)?;
        self.slots[f.id as usize] = Some(f);
        self.count += 1;
        Ok(())
    }

    /// Makes the slot of an id, if there is none.
    fn make_room(&mut self, id: u32) -> Result<(), AllocError>
        requires { id < 4194304 }
        ensures same { facts_of self.new ≡ facts_of self.old }
        ensures room { OnOk result (id < vec_len self.new.slots) }
        ensures succeeds { id < reach_of self.old → IsOk result }
        ensures reach { reach_of self.old ≤ reach_of self.new }
    {
        let at = id as usize;
        if self.slots.len() <= at {
            self.slots.resize(at + 1, None)?;
        }
        Ok(())
    }

    /// Takes out the fact of an id, if there is one.
    pub fn remove(&mut self, id: u32)
        ensures taken { facts_of self.new ≡ without_item fact_id id (facts_of self.old) }
        ensures len { length (facts_of self.new) ≤ length (facts_of self.old) }
        ensures reach { reach_of self.old ≤ reach_of self.new }
    {
        let at = id as usize;
        if at < self.slots.len() {
            if let Some(_) = self.slots[at] {
                self.slots[at] = None;
                self.count -= 1;
            }
        }
    }

    /// Puts a fact in place of that of its id, if there is one.
    pub fn replace(&mut self, f: Fact)
        requires { IsInBounds f }
        ensures swapped { facts_of self.new ≡ swapped fact_id f (facts_of self.old) }
        ensures len { length (facts_of self.new) ≡ length (facts_of self.old) }
        ensures reach { reach_of self.old ≤ reach_of self.new }
    {
        let at = f.id as usize;
        if at < self.slots.len() {
            if let Some(_) = self.slots[at] {
                self.slots[at] = Some(f);
            }
        }
    }

    /// Takes out all facts.
    pub fn clear(&mut self)
        ensures empty { facts_of self.new ≡ [] }
        ensures reach { reach_of self.old ≤ reach_of self.new }
    {
        self.slots.clear();
        self.count = 0;
    }

    /// The fact of an id. None exactly where there is none.
    pub fn get(&self, id: u32) -> Option<Fact>
        ensures there { IfSome result (λ f. Contains (facts_of self.now) f × (f.id ≡ id)) }
        ensures absent { IfNone result (Lacks fact_id id (facts_of self.now)) }
    {
        let at = id as usize;
        if at < self.slots.len() {
            if let Some(f) = self.slots[at] {
                return Some(f);
            }
        }
        None
    }

    /// The fact of the least id above, or of the least id. None exactly where there is none.
    pub fn next(&self, after: Option<u32>) -> Option<Fact>
        ensures { result ≡ next_after after (facts_of self.now) }
    {
        let first = match after {
            Some(id) => id as usize + 1,
            None => 0,
        };
        self.from(first)
    }

    /// The first fact whose id isn't below.
    fn from(&self, first: usize) -> Option<Fact>
        ensures { result ≡ from_id first (facts_of self.now) }
    {
        let mut at = first;
        while at < self.slots.len() {
            if let Some(f) = self.slots[at] {
                return Some(f);
            }
            at += 1;
        }
        None
    }
}
