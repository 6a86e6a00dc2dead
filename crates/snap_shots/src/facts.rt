//! Facts by rising id, in one vector.

ghost use Rattle.std.specs.Prelude.{◌≡◌, ◌≤◌, IsTrue};
ghost use Rattle.plain_digraph.specs.Facts.{fact_id};
ghost use Rattle.observe_core.specs.Items.{rises_from};

use base_items::Fact;
use std::alloc::{AllocError, Global};

/// Facts of different ids. Contracts see them by rising id (`facts_in`).
///
/// As long as there are fewer than there is room for (`room_of`), which no call lowers, a fact goes
/// in without memory. What is looked up is halved: a look-up takes the logarithm of their number.
#[derive(Drop)]
pub struct RisingFacts {
    facts: Vec<Fact>,
    ghost rising: { IsTrue (rises_from fact_id 0 facts.items) },
}

impl RisingFacts {
    ghost use Rattle.std.specs.Prelude.{ℕ, ◌+◌, ◌<◌, [], length, OnOk, OnErr, IsOk};
    ghost use Rattle.std.specs.Prelude.{Contains, IfSome, IfNone};
    ghost use Rattle.plain_digraph.specs.Rising.{with_item, without_item};
    ghost use Rattle.observe_core.specs.Items.{Lacks};
    ghost use Rattle.fact_table.specs.Table.{next_after, from_id};
    ghost use Rattle.snap_shots.specs.FactViews.{facts_in, room_of};
    ghost use Rattle.snap_shots.specs.Ranks.{rank};

    /// No facts.
    pub fn new(alloc: Global) -> RisingFacts
        ensures { facts_in result ≡ [] }
    {
        RisingFacts {
            facts: Vec::new(alloc),
        }
    }

    /// How many facts there are.
    pub fn len(&self) -> usize
        ensures { result ≡ length (facts_in self.now) }
    {
        self.facts.len()
    }

    /// How many facts in front have lower ids.
    fn place_of(&self, id: u64) -> usize
        ensures { result ≡ rank id (facts_in self.now) }
    {
        let mut low = 0;
        let mut high = self.facts.len();
        while low < high {
            let middle = low + (high - low) / 2;
            if (self.facts[middle].id as u64) < id {
                low = middle + 1;
            } else {
                high = middle;
            }
        }
        low
    }

    /// Puts in a fact of an id that isn't there. The error is want of memory, which doesn't come
    /// where there is room; the facts are then as before.
    pub fn insert(&mut self, f: Fact) -> Result<(), AllocError>
        requires { Lacks fact_id f.id (facts_in self.old) }
        ensures ok { OnOk result (facts_in self.new ≡ with_item fact_id f (facts_in self.old)) }
        ensures err { OnErr result (facts_in self.new ≡ facts_in self.old) }
        ensures len { length (facts_in self.new) ≤ length (facts_in self.old) + 1 }
        ensures succeeds { length (facts_in self.old) < room_of self.old → IsOk result }
        ensures room { room_of self.old ≤ room_of self.new }
    {
        let place = self.place_of(f.id as u64);
        match self.facts.insert(place, f) {
            Ok(()) => Ok(()),
            Err(_) => Err(AllocError),
        }
    }

    /// Takes out the fact of an id, if there is one.
    pub fn remove(&mut self, id: u32)
        ensures taken { facts_in self.new ≡ without_item fact_id id (facts_in self.old) }
        ensures len { length (facts_in self.new) ≤ length (facts_in self.old) }
        ensures room { room_of self.old ≤ room_of self.new }
    {
        let place = self.place_of(id as u64);
        if place < self.facts.len() {
            if self.facts[place].id == id {
                self.facts.remove(place);
            }
        }
    }

    /// The fact of an id. None exactly where there is none.
    pub fn get(&self, id: u32) -> Option<Fact>
        ensures there { IfSome result (λ f. Contains (facts_in self.now) f × (f.id ≡ id)) }
        ensures absent { IfNone result (Lacks fact_id id (facts_in self.now)) }
    {
        let place = self.place_of(id as u64);
        if place < self.facts.len() {
            let f = self.facts[place];
            if f.id == id {
                return Some(f);
            }
        }
        None
    }

    /// The fact of the least id above, or of the least id. None exactly where there is none.
    pub fn next(&self, after: Option<u32>) -> Option<Fact>
        ensures { result ≡ next_after after (facts_in self.now) }
    {
        match after {
            Some(id) => self.from(id as u64 + 1),
            None => self.from(0),
        }
    }

    /// The first fact whose id isn't below.
    fn from(&self, low: u64) -> Option<Fact>
        ensures { result ≡ from_id low (facts_in self.now) }
    {
        let place = self.place_of(low);
        if place < self.facts.len() {
            return Some(self.facts[place]);
        }
        None
    }

    /// Takes out all facts.
    pub fn clear(&mut self)
        ensures empty { facts_in self.new ≡ [] }
        ensures room { room_of self.old ≤ room_of self.new }
    {
        self.facts.clear();
    }
}
