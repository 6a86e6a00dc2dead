//! The column: items go in, change and go out by their ids.

ghost use Rattle.std.specs.Prelude.{◌≤◌, vec_len};

use base_items::Fact;
use std::alloc::{AllocError, Global};
use std::mem::replace;

/// A value for each live id. Contracts see the entries by rising id (`entries_of`).
///
/// The slot of a dead id holds what `put` and `take` were given as the filler: if it is always the
/// same, all dead slots hold it (`StaysBlank`).
#[derive(Drop)]
pub struct Column<V> {
    live: Vec<bool>,
    values: Vec<V>,
    ghost covered: { vec_len live ≤ vec_len values },
    ghost small: { vec_len values ≤ 4294967296 },
}

impl<V: Drop> Column<V> {
    ghost use Rattle.std.specs.Prelude.{◌≡◌, ℕ, ◌+◌, ◌<◌, [], length, IsTrue};
    ghost use Rattle.std.specs.Prelude.{OnOk, OnErr, Contains};
    ghost use Rattle.observe_core.specs.Held.{entry_id};
    ghost use Rattle.observe_core.specs.Items.{Lacks, has_id};
    ghost use Rattle.plain_digraph.specs.Rising.{with_item, without_item, swapped};
    ghost use Rattle.columns.specs.Views.{entries_of, entry, IsBlank, StaysBlank, extent_of};

    /// A column without items.
    pub fn new(alloc: Global) -> Column<V>
        ensures entries { entries_of result ≡ [] }
        ensures blank { (filler : V) → IsBlank filler result }
        ensures extent { extent_of result ≡ 0 }
    {
        Column {
            live: Vec::new(alloc),
            values: Vec::new(alloc),
        }
    }

    /// How many slots there are.
    pub fn extent(&self) -> usize
        ensures { result ≡ extent_of self.now }
    {
        self.values.len()
    }

    /// Makes one slot more, with the filler. The error is want of memory.
    pub fn grow(&mut self, filler: V) -> Result<(), AllocError>
        requires { extent_of self.old < 4294967296 }
        ensures entries { entries_of self.new ≡ entries_of self.old }
        ensures blank { StaysBlank filler self.old self.new }
        ensures ok { OnOk result (extent_of self.new ≡ extent_of self.old + 1) }
        ensures err { OnErr result (extent_of self.new ≡ extent_of self.old) }
    {
        if self.values.push(filler).is_err() {
            return Err(AllocError);
        }
        Ok(())
    }

    /// Puts in an item of an id that isn't there, in a slot that is there. The error is want of
    /// memory; the items are then as before.
    pub fn put_in(&mut self, id: u32, value: V) -> Result<(), AllocError>
        requires within { id < extent_of self.old }
        requires free { Lacks entry_id id (entries_of self.old) }
        ensures ok { OnOk result
            (entries_of self.new ≡ with_item entry_id (entry id value) (entries_of self.old)) }
        ensures err { OnErr result (entries_of self.new ≡ entries_of self.old) }
        ensures blank { (filler : V) → StaysBlank filler self.old self.new }
        ensures extent { extent_of self.new ≡ extent_of self.old }
    {
        self.flag(id)?;
        self.live[id as usize] = true;
        self.values[id as usize] = value;
        Ok(())
    }

    /// Writes the value of a live item. The value from before.
    pub fn replace(&mut self, id: u32, value: V) -> V
        requires { IsTrue (has_id entry_id id (entries_of self.old)) }
        ensures entries { entries_of self.new
            ≡ swapped entry_id (entry id value) (entries_of self.old) }
        ensures old { Contains (entries_of self.old) (entry id result) }
        ensures blank { (filler : V) → StaysBlank filler self.old self.new }
        ensures extent { extent_of self.new ≡ extent_of self.old }
    {
        replace(&mut self.values[id as usize], value)
    }

    /// The value of a live item, where it stands.
    pub fn at(&self, id: u32) -> &V
        requires { IsTrue (has_id entry_id id (entries_of self.now)) }
        ensures { Contains (entries_of self.now) (entry id result.now) }
    {
        &self.values[id as usize]
    }

    /// Makes the flags reach an id within the values.
    fn flag(&mut self, id: u32) -> Result<(), AllocError>
        requires within { id < vec_len self.old.values }
        ensures same { entries_of self.new ≡ entries_of self.old }
        ensures values { self.new.values ≡ self.old.values }
        ensures room { OnOk result (id < vec_len self.new.live) }
        ensures blank { (filler : V) → StaysBlank filler self.old self.new }
    {
        let at = id as usize;
        if self.live.len() <= at {
            self.live.resize(at + 1, false)?;
        }
        Ok(())
    }

    /// Takes out the item of an id, if there is one. Its slot holds the filler.
    pub fn take(&mut self, id: u32, filler: V)
        ensures entries { entries_of self.new ≡ without_item entry_id id (entries_of self.old) }
        ensures blank { StaysBlank filler self.old self.new }
        ensures extent { extent_of self.new ≡ extent_of self.old }
    {
        let at = id as usize;
        if at < self.live.len() {
            self.live[at] = false;
            self.values[at] = filler;
        }
    }

    /// The flags, one an id.
    pub fn live(&self) -> &[bool]
        ensures seen { result.now ≡ self.now.live.items }
        ensures covered { length result.now ≤ length self.now.values.items }
        ensures small { length result.now ≤ 4294967296 }
    {
        self.live.as_slice()
    }

    /// The values, one an id; those of dead ids are whatever was left there.
    pub fn values(&self) -> &[V]
        ensures seen { result.now ≡ self.now.values.items }
        ensures extent { length result.now ≡ extent_of self.now }
    {
        self.values.as_slice()
    }

    /// Takes out all items.
    pub fn clear(&mut self)
        ensures entries { entries_of self.new ≡ [] }
        ensures blank { (filler : V) → IsBlank filler self.new }
        ensures extent { extent_of self.new ≡ 0 }
    {
        self.live.clear();
        self.values.clear();
    }
}

impl<V: Copy> Column<V> {
    ghost use Rattle.std.specs.Prelude.{◌≡◌, ℕ, ◌<◌, [], length, IsTrue};
    ghost use Rattle.std.specs.Prelude.{OnOk, OnErr, MatchOption, Contains};
    ghost use Rattle.observe_core.specs.Facts.{HasDistinctIds, AllInBounds};
    ghost use Rattle.observe_core.specs.Held.{entry_id};
    ghost use Rattle.observe_core.specs.Items.{Lacks, place_all, has_id};
    ghost use Rattle.plain_digraph.specs.Rising.{with_item, without_item, swapped};
    ghost use Rattle.columns.specs.Views.{entries_of, entry, entries_told};
    ghost use Rattle.columns.specs.Views.{IsBlank, StaysBlank};
    ghost use Rattle.columns.specs.Views.{extent_of, ExtendsTo, ExtendsToAll};

    /// Makes the slots reach an id.
    fn reach(&mut self, id: u32, filler: V) -> Result<(), AllocError>
        ensures same { entries_of self.new ≡ entries_of self.old }
        ensures room { OnOk result (id < extent_of self.new) }
        ensures blank { StaysBlank filler self.old self.new }
        ensures extent { ExtendsTo id self.old self.new }
    {
        while self.extent() <= id as usize {
            self.grow(filler)?;
        }
        Ok(())
    }

    /// Puts in an item of an id that isn't there. The error is want of memory; the items are then
    /// as before. New dead slots hold the value too.
    pub fn put(&mut self, id: u32, value: V) -> Result<(), AllocError>
        requires { Lacks entry_id id (entries_of self.old) }
        ensures ok { OnOk result (entries_of self.new ≡ with_item entry_id (entry id value) (entries_of self.old)) }
        ensures err { OnErr result (entries_of self.new ≡ entries_of self.old) }
        ensures blank { StaysBlank value self.old self.new }
        ensures extent { ExtendsTo id self.old self.new }
    {
        self.reach(id, value)?;
        self.put_in(id, value)
    }

    /// Writes the value of a live item.
    pub fn set(&mut self, id: u32, value: V)
        requires { IsTrue (has_id entry_id id (entries_of self.old)) }
        ensures entries { entries_of self.new ≡ swapped entry_id (entry id value) (entries_of self.old) }
        ensures blank { (filler : V) → StaysBlank filler self.old self.new }
        ensures extent { extent_of self.new ≡ extent_of self.old }
    {
        self.values[id as usize] = value;
    }

    /// The value of a live item.
    pub fn get(&self, id: u32) -> V
        requires { IsTrue (has_id entry_id id (entries_of self.now)) }
        ensures { Contains (entries_of self.now) (entry id result) }
    {
        self.values[id as usize]
    }

    /// The value of an item. None exactly where it isn't live.
    pub fn find(&self, id: u32) -> Option<V>
        ensures { MatchOption result (Lacks entry_id id (entries_of self.now))
            (λ value. Contains (entries_of self.now) (entry id value)) }
    {
        let at = id as usize;
        if at >= self.live.len() {
            return None;
        }
        if self.live[at] {
            return Some(self.values[at]);
        }
        None
    }

    /// Puts in an item for each fact, with the filler. The error is want of memory; there is then
    /// no item.
    pub fn fill(&mut self, all: &[Fact], filler: V) -> Result<(), AllocError>
        requires empty { entries_of self.old ≡ [] }
        requires distinct { HasDistinctIds all.now }
        ensures ok { OnOk result (entries_of self.new ≡ place_all entry_id (entries_told filler all.now) []) }
        ensures err { OnErr result (entries_of self.new ≡ []) }
        ensures blank { StaysBlank filler self.old self.new }
        ensures extent { ExtendsToAll all.now self.old self.new }
    {
        for f in all {
            match self.put(f.id, filler) {
                Ok(()) => {}
                Err(_) => {
                    self.clear();
                    return Err(AllocError);
                }
            }
        }
        Ok(())
    }
}
