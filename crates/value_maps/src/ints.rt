//! Ints of live items.

ghost use Rattle.std.specs.Prelude.{◌≤◌, pos};
ghost use Rattle.columns.specs.Views.{IsBlank, extent_of};

use base_items::Fact;
use columns::Column;
use lane_kernels::{min_masked, sum_i64};
use observe_core::{After, Kind, Observer, Readout, Veto};
use std::alloc::{AllocError, Global};

/// An int for each live item, 0 for a new one. The slot of a dead id holds 0.
#[derive(Drop)]
pub struct IntMap {
    column: Column<i64>,
    ghost blank: { IsBlank (pos 0) column },
    ghost small: { extent_of column ≤ 4194304 },
}

impl IntMap {
    ghost use Rattle.std.specs.Prelude.{◌≡◌, ◌<◌, IsTrue, [], map, OnOk, OnErr, MatchOption};
    ghost use Rattle.plain_digraph.specs.Rising.{with_item, without_item, swapped};
    ghost use Rattle.observe_core.specs.Facts.{HasDistinctIds, AllInBounds};
    ghost use Rattle.observe_core.specs.Held.{entry_id, Ints};
    ghost use Rattle.observe_core.specs.Items.{Lacks, place_all, has_id};
    ghost use Rattle.observe_core.specs.Told.{new_entry};
    ghost use Rattle.columns.specs.Views.{entry};
    ghost use Rattle.lane_kernels.specs.Sums.{total_of};
    ghost use Rattle.value_maps.specs.Entries.{HasValue, values_in};
    ghost use Rattle.value_maps.specs.LeastEntry.{IsLeastEntry};
    ghost use Rattle.value_maps.specs.Views.{ints_of, ints_seen, holding_ints};

    /// A map without items.
    pub fn new(alloc: Global) -> IntMap
        ensures { ints_seen result ≡ holding_ints [] }
    {
        IntMap {
            column: Column::new(alloc),
        }
    }

    /// The value of a live item.
    pub fn get(&self, id: u32) -> i64
        requires { IsTrue (has_id entry_id id (ints_of self.now)) }
        ensures { HasValue id result (ints_of self.now) }
    {
        self.column.get(id)
    }

    /// Writes the value of a live item.
    pub fn set(&mut self, id: u32, value: i64)
        requires { IsTrue (has_id entry_id id (ints_of self.old)) }
        ensures { ints_seen self.new
            ≡ holding_ints (swapped entry_id (entry id value) (ints_of self.old)) }
    {
        self.column.set(id, value);
    }

    /// The sum of the values of all live items.
    pub fn total(&self) -> i128
        ensures { result ≡ total_of (values_in (ints_of self.now)) }
    {
        sum_i64(self.column.values())
    }

    /// The least value, and the least id that has it. None exactly where no item is live.
    pub fn least(&self) -> Option<(u32, i64)>
        ensures { MatchOption result (ints_of self.now ≡ [])
            (λ found. IsLeastEntry (ints_of self.now) found.0 found.1) }
    {
        let live = self.column.live();
        let values = self.column.values();
        match min_masked(&values[..live.len()], live) {
            None => None,
            Some((place, least)) => Some((place as u32, least)),
        }
    }

    /// An item more, with 0.
    fn put(&mut self, id: u32) -> Result<(), AllocError>
        requires bounded { id < 4194304 }
        requires free { Lacks entry_id id (ints_of self.old) }
        ensures ok { OnOk result (ints_seen self.new
            ≡ holding_ints (with_item entry_id (new_entry Ints id) (ints_of self.old))) }
        ensures err { OnErr result (ints_seen self.new ≡ ints_seen self.old) }
    {
        self.column.put(id, 0)
    }

    /// An item less.
    fn take(&mut self, id: u32)
        ensures { ints_seen self.new ≡ holding_ints (without_item entry_id id (ints_of self.old)) }
    {
        self.column.take(id, 0);
    }

    /// All items of a build, with 0.
    fn fill(&mut self, all: &[Fact]) -> Result<(), AllocError>
        requires empty { ints_of self.old ≡ [] }
        requires distinct { HasDistinctIds all.now }
        requires bounded { AllInBounds all.now }
        ensures ok { OnOk result (ints_seen self.new
            ≡ holding_ints (place_all entry_id (map (λ f. new_entry Ints f.id) all.now) [])) }
        ensures err { OnErr result (ints_seen self.new ≡ holding_ints []) }
    {
        self.column.fill(all, 0)
    }
}

impl Observer for IntMap {
    ghost use Rattle.value_maps.specs.Views.{ints_seen};
    ghost use Rattle.value_maps.specs.Sound.{ints-sound, ints-reach};

    ghost watch = { λ m. record {
      seen = ints_seen m;
      room = 0;
      reach = 0;
      sound = ints-sound m;
      reaches = ints-reach m;
    } };

    fn kind(&self) -> Kind {
        Kind::Map
    }

    fn readout(&self) -> Readout {
        Readout {
            items: 0,
            k: 0,
            left: 0,
            added: 0,
            erased: 0,
            moved: 0,
        }
    }

    fn arm(&mut self, k: u32) {
        let _ = k;
    }

    fn add(&mut self, f: Fact) -> Result<(), Veto> {
        match self.put(f.id) {
            Ok(()) => Ok(()),
            Err(_) => Err(Veto::Memory),
        }
    }

    fn undo_add(&mut self, f: Fact) {
        self.take(f.id);
    }

    fn shift(&mut self, old: Fact, new: Fact) -> Result<(), Veto> {
        let _ = (old, new);
        Ok(())
    }

    fn undo_shift(&mut self, old: Fact, new: Fact) {
        let _ = (old, new);
    }

    fn build(&mut self, all: &[Fact]) -> Result<(), Veto> {
        match self.fill(all) {
            Ok(()) => Ok(()),
            Err(_) => Err(Veto::Memory),
        }
    }

    fn undo_build(&mut self) {
        self.column.clear();
    }

    fn erase(&mut self, f: Fact) -> After {
        self.take(f.id);
        After::Keep
    }

    fn clear(&mut self) -> After {
        self.column.clear();
        After::Keep
    }
}
