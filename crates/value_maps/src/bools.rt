//! Bools of live items.

ghost use Rattle.std.specs.Prelude.{◌≤◌, false};
ghost use Rattle.columns.specs.Views.{IsBlank, extent_of};

use base_items::Fact;
use columns::Column;
use lane_kernels::count_true;
use observe_core::{After, Kind, Observer, Readout, Veto};
use std::alloc::{AllocError, Global};

/// A bool for each live item, false for a new one. The slot of a dead id holds false.
#[derive(Drop)]
pub struct BoolMap {
    column: Column<bool>,
    ghost blank: { IsBlank false column },
    ghost small: { extent_of column ≤ 4194304 },
}

impl BoolMap {
    ghost use Rattle.std.specs.Prelude.{◌≡◌, ◌<◌, IsTrue, [], map, OnOk, OnErr};
    ghost use Rattle.plain_digraph.specs.Rising.{with_item, without_item, swapped};
    ghost use Rattle.observe_core.specs.Facts.{HasDistinctIds, AllInBounds};
    ghost use Rattle.observe_core.specs.Held.{entry_id, Bools};
    ghost use Rattle.observe_core.specs.Items.{Lacks, place_all, has_id};
    ghost use Rattle.observe_core.specs.Told.{new_entry};
    ghost use Rattle.columns.specs.Views.{entry};
    ghost use Rattle.lane_kernels.specs.Counts.{truths};
    ghost use Rattle.value_maps.specs.Entries.{HasValue, values_in};
    ghost use Rattle.value_maps.specs.Views.{bools_of, bools_seen, holding_bools};

    /// A map without items.
    pub fn new(alloc: Global) -> BoolMap
        ensures { bools_seen result ≡ holding_bools [] }
    {
        BoolMap {
            column: Column::new(alloc),
        }
    }

    /// The value of a live item.
    pub fn get(&self, id: u32) -> bool
        requires { IsTrue (has_id entry_id id (bools_of self.now)) }
        ensures { HasValue id result (bools_of self.now) }
    {
        self.column.get(id)
    }

    /// Writes the value of a live item.
    pub fn set(&mut self, id: u32, value: bool)
        requires { IsTrue (has_id entry_id id (bools_of self.old)) }
        ensures { bools_seen self.new
            ≡ holding_bools (swapped entry_id (entry id value) (bools_of self.old)) }
    {
        self.column.set(id, value);
    }

    /// How many live items are true.
    pub fn count(&self) -> u32
        ensures { result ≡ truths (values_in (bools_of self.now)) }
    {
        count_true(self.column.values()) as u32
    }

    /// An item more, with false.
    fn put(&mut self, id: u32) -> Result<(), AllocError>
        requires bounded { id < 4194304 }
        requires free { Lacks entry_id id (bools_of self.old) }
        ensures ok { OnOk result (bools_seen self.new
            ≡ holding_bools (with_item entry_id (new_entry Bools id) (bools_of self.old))) }
        ensures err { OnErr result (bools_seen self.new ≡ bools_seen self.old) }
    {
        self.column.put(id, false)
    }

    /// An item less.
    fn take(&mut self, id: u32)
        ensures { bools_seen self.new ≡ holding_bools (without_item entry_id id (bools_of self.old)) }
    {
        self.column.take(id, false);
    }

    /// All items of a build, with false.
    fn fill(&mut self, all: &[Fact]) -> Result<(), AllocError>
        requires empty { bools_of self.old ≡ [] }
        requires distinct { HasDistinctIds all.now }
        requires bounded { AllInBounds all.now }
        ensures ok { OnOk result (bools_seen self.new
            ≡ holding_bools (place_all entry_id (map (λ f. new_entry Bools f.id) all.now) [])) }
        ensures err { OnErr result (bools_seen self.new ≡ holding_bools []) }
    {
        self.column.fill(all, false)
    }
}

impl Observer for BoolMap {
    ghost use Rattle.value_maps.specs.Views.{bools_seen};
    ghost use Rattle.value_maps.specs.Sound.{bools-sound, bools-reach};

    ghost watch = { λ m. record {
      seen = bools_seen m;
      room = 0;
      reach = 0;
      sound = bools-sound m;
      reaches = bools-reach m;
    } };

    fn kind(&self) -> Kind {
        Kind::Map
    }

    fn readout(&self) -> Readout {
        Readout {
            items: 0,
            k: 0,
            left: 0,
            added: 0,
            erased: 0,
            moved: 0,
        }
    }

    fn arm(&mut self, k: u32) {
        let _ = k;
    }

    fn add(&mut self, f: Fact) -> Result<(), Veto> {
        match self.put(f.id) {
            Ok(()) => Ok(()),
            Err(_) => Err(Veto::Memory),
        }
    }

    fn undo_add(&mut self, f: Fact) {
        self.take(f.id);
    }

    fn shift(&mut self, old: Fact, new: Fact) -> Result<(), Veto> {
        let _ = (old, new);
        Ok(())
    }

    fn undo_shift(&mut self, old: Fact, new: Fact) {
        let _ = (old, new);
    }

    fn build(&mut self, all: &[Fact]) -> Result<(), Veto> {
        match self.fill(all) {
            Ok(()) => Ok(()),
            Err(_) => Err(Veto::Memory),
        }
    }

    fn undo_build(&mut self) {
        self.column.clear();
    }

    fn erase(&mut self, f: Fact) -> After {
        self.take(f.id);
        After::Keep
    }

    fn clear(&mut self) -> After {
        self.column.clear();
        After::Keep
    }
}
