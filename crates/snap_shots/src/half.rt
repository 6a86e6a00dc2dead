//! Half of a snapshot: an observer of one sort.

ghost use Rattle.std.specs.Prelude.{◌≤◌, length};
ghost use Rattle.snap_shots.specs.FactViews.{facts_in};

use crate::facts::RisingFacts;
use base_items::Fact;
use observe_core::{After, Kind, Observer, Readout, Veto};
use std::alloc::{AllocError, Global};

/// What became of the items of one sort since the making, as an observer of kind `Map` that never
/// leaves by itself. It takes no copy of the items: what they were is what there is without those
/// added since, and with the facts that it keeps of those moved since.
#[derive(Drop)]
pub struct Half {
    // the items added since
    added: RisingFacts,
    // the facts at the making of those moved since
    kept: RisingFacts,
    // how many items aren't added
    others: usize,
    // whether none of these was lost
    valid: bool,
    ghost few: { length (facts_in added) ≤ 4194304 },
}

impl Half {
    ghost use Rattle.std.specs.Prelude.{◌≡◌, ℕ, OnOk, OnErr, IsOk};
    ghost use Rattle.plain_digraph.specs.Facts.{fact_id};
    ghost use Rattle.observe_core.specs.Items.{has_id, number_id};
    ghost use Rattle.fact_table.specs.Table.{next_after};
    ghost use Rattle.snap_shots.specs.FactViews.{room_of};
    ghost use Rattle.snap_shots.specs.HalfViews.{half_seen, fresh, stepped};
    ghost use Rattle.snap_shots.specs.HalfViews.{added_ids, kept_facts, next_number};
    ghost use Rattle.snap_shots.specs.Keeping.{after_step};

    /// A half that was told of nothing. It is valid.
    pub fn new(alloc: Global) -> Half
        ensures { half_seen result ≡ fresh }
    {
        Half {
            added: RisingFacts::new(alloc),
            kept: RisingFacts::new(alloc),
            others: 0,
            valid: true,
        }
    }

    /// Whether no item that was there at the making was erased or cleared.
    pub fn valid(&self) -> bool
        ensures { result ≡ self.now.valid }
    {
        self.valid
    }

    /// How many items were added since.
    pub fn added_count(&self) -> u32
        ensures { result ≡ length (added_ids self.now) }
    {
        self.added.len() as u32
    }

    /// The least added id above, or the least. None exactly where there is none.
    pub fn next_added(&self, after: Option<u32>) -> Option<u32>
        ensures { result ≡ next_number after (added_ids self.now) }
    {
        match self.added.next(after) {
            Some(f) => Some(f.id),
            None => None,
        }
    }

    /// The fact at the making of the moved item of the least id above, or of the least. None
    /// exactly where there is none.
    pub fn next_moved(&self, after: Option<u32>) -> Option<Fact>
        ensures { result ≡ next_after after (kept_facts self.now) }
    {
        self.kept.next(after)
    }

    /// Whether an item was added since.
    fn is_new(&self, id: u32) -> bool
        ensures { result ≡ has_id number_id id (added_ids self.now) }
    {
        match self.added.get(id) {
            Some(_) => true,
            None => false,
        }
    }

    /// Keeps the fact from before a move, or gives up the one to which the move leads back. The
    /// error is want of memory; the half is then as before.
    fn step(&mut self, old: Fact, new: Fact) -> Result<(), AllocError>
        requires { new.id ≡ old.id }
        ensures ok { OnOk result (half_seen self.new ≡ after_step self.old old new) }
        ensures err { OnErr result (half_seen self.new ≡ half_seen self.old) }
        ensures succeeds { length (stepped self.old old new) ≤ room_of self.old.kept → IsOk result }
        ensures room { room_of self.old.kept ≤ room_of self.new.kept }
        ensures rest { self.new.added ≡ self.old.added }
    {
        if self.is_new(old.id) {
            return Ok(());
        }
        match self.kept.get(old.id) {
            Some(kept) => {
                if kept == new {
                    self.kept.remove(old.id);
                }
                Ok(())
            }
            None => self.kept.insert(old),
        }
    }
}

impl Observer for Half {
    ghost use Rattle.observe_core.specs.declared.kinds.Kind.TheVariants.{Map};
    ghost use Rattle.snap_shots.specs.FactViews.{room_of};
    ghost use Rattle.snap_shots.specs.HalfViews.{half_seen};
    ghost use Rattle.snap_shots.specs.Sound.{half_watched};

    ghost watch = { half_watched };

    fn kind(&self) -> Kind {
        Kind::Map
    }

    fn readout(&self) -> Readout {
        Readout {
            items: 0,
            k: 0,
            left: 0,
            added: 0,
            erased: 0,
            moved: 0,
        }
    }

    fn arm(&mut self, k: u32) {
        let _ = k;
    }

    fn add(&mut self, f: Fact) -> Result<(), Veto> {
        match self.added.insert(f) {
            Ok(()) => Ok(()),
            Err(_) => Err(Veto::Memory),
        }
    }

    fn undo_add(&mut self, f: Fact) {
        self.added.remove(f.id);
    }

    fn shift(&mut self, old: Fact, new: Fact) -> Result<(), Veto> {
        match self.step(old, new) {
            Ok(()) => Ok(()),
            Err(_) => Err(Veto::Memory),
        }
    }

    fn undo_shift(&mut self, old: Fact, new: Fact) {
        if self.step(new, old).is_err() {
            unreachable!();
        }
    }

    fn build(&mut self, all: &[Fact]) -> Result<(), Veto> {
        self.others = all.len();
        Ok(())
    }

    fn undo_build(&mut self) {
        self.others = 0;
    }

    fn erase(&mut self, f: Fact) -> After {
        self.kept.remove(f.id);
        if self.is_new(f.id) {
            self.added.remove(f.id);
            return After::Keep;
        }
        self.others = self.others.saturating_sub(1);
        self.valid = false;
        After::Keep
    }

    fn clear(&mut self) -> After {
        self.valid = self.valid && self.others == 0;
        self.others = 0;
        self.added.clear();
        self.kept.clear();
        After::Keep
    }
}
