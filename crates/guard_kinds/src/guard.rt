//! One guard for all kinds: the facts that it tracks, and how many of them have each key.

ghost use Rattle.std.specs.Prelude.{◌≡◌, ◌≢◌, ℕ, ◌+◌, ◌<◌, ◌≤◌, length, OnOk, OnErr};
ghost use Rattle.observe_core.specs.declared.kinds.Kind.TheVariants.{Map};
ghost use Rattle.fact_table.specs.Table.{facts_of};
ghost use Rattle.guard_kinds.specs.CountViews.{counted, total, room};
ghost use Rattle.guard_kinds.specs.Keys.{with_key, keyed, room_of, IsWithin, FitsKind};

use crate::counts::KeyCounts;
use crate::laws::{fuse_part, greatest_k, key, limit, room_for, tally_part};
use base_items::Fact;
use fact_table::FactTable;
use observe_core::{After, Kind, Observer, Readout, Veto};
use std::alloc::Global;

/// A guard of any kind but `Map`: the facts that it tracks, its numbers, and its counts by key.
///
/// `Guard::new` is unarmed; `arm` gives it its parameter. Example: `Quota::new(alloc)`, then
/// `guard.arm(9)`, then a chain's `attach`.
#[derive(Drop)]
pub struct Guard {
    kind: Kind,
    k: u32,
    left: u32,
    added: u64,
    erased: u64,
    moved: u64,
    table: FactTable,
    counts: KeyCounts,
    ghost guards: { kind ≢ Map },
    ghost numbers: { FitsKind kind k left added erased moved },
    ghost counted: { (n : ℕ) → counted counts n ≡ with_key kind n (facts_of table) },
    ghost total: { total counts ≡ keyed kind (facts_of table) },
    ghost room: { room_of kind (length (facts_of table)) ≤ room counts },
    ghost within: { IsWithin kind k (facts_of table) },
}

impl Guard {
    ghost use Rattle.std.specs.Prelude.{[], Contains};
    ghost use Rattle.plain_digraph.specs.Facts.{fact_id};
    ghost use Rattle.observe_core.specs.Facts.{IsInBounds};
    ghost use Rattle.plain_digraph.specs.Rising.{without_item, swapped};
    ghost use Rattle.observe_core.specs.Items.{Lacks};
    ghost use Rattle.guard_kinds.specs.GuardViews.{guard_seen, unarmed};
    ghost use Rattle.guard_kinds.specs.Putting.{Puts, tracking};

    /// A guard of the kind that tracks nothing, as after `arm` with the greatest parameter of the
    /// kind. It takes no memory.
    pub fn new(kind: Kind, alloc: Global) -> Guard
        requires { kind ≢ Map }
        ensures { guard_seen result ≡ unarmed kind }
    {
        Guard {
            kind,
            k: greatest_k(kind),
            left: fuse_part(kind, greatest_k(kind)),
            added: 0,
            erased: 0,
            moved: 0,
            table: FactTable::new(alloc),
            counts: KeyCounts::new(alloc),
        }
    }

    /// Tracks a fact more, where the law allows it.
    fn put(&mut self, f: Fact) -> Result<(), Veto>
        requires free { Lacks fact_id f.id (facts_of self.old.table) }
        requires bounded { IsInBounds f }
        ensures { Puts result f (guard_seen self.old) (guard_seen self.new) }
    {
        let key = key(self.kind, &f);
        if self.counts.is_full(None, key, limit(self.kind, self.k)) {
            return Err(Veto::Refused);
        }
        if self
            .counts
            .make_room(room_for(self.kind, self.table.len() + 1))
            .is_err()
        {
            return Err(Veto::Memory);
        }
        if self.table.insert(f).is_err() {
            return Err(Veto::Memory);
        }
        self.counts.raise(key);
        Ok(())
    }

    /// Tracks a fact no more.
    fn take(&mut self, f: Fact)
        requires { Contains (facts_of self.old.table) f }
        ensures { guard_seen self.new
            ≡ tracking (without_item fact_id f.id (facts_of self.old.table)) (guard_seen self.old) }
    {
        self.counts.lower(key(self.kind, &f));
        self.table.remove(f.id);
    }

    /// Tracks a fact in place of another.
    fn exchange(&mut self, old: Fact, new: Fact)
        requires there { Contains (facts_of self.old.table) old }
        requires same { new.id ≡ old.id }
        requires bounded { IsInBounds new }
        requires within { IsWithin self.old.kind self.old.k
            (swapped fact_id new (facts_of self.old.table)) }
        ensures { guard_seen self.new
            ≡ tracking (swapped fact_id new (facts_of self.old.table)) (guard_seen self.old) }
    {
        self.counts.lower(key(self.kind, &old));
        self.counts.raise(key(self.kind, &new));
        self.table.replace(new);
    }

    /// Tracks nothing.
    fn reset(&mut self)
        ensures { guard_seen self.new ≡ tracking [] (guard_seen self.old) }
    {
        self.counts.clear();
        self.table.clear();
    }
}

impl Observer for Guard {
    ghost use Rattle.guard_kinds.specs.GuardViews.{guard_seen};
    ghost use Rattle.guard_kinds.specs.Sound.{guard-sound, guard-reaches};

    ghost watch = { λ g. record {
      seen = guard_seen g;
      room = 0;
      reach = 4194304;
      sound = guard-sound g;
      reaches =
          guard-reaches g;
    } };

    fn kind(&self) -> Kind {
        self.kind
    }

    fn readout(&self) -> Readout {
        Readout {
            items: self.table.len(),
            k: self.k,
            left: self.left,
            added: self.added,
            erased: self.erased,
            moved: self.moved,
        }
    }

    fn arm(&mut self, k: u32) {
        self.k = k;
        self.left = fuse_part(self.kind, k);
        self.added = 0;
        self.erased = 0;
        self.moved = 0;
    }

    fn add(&mut self, f: Fact) -> Result<(), Veto> {
        match self.put(f) {
            Ok(()) => {
                self.added += tally_part(self.kind, 1);
                Ok(())
            }
            Err(veto) => Err(veto),
        }
    }

    fn undo_add(&mut self, f: Fact) {
        self.take(f);
        self.added -= tally_part(self.kind, 1);
    }

    fn shift(&mut self, old: Fact, new: Fact) -> Result<(), Veto> {
        let was = key(self.kind, &old);
        let now = key(self.kind, &new);
        if self.counts.is_full(was, now, limit(self.kind, self.k)) {
            return Err(Veto::Refused);
        }
        self.exchange(old, new);
        self.moved += tally_part(self.kind, 1);
        Ok(())
    }

    fn undo_shift(&mut self, old: Fact, new: Fact) {
        self.exchange(new, old);
        self.moved -= tally_part(self.kind, 1);
    }

    fn build(&mut self, all: &[Fact]) -> Result<(), Veto> {
        for f in all {
            match self.put(*f) {
                Ok(()) => {}
                Err(veto) => {
                    self.reset();
                    return Err(veto);
                }
            }
        }
        Ok(())
    }

    fn undo_build(&mut self) {
        self.reset();
    }

    fn erase(&mut self, f: Fact) -> After {
        self.take(f);
        self.left = self.left.saturating_sub(fuse_part(self.kind, 1));
        self.erased += tally_part(self.kind, 1);
        if fuse_part(self.kind, 1) == 1 && self.left == 0 {
            After::Detach
        } else {
            After::Keep
        }
    }

    fn clear(&mut self) -> After {
        self.erased += tally_part(self.kind, self.table.len() as u64);
        self.reset();
        if fuse_part(self.kind, 1) == 1 {
            After::Detach
        } else {
            After::Keep
        }
    }
}
