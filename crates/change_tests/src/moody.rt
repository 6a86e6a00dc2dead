//! An observer that finds no memory at one of the notices that it may refuse.

ghost use Rattle.std.specs.Prelude.{◌≡◌, IfErr};
ghost use Rattle.observe_core.specs.declared.kinds.Veto.TheVariants.{Memory};
ghost use Rattle.change_tests.specs.Moods.{moody_watched};

use base_items::Fact;
use observe_core::{After, Kind, Observer, Readout, Veto};

/// An observer that finds no memory at one of the notices that it may refuse, and keeps account of
/// what it was told.
#[derive(Drop)]
pub struct Moody {
    /// How many such notices it takes before that one.
    pub until: u32,
    /// What it was told, summed over the facts.
    pub known: u64,
    /// How many items it was told to lose.
    pub lost: u64,
}

impl Moody {
    /// Whether it is in the mood for another notice.
    fn asks(&mut self) -> Result<(), Veto>
        ensures { IfErr result (λ veto. veto ≡ Memory) }
    {
        let now = self.until == 0;
        self.until = self.until.wrapping_sub(1);
        if now { Err(Veto::Memory) } else { Ok(()) }
    }

    fn learn(&mut self, f: &Fact) {
        self.known = self.known.wrapping_add(weight(f));
    }

    fn forget(&mut self, f: &Fact) {
        self.known = self.known.wrapping_sub(weight(f));
    }
}

// a number by which the facts of the tests can be told apart, also in sums
fn weight(f: &Fact) -> u64 {
    let id = 1u64.wrapping_add(f.id as u64);
    let ends = (f.from as u64).wrapping_mul(100).wrapping_add(f.to as u64);
    let places = f.from_at.wrapping_mul(100).wrapping_add(f.to_at);
    let all = ends.wrapping_mul(10_000).wrapping_add(places);
    id.wrapping_mul(100_000_000).wrapping_add(all)
}

impl Observer for Moody {
    ghost watch = { λ _. moody_watched };

    fn kind(&self) -> Kind {
        Kind::Map
    }

    fn readout(&self) -> Readout {
        Readout {
            items: 0,
            k: 0,
            left: 0,
            added: 0,
            erased: 0,
            moved: 0,
        }
    }

    fn arm(&mut self, k: u32) {
        let _ = k;
    }

    fn add(&mut self, f: Fact) -> Result<(), Veto> {
        let mood = self.asks();
        if mood.is_ok() {
            self.learn(&f);
        }
        mood
    }

    fn undo_add(&mut self, f: Fact) {
        self.forget(&f);
    }

    fn shift(&mut self, old: Fact, new: Fact) -> Result<(), Veto> {
        let mood = self.asks();
        if mood.is_ok() {
            self.forget(&old);
            self.learn(&new);
        }
        mood
    }

    fn undo_shift(&mut self, old: Fact, new: Fact) {
        self.forget(&new);
        self.learn(&old);
    }

    fn build(&mut self, all: &[Fact]) -> Result<(), Veto> {
        let mood = self.asks();
        if mood.is_ok() {
            for f in all {
                self.learn(f);
            }
        }
        mood
    }

    fn undo_build(&mut self) {
        self.known = 0;
    }

    fn erase(&mut self, f: Fact) -> After {
        self.forget(&f);
        self.lost = self.lost.wrapping_add(1);
        After::Keep
    }

    fn clear(&mut self) -> After {
        self.known = 0;
        self.lost = self.lost.wrapping_add(1);
        After::Keep
    }
}
