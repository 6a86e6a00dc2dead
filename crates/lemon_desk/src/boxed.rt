//! Guards that are handed in as boxes.

ghost use Rattle.std.specs.Prelude.{◌≡◌};

use base_items::Fact;
use observe_core::{After, Kind, Observer, Readout, Veto};

/// A boxed observer. Contracts see of it what they see of the observer in the box.
#[derive(Drop)]
pub struct Boxed {
    it: Box<dyn Observer>,
}

impl Boxed {
    /// What is in the box.
    pub fn new(it: Box<dyn Observer>) -> Boxed
        ensures { result.it ≡ it }
    {
        Boxed { it }
    }
}

impl Observer for Boxed {
    ghost watch = { λ b. (Observer-box b.it).watch b.it.value };

    fn kind(&self) -> Kind {
        self.it.kind()
    }

    fn readout(&self) -> Readout {
        self.it.readout()
    }

    fn arm(&mut self, k: u32) {
        self.it.arm(k);
    }

    fn add(&mut self, f: Fact) -> Result<(), Veto> {
        self.it.add(f)
    }

    fn undo_add(&mut self, f: Fact) {
        self.it.undo_add(f);
    }

    fn shift(&mut self, old: Fact, new: Fact) -> Result<(), Veto> {
        self.it.shift(old, new)
    }

    fn undo_shift(&mut self, old: Fact, new: Fact) {
        self.it.undo_shift(old, new);
    }

    fn build(&mut self, all: &[Fact]) -> Result<(), Veto> {
        self.it.build(all)
    }

    fn undo_build(&mut self) {
        self.it.undo_build();
    }

    fn erase(&mut self, f: Fact) -> After {
        self.it.erase(f)
    }

    fn clear(&mut self) -> After {
        self.it.clear()
    }
}
