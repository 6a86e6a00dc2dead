//! The observers of these tests as one type.

use crate::moody::Moody;
use alter_graph::HoldsHalf;
use base_items::Fact;
use guard_kinds::Guard;
use observe_core::{After, Kind, Observer, Readout, Veto};
use snap_shots::Half;

/// An observer of a test. Contracts see of it what they see of what it holds.
#[derive(Drop)]
pub enum Watcher {
    Moody(Moody),
    Guard(Guard),
    Half(Half),
}

// The call on what it holds.
macro_rules! held {
    ($watcher:expr, $it:ident => $call:expr) => {
        match $watcher {
            Watcher::Moody($it) => $call,
            Watcher::Guard($it) => $call,
            Watcher::Half($it) => $call,
        }
    };
}

impl Observer for Watcher {
    ghost use Rattle.change_tests.specs.Watching.{watched};

    ghost watch = { watched };

    fn kind(&self) -> Kind {
        held!(self, o => o.kind())
    }

    fn readout(&self) -> Readout {
        held!(self, o => o.readout())
    }

    fn arm(&mut self, k: u32) {
        held!(self, o => o.arm(k))
    }

    fn add(&mut self, f: Fact) -> Result<(), Veto> {
        held!(self, o => o.add(f))
    }

    fn undo_add(&mut self, f: Fact) {
        held!(self, o => o.undo_add(f))
    }

    fn shift(&mut self, old: Fact, new: Fact) -> Result<(), Veto> {
        held!(self, o => o.shift(old, new))
    }

    fn undo_shift(&mut self, old: Fact, new: Fact) {
        held!(self, o => o.undo_shift(old, new))
    }

    fn build(&mut self, all: &[Fact]) -> Result<(), Veto> {
        held!(self, o => o.build(all))
    }

    fn undo_build(&mut self) {
        held!(self, o => o.undo_build())
    }

    fn erase(&mut self, f: Fact) -> After {
        held!(self, o => o.erase(f))
    }

    fn clear(&mut self) -> After {
        held!(self, o => o.clear())
    }
}

impl HoldsHalf for Watcher {
    fn from_half(half: Half) -> Watcher {
        Watcher::Half(half)
    }

    fn half(&self) -> Option<&Half> {
        match self {
            Watcher::Half(half) => Some(half),
            _ => None,
        }
    }
}
