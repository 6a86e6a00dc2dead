//! The trait that every observer meets.

use crate::kinds::{After, Kind, Readout, Veto};
use base_items::Fact;

/// What watches the items of one sort. The crate's first page has the order of the notices.
///
/// Each fact that is told has an id and ends below `MAX_ARCS`. What is "live" in a condition is a
/// list of facts by rising id that the observer stands for, and that the caller has in mind. No
/// call lowers the room or the reach, and none changes with what arguments the observer was made.
pub trait Observer: Drop {
    ghost use Rattle.std.specs.Prelude.{◌≡◌, ℕ, ◌≤◌};
    ghost use Rattle.observe_core.specs.Seen.{Watched, Reads};
    ghost use Rattle.observe_core.specs.Told.{added, shifted, built, erased, cleared, armed};
    ghost use Rattle.observe_core.specs.Untold.{unadded, unshifted, unbuilt};
    ghost use Rattle.observe_core.specs.Conditions.{CanAdd, CanShift, CanBuild, CanErase};
    ghost use Rattle.observe_core.specs.Conditions.{CanUndoAdd, CanUndoShift, CanUndoBuild};
    ghost use Rattle.observe_core.specs.Conditions.{HasSmallCounts, IsArmable, Answers, leaves};

    /// The plain record of what is watched, the room, the reach, and what is always so of them.
    ghost watch: { Self → Watched };

    /// The kind, which never changes.
    fn kind(&self) -> Kind
        ensures { result ≡ (watch self.now).seen.kind };

    /// A guard's numbers; those that its kind doesn't have are 0, and for a map all are.
    fn readout(&self) -> Readout
        ensures { Reads (watch self.now).seen result };

    /// Gives a guard that tracks nothing its parameter, and starts its counts anew; a fuse has `k`
    /// left. `k` is at most the greatest parameter of the kind, and at least 1 for a fuse. A map
    /// may be armed with 0, which changes nothing.
    fn arm(&mut self, k: u32)
        requires { IsArmable k (watch self.old).seen }
        ensures armed { (watch self.new).seen ≡ armed k (watch self.old).seen }
        ensures room { (watch self.old).room ≤ (watch self.new).room }
        ensures reach { (watch self.old).reach ≤ (watch self.new).reach };

    /// Says that an item is to be added. It has an id that isn't tracked, and counts are below
    /// 2^63.
    ///
    /// `Refused` exactly where the law of the kind fails with the new fact, `Memory` where memory
    /// is wanting. At both the observer is as before.
    fn add(&mut self, f: Fact) -> Result<(), Veto>
        requires { CanAdd f (watch self.old).seen }
        ensures told { Answers result (watch self.old).seen (watch self.new).seen (added f (watch self.old).seen) }
        ensures room { (watch self.old).room ≤ (watch self.new).room }
        ensures reach { (watch self.old).reach ≤ (watch self.new).reach };

    /// Says that the addition never counted. It was accepted, and gave the present record.
    fn undo_add(&mut self, f: Fact)
        requires { CanUndoAdd f (watch self.old).seen (watch self.old).reach }
        ensures untold { (watch self.new).seen ≡ unadded f (watch self.old).seen }
        ensures room { (watch self.old).room ≤ (watch self.new).room }
        ensures reach { (watch self.old).reach ≤ (watch self.new).reach };

    /// Says that an item is to have another fact. The old one is tracked, the new one has its id
    /// and differs from it, and counts are below 2^63. What hangs on the item stays.
    ///
    /// `Refused` exactly where the law of the kind fails with the new fact in place of the old one,
    /// `Memory` where memory is wanting. At both the observer is as before.
    fn shift(&mut self, old: Fact, new: Fact) -> Result<(), Veto>
        requires { CanShift old new (watch self.old).seen }
        ensures told { Answers result (watch self.old).seen (watch self.new).seen
            (shifted old new (watch self.old).seen) }
        ensures room { (watch self.old).room ≤ (watch self.new).room }
        ensures reach { (watch self.old).reach ≤ (watch self.new).reach };

    /// Says that the move never counted. It was accepted, and gave the present record.
    fn undo_shift(&mut self, old: Fact, new: Fact)
        requires { CanUndoShift old new (watch self.old).seen (watch self.old).reach }
        ensures untold { (watch self.new).seen ≡ unshifted old new (watch self.old).seen }
        ensures room { (watch self.old).room ≤ (watch self.new).room }
        ensures reach { (watch self.old).reach ≤ (watch self.new).reach };

    /// Says which items there are, to an observer that tracks nothing. Their ids differ. No count
    /// rises.
    ///
    /// `Refused` exactly where the law of the kind fails of all these facts, `Memory` where memory
    /// is wanting. At both the observer is as before.
    fn build(&mut self, all: &[Fact]) -> Result<(), Veto>
        requires { CanBuild all.now (watch self.old).seen }
        ensures told { Answers result (watch self.old).seen (watch self.new).seen
            (built all.now (watch self.old).seen) }
        ensures room { (watch self.old).room ≤ (watch self.new).room }
        ensures reach { (watch self.old).reach ≤ (watch self.new).reach };

    /// Says that the build never counted. It was accepted, and gave the present record.
    fn undo_build(&mut self)
        requires { CanUndoBuild (watch self.old).seen (watch self.old).reach }
        ensures untold { (watch self.new).seen ≡ unbuilt (watch self.old).seen }
        ensures room { (watch self.old).room ≤ (watch self.new).room }
        ensures reach { (watch self.old).reach ≤ (watch self.new).reach };

    /// Says that an item goes. It is tracked, and counts are below 2^63. A fuse that has something
    /// left loses one.
    ///
    /// `Detach` exactly from a fuse that has nothing left afterwards.
    fn erase(&mut self, f: Fact) -> After
        requires { CanErase f (watch self.old).seen }
        ensures told { (watch self.new).seen ≡ erased f (watch self.old).seen }
        ensures leaves { result ≡ leaves (erased f (watch self.old).seen) }
        ensures room { (watch self.old).room ≤ (watch self.new).room }
        ensures reach { (watch self.old).reach ≤ (watch self.new).reach };

    /// Says that all items go; to a tally each of them counts as an erasure. Counts are below 2^63.
    ///
    /// `Detach` exactly from a fuse.
    fn clear(&mut self) -> After
        requires { HasSmallCounts (watch self.old).seen }
        ensures told { (watch self.new).seen ≡ cleared (watch self.old).seen }
        ensures leaves { result ≡ leaves (record (watch self.old).seen { left = 0 }) }
        ensures room { (watch self.old).room ≤ (watch self.new).room }
        ensures reach { (watch self.old).reach ≤ (watch self.new).reach };
}
