//! The kinds of observers, their answers, and what can be read from one.

/// A guard's kind; all else is a map. The law of a kind, of the facts of the live items of one
/// sort:
#[derive(Clone, Copy, PartialEq, Eq, Debug)]
pub enum Kind {
    /// No guard, and no law.
    Map,
    /// At most `k` items; `k` from 0 to 4194304.
    Quota,
    /// No arc from a node to itself.
    Loopless,
    /// No two arcs with the same source and the same target.
    Simple,
    /// At most `k` arcs from each node; `k` from 0 to 4194304.
    OutCap,
    /// No law. It leaves at the `k`th erasure, and at a clear; `k` from 1 to 4194304.
    Fuse,
    /// No law. It counts additions, erasures and moves.
    Tally,
}

/// Why a change isn't taken.
#[derive(Clone, Copy, PartialEq, Eq, Debug)]
pub enum Veto {
    /// The law of the kind would be broken.
    Refused,
    /// There is no memory.
    Memory,
}

/// Whether an observer stays after an erasure or a clear.
#[derive(Clone, Copy, PartialEq, Eq, Debug)]
pub enum After {
    Keep,
    Detach,
}

/// A guard's numbers. What its kind doesn't have is 0, and for a map all are.
#[derive(Clone, Copy, PartialEq, Eq, Debug)]
pub struct Readout {
    /// How many facts are tracked.
    pub items: u32,
    /// The parameter.
    pub k: u32,
    /// After how many erasures a fuse leaves.
    pub left: u32,
    /// What a tally counted since it was armed.
    pub added: u64,
    pub erased: u64,
    pub moved: u64,
}

/// The layers of a view that is kept.
#[derive(Clone, Copy, PartialEq, Eq, Debug)]
pub enum KeptShape {
    Sub,
    Residual,
    ResidualOverSub,
}
