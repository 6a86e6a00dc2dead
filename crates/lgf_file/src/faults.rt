//! Why bytes are no document.

ghost use Rattle.std.specs.Prelude.{◌≡◌};
ghost use Rattle.lgf_file.specs.Kinds.{kind_name};
ghost use Rattle.lgf_file.specs.declared.faults.DocFault.TheVariants.{Memory as NoMemory};

use std::alloc::{AllocError, AllocFailed};

/// What is wrong with a graph file. The first three are of the whole file and come before any
/// other; of the others the first line that has one counts, and on it the first in this order.
#[derive(Clone, Copy, Debug, PartialEq, Eq)]
pub enum LgfKind {
    /// There is no section of nodes. The line is the number of lines and one more.
    NoNodes,
    /// There is no section of arcs. The line is the number of lines and one more.
    NoArcs,
    /// The first section of arcs, in this line, stands before the first one of nodes.
    ArcsFirst,
    /// A token can't be read: a quote isn't closed, or a backslash in quotes begins no escape.
    Token,
    /// It is the line of one node or arc more than there may be.
    TooMany,
    /// A column is named `-`.
    DashColumn,
    /// Two columns have one name.
    TwiceColumn,
    /// No column of the nodes is named `label`.
    NoLabel,
    /// There are too few tokens.
    ShortRow,
    /// There are too many tokens.
    LongRow,
    /// The source or the target of an arc is no node's label.
    UnknownLabel,
    /// The label of a node or of an arc stood in an earlier row of its section.
    TwiceLabel,
    /// The name of an attribute stood in an earlier row.
    TwiceAttribute,
}

impl LgfKind {
    /// The name of the kind, as it is printed.
    pub fn name(self) -> &'static [u8]
        ensures { result.now ≡ kind_name self }
    {
        match self {
            LgfKind::NoNodes => b"NoNodes",
            LgfKind::NoArcs => b"NoArcs",
            LgfKind::ArcsFirst => b"ArcsFirst",
            LgfKind::Token => b"Token",
            LgfKind::TooMany => b"TooMany",
            LgfKind::DashColumn => b"DashColumn",
            LgfKind::TwiceColumn => b"TwiceColumn",
            LgfKind::NoLabel => b"NoLabel",
            LgfKind::ShortRow => b"ShortRow",
            LgfKind::LongRow => b"LongRow",
            LgfKind::UnknownLabel => b"UnknownLabel",
            LgfKind::TwiceLabel => b"TwiceLabel",
            LgfKind::TwiceAttribute => b"TwiceAttribute",
        }
    }
}

/// What is wrong, and in which line. Lines are numbered from 1.
#[derive(Clone, Copy, Debug, PartialEq, Eq)]
pub struct LgfFault {
    pub line: u64,
    pub kind: LgfKind,
}

/// Why no document was read.
#[derive(Clone, Copy, Debug, PartialEq, Eq)]
pub enum DocFault {
    /// The bytes spell none.
    Lgf(LgfFault),
    /// Memory ran out.
    Memory,
}

impl From<AllocError> for DocFault {
    ghost from_gives = { λ _ fault. fault ≡ NoMemory };

    fn from(_: AllocError) -> DocFault {
        DocFault::Memory
    }
}

impl<T: Drop> From<AllocFailed<T>> for DocFault {
    ghost from_gives = { λ _ fault. fault ≡ NoMemory };

    fn from(_: AllocFailed<T>) -> DocFault {
        DocFault::Memory
    }
}
