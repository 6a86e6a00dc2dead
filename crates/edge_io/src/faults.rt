//! Why a call of the outside gave nothing.

/// A call of the outside failed.
#[derive(Clone, Copy, Debug, PartialEq, Eq, thiserror::Error)]
#[error("a call of the outside failed")]
pub struct Failed;

/// Why a file wasn't read whole.
#[derive(Clone, Copy, Debug, PartialEq, Eq, thiserror::Error)]
pub enum InFault {
    /// A read failed.
    #[error("a read failed")]
    Failed,
    /// The file has more bytes than the limit.
    #[error("the file is longer than its limit")]
    TooLong,
    /// Out of memory.
    #[error("out of memory")]
    Memory,
}
