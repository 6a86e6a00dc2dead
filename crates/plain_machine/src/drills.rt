//! The words of the lines that a drill draws.

/// A word of a line that is drawn, behind its command.
#[derive(Clone, Copy)]
pub enum DrillWord {
    /// A new label: this letter and the number of the line.
    New(u8),
    /// The label of one of the first 100 nodes.
    Node,
    /// The label of one of the first 400 arcs.
    Arc,
}
