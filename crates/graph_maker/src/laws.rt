//! A law of graphs from a seed.

ghost use Rattle.std.specs.Prelude.{ℕ, ◌<◌, ◌≤◌};
ghost use Rattle.lgf_file.specs.Documents.{IsDoc};
ghost use Rattle.plain_machine.specs.Generator.{made};

use base_items::{MAX_ARCS, MAX_NODES};

/// A graph from a seed is a valid document, where it has a node and keeps within the limits. So the
/// text that is written of it is read again as itself.
pub fn made_is_a_document()
    ensures { (seed nodes arcs : ℕ) → 0 < nodes → nodes ≤ MAX_NODES → arcs ≤ MAX_ARCS
        → IsDoc (made seed nodes arcs) }
{}
