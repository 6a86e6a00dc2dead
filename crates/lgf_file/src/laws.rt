//! Laws of documents. Each is a function that does nothing.

ghost use Rattle.lgf_file.specs.Laws.{PlainSpells, OneDocument, FaultSpellsNone, OneFault};
ghost use Rattle.lgf_file.specs.Laws.{SomeAnswer};

/// The written document spells its document. So what was written is read again as itself.
#[tactic(auto, using(crate::proofs::RoundTrip::plain_spells))]
pub fn plain_spells()
    ensures { PlainSpells }
{}

/// Bytes spell one document at most.
pub fn one_document()
    ensures { OneDocument }
{}

/// Bytes that have a fault spell no document.
pub fn fault_spells_none()
    ensures { FaultSpellsNone }
{}

/// There is one first fault at most.
#[tactic(auto, using(crate::proofs::FirstFaults::one_fault))]
pub fn one_fault()
    ensures { OneFault }
{}

/// Bytes spell a document or have a first fault.
pub fn some_answer()
    ensures { SomeAnswer }
{}
