//! How a view is numbered. The function here has no code: its contract is the law.

ghost use Rattle.plain_certificates.specs.Numbering.{NumberedHasEnds, NumberedKeepsEnds};

/// Where what is shown is numbered in its order, the ends of each arc are nodes by number, and they
/// are those that the view shows.
pub fn numbered_view_keeps_ends()
    ensures nodes { NumberedHasEnds }
    ensures same { NumberedKeepsEnds }
{}
