//! Alterations part by part and step by step, and a law of guards by numbers.

ghost use Rattle.plain_digraph.specs.AlterationLaws as laws;
ghost use Rattle.plain_digraph.specs.Guards as guards;

/// Some steps behind others go on from where those lead.
pub fn steps_lead_on()
    ensures { laws.StepsLeadOn }
{}

/// Some parts of an alteration behind others begin where those lead.
pub fn parts_in_turn()
    ensures { laws.PartsInTurn }
{}

/// The steps of an alteration are the refusable ones, and then those of the sure parts from
/// where these lead.
pub fn steps_in_turn()
    ensures { laws.StepsInTurn }
{}

/// At most so many arcs go from each source exactly where at most so many go from each node.
pub fn few_from_each_node()
    ensures { guards.FewFromEachNode }
{}
