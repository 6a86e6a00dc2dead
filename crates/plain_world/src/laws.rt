//! Laws of the plain machine. A function here has no code: its contract is the law.

ghost use Rattle.plain_world.specs.Choices as choices;
ghost use Rattle.plain_world.specs.Laws as laws;
ghost use Rattle.plain_world.specs.Order as order;

/// The fault of a demand has the number of the demand in the order of faults.
pub fn breaches_are_ranked()
    ensures { order.BreachesAreRanked }
{}

/// The demands of a command stand in the order of their faults, so the first that isn't met has the
/// fault that comes first.
pub fn demands_are_ordered()
    ensures { order.DemandsAreOrdered }
{}

/// The item that has a label is the one that is found by it.
pub fn items_are_named()
    ensures { laws.ItemsAreNamed }
{}

/// Where no item has a label, none is found by it.
pub fn unused_names_are_free()
    ensures { laws.UnusedNamesAreFree }
{}

/// The digraph of a world goes by its plain steps alone.
pub fn altered_graphs_follow()
    ensures { laws.AlteredGraphsFollow }
{}

/// A command that leaves no choice has one answer, and leaves one world.
pub fn answers_are_one()
    ensures { laws.AnswersAreOne }
{}

/// A command that is refused has this answer alone, and changes nothing.
pub fn refusals_are_one()
    ensures { laws.RefusalsAreOne }
{}

/// The document of a valid world is a valid document.
pub fn documents_are_valid()
    ensures { laws.DocumentsAreValid }
{}

/// Loading a valid document gives a valid world.
pub fn loaded_worlds_are_valid()
    ensures { laws.LoadedWorldsAreValid }
{}

/// In a valid world, answers of one command by choices that agree are the same, and leave the same
/// world.
pub fn choices_tell_answers()
    ensures { choices.ChoicesTellAnswers }
{}

/// One answer of a command leaves one world, where the names of the view's arcs differ.
pub fn answers_tell_worlds()
    ensures { choices.AnswersTellWorlds }
{}

/// A valid command leaves a valid world valid, where there are the stamps that it takes: one for
/// each step of its alteration that guards may refuse.
pub fn steps_keep_worlds()
    ensures { laws.StepsKeepWorlds }
{}

/// In a valid world a command takes two stamps for each arc that there may be, at most: 2^23.
pub fn few_stamps_are_taken()
    ensures { laws.FewStampsAreTaken }
{}

/// A snapshot that is restored gives back the nodes, the arcs and the orders of its copy, with
/// their stamps, where there are the stamps that it takes.
pub fn restored_graphs_are_copied()
    ensures { laws.RestoredGraphsAreCopied }
{}
