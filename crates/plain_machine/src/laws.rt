//! Laws of the plain machine, and its limits as numbers. A function here has no code: its contract
//! is the law.

ghost use Rattle.std.specs.Prelude.{◌≡◌};
ghost use Rattle.plain_machine.specs.Chosen.{Pick, PickedAnswers};
ghost use Rattle.plain_machine.specs.Laws as laws;

use crate::limits::{
    GRAPH_LIMIT, MAX_DRILLED, MAX_MADE_ARCS, MAX_MADE_NODES, MAX_SEED, SCRIPT_LIMIT,
};

/// A graph file has at most 67,108,864 bytes, and a script at most 16,777,216. The seed of a
/// generated graph is at most 2,147,483,646, and it has at most 100,000 nodes and 400,000 arcs. A
/// drill draws at most 100,000 lines.
pub fn limits_are()
    ensures graph { GRAPH_LIMIT ≡ 67108864 }
    ensures script { SCRIPT_LIMIT ≡ 16777216 }
    ensures seed { MAX_SEED ≡ 2147483646 }
    ensures made_nodes { MAX_MADE_NODES ≡ 100000 }
    ensures made_arcs { MAX_MADE_ARCS ≡ 400000 }
    ensures drilled { MAX_DRILLED ≡ 100000 }
{}

/// A command has one answer and leaves one world, by what is picked for it.
pub fn steps_are_one()
    ensures { laws.StepsAreOne }
{}

/// Where a line says no command that leaves a choice, nothing is picked.
pub fn nothing_is_picked()
    ensures { laws.NothingIsPicked }
{}

/// Lines have one list of answers, and lead to one world, by what is picked.
pub fn picked_runs_are_one()
    ensures { (pick : Pick) → laws.RunsAreOne (PickedAnswers pick) }
{}

/// Lines that leave no choice have one list of answers, and lead to one world.
pub fn sure_runs_are_one()
    ensures { laws.SureRunsAreOne }
{}

/// Early ends at one line had one list of answers before it, and came to one world and to the same
/// files, by what is picked.
pub fn picked_stops_are_one()
    ensures { (pick : Pick) → laws.StopsAreOne (PickedAnswers pick) }
{}

/// So had early ends among lines that leave no choice.
pub fn sure_stops_are_one()
    ensures { laws.SureStopsAreOne }
{}

/// Words, boxes and files come to one status, report, files and world handed back, but for the
/// early ends, by what is picked.
pub fn picked_outcomes_are_one()
    ensures { (pick : Pick) → laws.OutcomesAreOne (PickedAnswers pick) }
{}
