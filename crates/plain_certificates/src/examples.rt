//! That each certificate has an example. The function here has no code: its contract is the law.

ghost use Rattle.plain_certificates.specs.Examples as examples;

/// Each certificate holds of something: paths along an arc, a negative cycle of two arcs, a cut, a
/// barrier of each kind, an optimal flow, a basic one, a free cycle, pairings, a set short of
/// neighbours, a cycle of the least ratio, and an order without cycles.
pub fn certificates_have_examples()
    ensures paths { examples.PathsAlongLine }
    ensures cycle { examples.NegativeRound }
    ensures cut { examples.CutOfLine }
    ensures over { examples.TooMuchOnLine }
    ensures under { examples.TooLittleOnLine }
    ensures optimal { examples.OptimalOnLine }
    ensures basic { examples.BasicRound }
    ensures free_cycle { examples.FreeRound }
    ensures pairing { examples.PairOnLine }
    ensures heaviest { examples.HeaviestOnLine }
    ensures assigned { examples.AssignedOnLine }
    ensures short { examples.ShortFork }
    ensures mean { examples.MeanRound }
    ensures acyclic { examples.LineInOrder }
{}
