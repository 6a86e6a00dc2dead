//! An alteration that an observer refuses leaves the digraph and all observers as before.

ghost use Rattle.alter_graph.specs.State.{state_of, IsInStep};

use crate::moody::Moody;
use crate::seats::no_memory;
use alter_graph::{AlterFault, Alterable};
use digraph_text::listed;
use named_changes::{Change, alter};
use observe_core::Observer;
use std::alloc::Global;
use std::process::Abort;
use std::test::Fail;

// An alteration, and all lists after it.
type Row = (Change, &'static str);

// Each takes one stamp, and what it adds or moves stands in front.
const ROWS: [Row; 9] = [
    (Change::AddNode, "0 > <; ids 1 0, stamps 1"),
    (Change::AddNode, "1 > <; 0 > <; ids 2 0, stamps 2"),
    (Change::AddNode, "2 > <; 1 > <; 0 > <; ids 3 0, stamps 3"),
    (
        Change::AddArc(0, 1),
        "2 > <; 1 > <0; 0 >0 <; ids 3 1, stamps 4",
    ),
    (
        Change::AddArc(0, 2),
        "2 > <1; 1 > <0; 0 >1 0 <; ids 3 2, stamps 5",
    ),
    (
        Change::Source(0, 2),
        "2 >0 <1; 1 > <0; 0 >1 <; ids 3 2, stamps 6",
    ),
    (
        Change::Target(1, 1),
        "2 >0 <; 1 > <1 0; 0 >1 <; ids 3 2, stamps 7",
    ),
    (
        Change::Source(1, 0),
        "2 >0 <; 1 > <1 0; 0 >1 <; ids 3 2, stamps 8",
    ),
    (
        Change::Turn(1),
        "2 >0 <; 1 >1 <0; 0 > <1; ids 3 2, stamps 9",
    ),
];

fn follow(rt: &impl Abort, alloc: Global, all: &mut Alterable<Moody>) -> Result<(), Fail>
    requires { IsInStep (state_of ⟦<Moody as Observer>⟧.watch all.old) }
{
    for (change, expected) in ROWS {
        let answer = alter(all, change, alloc);
        if answer == Some(Err(AlterFault::Memory)) {
            return no_memory();
        }
        assert_eq!(rt; answer, Some(Ok(())), "{change:?}");
        let text = listed(alloc, all.graph())?;
        assert_eq!(rt; text.as_str(), expected, "after {change:?}");
    }
    // what isn't live isn't altered
    assert_eq!(rt; alter(all, Change::Turn(2), alloc), None);
    Ok(())
}

#[test]
fn alters_by_single_steps(rt: HostRuntime) -> Result<(), Fail> {
    let mut all = Alterable::new(rt.alloc());
    follow(&rt, rt.alloc(), &mut all)
}
