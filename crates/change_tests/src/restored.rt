//! A snapshot is restored beside others, or not where an item of it is gone or a guard refuses.

ghost use Rattle.std.specs.Prelude.{◌≡◌, true, Contains, IfOk, OnOk};
ghost use Rattle.observe_core.specs.Untold.{TracksNothing};
ghost use Rattle.alter_graph.specs.Attaching.{HasNoCounts};
ghost use Rattle.alter_graph.specs.declared.snaps.SnapKeys.{SnapKeys};
ghost use Rattle.change_tests.specs.Names.{AreApart};
ghost use Rattle.change_tests.specs.Watching.{watched, IsWatchedInStep};

use crate::acts::{Act, make, make_listed, refuse, snapshot, snapshot_beside, take};
use crate::seats::{Seat, attach, has_lists, no_memory, told};
use crate::watcher::Watcher;
use alter_graph::{AlterFault, Alterable, SnapKeys};
use base_items::ItemSort;
use guard_kinds::Simple;
use named_changes::Change;
use std::alloc::Global;
use std::process::Abort;
use std::test::Fail;

// Changes, and all lists after them; behind each of the first three a snapshot is made.
type Row = (&'static [Change], &'static str);

const FIRST: Row = (
    &[
        Change::AddNode,
        Change::AddNode,
        Change::AddNode,
        Change::AddNode,
        Change::AddArc(0, 1),
        Change::AddArc(0, 2),
        Change::AddArc(1, 2),
        Change::AddArc(0, 1),
    ],
    "3 > <; 2 > <2 1; 1 >2 <3 0; 0 >3 1 0 <; ids 4 4, stamps 8",
);

const SECOND: Row = (
    &[Change::Source(0, 2), Change::Turn(1)],
    "3 > <; 2 >1 0 <2; 1 >2 <3 0; 0 >3 <1; ids 4 4, stamps 10",
);

const THIRD: Row = (
    &[Change::Target(2, 3), Change::Source(0, 3)],
    "3 >0 <2; 2 >1 <; 1 >2 <3 0; 0 >3 <1; ids 4 4, stamps 12",
);

const LAST: Row = (
    &[Change::AddNode, Change::AddArc(4, 4), Change::Turn(3)],
    "4 >4 <4; 3 >0 <2; 2 >1 <; 1 >3 2 <0; 0 > <3 1; ids 5 5, stamps 15",
);

// Arcs 0, 2 and 3 go back to the second's places, then 0 and 2 to the third's, and 0 to 2 to the
// first's.
const SECOND_AGAIN: &str = "3 > <; 2 >1 0 <2; 1 >2 <3 0; 0 >3 <1; ids 5 5, stamps 18";

const THIRD_AGAIN: &str = "3 >0 <2; 2 >1 <; 1 >2 <3 0; 0 >3 <1; ids 5 5, stamps 20";

const FIRST_AGAIN: &str = "3 > <; 2 > <2 1; 1 >2 <3 0; 0 >3 1 0 <; ids 5 5, stamps 23";

// The halves of all three before anything is restored, and after the second is.
const HALVES: &str = "\
; valid + 4 ~; valid + 4 ~ 0:0>1@4,4 1:0>2@5,5 2:1>2@6,6 3:0>1@7,7\
; valid + 4 ~; valid + 4 ~ 0:2>1@8,4 2:1>2@6,6 3:0>1@7,7\
; valid + 4 ~; valid + 4 ~ 3:0>1@7,7";

const OTHER_HALVES: &str = "\
; valid + ~; valid + ~ 0:0>1@4,4 1:0>2@5,5\
; gone; gone\
; valid + ~; valid + ~ 0:3>1@11,4 2:1>3@6,10";

// Whether the snapshots have no half in common.
fn are_apart(one: SnapKeys, other: SnapKeys) -> bool
    ensures { result ≡ true → AreApart one other }
{
    one.nodes.0 != other.nodes.0 && one.arcs.0 != other.arcs.0
}

// Restores the snapshot, and compares the lists. Those apart from it stay.
fn give_back(
    rt: &impl Abort,
    alloc: Global,
    all: &mut Alterable<Watcher>,
    name: SnapKeys,
    lists: &str,
) -> Result<(), Fail>
    requires in_step { IsWatchedInStep all.old }
    requires there { Contains all.old.chains.snaps name }
    ensures in_step { IsWatchedInStep all.new }
    ensures others { OnOk result ((k : SnapKeys) → Contains all.old.chains.snaps k
        → AreApart k name → Contains all.new.chains.snaps k) }
{
    if let Err(fault) = all.restore(name, alloc) {
        assert_eq!(rt; fault, AlterFault::Memory);
        return no_memory();
    }
    has_lists(rt, alloc, all, lists)
}

// Three snapshots with changes between them, and some after them.
fn make_three(
    rt: &impl Abort,
    alloc: Global,
    all: &mut Alterable<Watcher>,
    seats: &mut Vec<Seat>,
) -> Result<(SnapKeys, SnapKeys, SnapKeys), Fail>
    requires { IsWatchedInStep all.old }
    ensures in_step { IsWatchedInStep all.new }
    ensures first { IfOk result (λ names. Contains all.new.chains.snaps names.0) }
    ensures second { IfOk result (λ names. Contains all.new.chains.snaps names.1) }
    ensures third { IfOk result (λ names. Contains all.new.chains.snaps names.2) }
{
    make_listed(rt, alloc, all, FIRST.0, FIRST.1)?;
    let first = snapshot(all, seats, alloc)?;
    make_listed(rt, alloc, all, SECOND.0, SECOND.1)?;
    let second = snapshot_beside(all, seats, alloc, (first, first))?;
    make_listed(rt, alloc, all, THIRD.0, THIRD.1)?;
    let third = snapshot_beside(all, seats, alloc, (first, second))?;
    make_listed(rt, alloc, all, LAST.0, LAST.1)?;
    told(rt, alloc, all, seats.as_slice(), HALVES)?;
    Ok((first, second, third))
}

#[test]
fn gives_back_each_of_three(rt: HostRuntime) -> Result<(), Fail> {
    let alloc = rt.alloc();
    let mut all = Alterable::new(alloc);
    let mut seats = Vec::new(alloc);
    let (first, second, third) = make_three(&rt, alloc, &mut all, &mut seats)?;
    assert!(rt; are_apart(first, second));
    assert!(rt; are_apart(third, second));
    assert!(rt; are_apart(first, third));
    give_back(&rt, alloc, &mut all, second, SECOND_AGAIN)?;
    told(&rt, alloc, &all, seats.as_slice(), OTHER_HALVES)?;
    give_back(&rt, alloc, &mut all, third, THIRD_AGAIN)?;
    give_back(&rt, alloc, &mut all, first, FIRST_AGAIN)
}

fn simple(alloc: Global) -> Watcher
    ensures empty { TracksNothing (watched result).seen }
    ensures counts { HasNoCounts (watched result).seen }
{
    Watcher::Guard(Simple::new(alloc))
}

// Arc 0 can't go back beside an arc of the same ends, and once that is gone it can.
#[test]
fn a_guard_or_a_lost_item_refuses(rt: HostRuntime) -> Result<(), Fail> {
    let alloc = rt.alloc();
    let mut all = Alterable::new(alloc);
    let mut seats = Vec::new(alloc);
    make_listed(&rt, alloc, &mut all, FIRST.0, FIRST.1)?;
    make(&rt, alloc, &mut all, &[Change::EraseArc(3)])?;
    let name = snapshot(&mut all, &mut seats, alloc)?;
    make(
        &rt,
        alloc,
        &mut all,
        &[Change::Turn(0), Change::AddArc(0, 1)],
    )?;
    attach(
        &rt,
        alloc,
        &mut all,
        ItemSort::Arc,
        simple(alloc),
        false,
        &mut seats,
    )?;
    let Some((sort, key)) = seats.last().copied() else {
        return Ok(());
    };
    let why = AlterFault::Vetoed(sort, key);
    refuse(
        &rt,
        alloc,
        &mut all,
        Act::Restore,
        name,
        seats.as_slice(),
        why,
    )?;
    make(&rt, alloc, &mut all, &[Change::EraseArc(3)])?;
    take(&rt, alloc, &mut all, Act::Restore, name, seats.as_slice())?;
    let lists = "3 > <; 2 > <2 1; 1 >2 <0; 0 >1 0 <; ids 4 4, stamps 11";
    has_lists(&rt, alloc, &all, lists)?;
    let name = snapshot(&mut all, &mut seats, alloc)?;
    make(&rt, alloc, &mut all, &[Change::EraseArc(2)])?;
    let why = AlterFault::Stale;
    refuse(
        &rt,
        alloc,
        &mut all,
        Act::Restore,
        name,
        seats.as_slice(),
        why,
    )
}
