//! Fuses leave at erasures in the midst of what is done, and the others are told all of it.

ghost use Rattle.std.specs.Prelude.{◌≡◌, ◌≤◌};
ghost use Rattle.observe_core.specs.Untold.{TracksNothing};
ghost use Rattle.alter_graph.specs.Attaching.{HasNoCounts};
ghost use Rattle.change_tests.specs.Watching.{watched, IsWatchedInStep};

use crate::acts::{make, make_listed, snapshot, take};
use crate::fuse_rows::{BUILD, BUILT, ROWS, Row};
use crate::seats::{Seat, attach, has_lists, told};
use crate::watcher::Watcher;
use alter_graph::Alterable;
use base_items::ItemSort;
use guard_kinds::{Fuse, Tally};
use notify_chain::SeatKey;
use observe_core::Observer;
use std::alloc::{AllocError, Global};
use std::fmt::Write;
use std::process::Abort;
use std::test::Fail;

fn tally(alloc: Global) -> Watcher
    ensures empty { TracksNothing (watched result).seen }
    ensures counts { HasNoCounts (watched result).seen }
{
    Watcher::Guard(Tally::new(alloc))
}

// A fuse of 1 to 6.
fn fuse(number: u32, alloc: Global) -> Watcher
    requires least { 1 ≤ number }
    requires most { number ≤ 6 }
    ensures empty { TracksNothing (watched result).seen }
    ensures counts { HasNoCounts (watched result).seen }
{
    let mut guard = Fuse::new(alloc);
    guard.arm(number);
    Watcher::Guard(guard)
}

// A tally, fuses of 1 to 6, and another tally.
fn attach_all(
    rt: &impl Abort,
    alloc: Global,
    all: &mut Alterable<Watcher>,
    sort: ItemSort,
) -> Result<Vec<Seat>, Fail>
    requires { IsWatchedInStep all.old }
    ensures in_step { IsWatchedInStep all.new }
    ensures names { all.new.chains.snaps ≡ all.old.chains.snaps }
{
    let mut seats = Vec::new(alloc);
    attach(rt, alloc, all, sort, tally(alloc), false, &mut seats)?;
    for number in 1..7u32 {
        attach(rt, alloc, all, sort, fuse(number, alloc), false, &mut seats)?;
    }
    attach(rt, alloc, all, sort, tally(alloc), false, &mut seats)?;
    Ok(seats)
}

// Which of the seats had the key.
fn place_of(seats: &[Seat], key: SeatKey) -> usize {
    seats
        .iter()
        .position(|seat| seat.1 == key)
        .unwrap_or(seats.len())
}

// Who left, the first of them first.
fn push_left(
    text: &mut String,
    all: &mut Alterable<Watcher>,
    nodes: &[Seat],
    arcs: &[Seat],
) -> Result<(), AllocError> {
    for _ in 0..20u32 {
        let Some((sort, key)) = all.pop_left() else {
            return Ok(());
        };
        match sort {
            ItemSort::Node => write!(text, "node {}, ", place_of(nodes, key))?,
            ItemSort::Arc => write!(text, "arc {}, ", place_of(arcs, key))?,
        }
    }
    Ok(())
}

// Who left.
fn left(
    rt: &impl Abort,
    alloc: Global,
    all: &mut Alterable<Watcher>,
    nodes: &[Seat],
    arcs: &[Seat],
    expected: &str,
) -> Result<(), Fail> {
    let mut text = String::new(alloc);
    push_left(&mut text, all, nodes, arcs)?;
    assert_eq!(rt; text.as_str(), expected);
    Ok(())
}

fn follow(rt: &impl Abort, alloc: Global, row: &Row) -> Result<(), Fail> {
    let mut all = Alterable::new(alloc);
    make_listed(rt, alloc, &mut all, &BUILD, BUILT)?;
    let mut halves = Vec::new(alloc);
    let name = snapshot(&mut all, &mut halves, alloc)?;
    make(rt, alloc, &mut all, row.before)?;
    let nodes = attach_all(rt, alloc, &mut all, ItemSort::Node)?;
    let arcs = attach_all(rt, alloc, &mut all, ItemSort::Arc)?;
    take(rt, alloc, &mut all, row.act, name, arcs.as_slice())?;
    has_lists(rt, alloc, &all, row.lists)?;
    told(rt, alloc, &all, halves.as_slice(), row.halves)?;
    told(rt, alloc, &all, nodes.as_slice(), row.nodes)?;
    told(rt, alloc, &all, arcs.as_slice(), row.arcs)?;
    left(
        rt,
        alloc,
        &mut all,
        nodes.as_slice(),
        arcs.as_slice(),
        row.left,
    )
}

#[test]
fn fuses_leave_in_the_midst(rt: HostRuntime) -> Result<(), Fail> {
    for row in ROWS {
        follow(&rt, rt.alloc(), &row)?;
    }
    Ok(())
}
