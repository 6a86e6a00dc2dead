//! An observer that finds no memory at any one step of an alteration leaves all as before it.

ghost use Rattle.std.specs.Prelude.{◌≡◌, Contains, IfOk};
ghost use Rattle.change_tests.specs.Watching.{IsWatchedInStep};

use crate::acts::{make, make_listed, refuse, snapshot, snapshot_beside, take};
use crate::moody::Moody;
use crate::moody_rows::{BUILD, BUILT, ROWS, Row};
use crate::seats::{Seat, attach, has_lists, no_memory};
use crate::watcher::Watcher;
use alter_graph::{AlterFault, Alterable, SnapKeys};
use base_items::{Arc, ItemSort, Node};
use digraph_text::is_live;
use named_changes::Change;
use std::alloc::Global;
use std::process::Abort;
use std::test::Fail;

// Which of three seats of a chain finds no memory, and at which of the notices that it may refuse.
// Its build is number 0, and those of what is done begin with 1.
#[derive(Clone, Copy, Debug)]
struct Mood {
    sort: ItemSort,
    place: u32,
    notice: u32,
}

// How many notices the seat takes before that one.
fn until(mood: Mood, sort: ItemSort, place: u32) -> u32 {
    if mood.sort == sort && mood.place == place {
        mood.notice
    } else {
        1_000
    }
}

// A seat that takes so many notices.
fn attach_moody(
    rt: &impl Abort,
    alloc: Global,
    all: &mut Alterable<Watcher>,
    sort: ItemSort,
    until: u32,
    seats: &mut Vec<Seat>,
) -> Result<(), Fail>
    requires { IsWatchedInStep all.old }
    ensures in_step { IsWatchedInStep all.new }
    ensures names { all.new.chains.snaps ≡ all.old.chains.snaps }
{
    let moody = Moody {
        until,
        known: 0,
        lost: 0,
    };
    attach(
        rt,
        alloc,
        all,
        sort,
        Watcher::Moody(moody),
        until == 0,
        seats,
    )
}

// A seat in each chain, or none.
fn attach_both(
    rt: &impl Abort,
    alloc: Global,
    all: &mut Alterable<Watcher>,
    mood: Mood,
    place: Option<u32>,
    seats: &mut Vec<Seat>,
) -> Result<(), Fail>
    requires { IsWatchedInStep all.old }
    ensures in_step { IsWatchedInStep all.new }
    ensures names { all.new.chains.snaps ≡ all.old.chains.snaps }
{
    let Some(place) = place else {
        return Ok(());
    };
    let takes = until(mood, ItemSort::Node, place);
    attach_moody(rt, alloc, all, ItemSort::Node, takes, seats)?;
    let takes = until(mood, ItemSort::Arc, place);
    attach_moody(rt, alloc, all, ItemSort::Arc, takes, seats)
}

// Changes, and the seats that are newer than they are and older than the second snapshot.
fn attach_newer(
    rt: &impl Abort,
    alloc: Global,
    all: &mut Alterable<Watcher>,
    changes: &[Change],
    mood: Mood,
    place: Option<u32>,
    seats: &mut Vec<Seat>,
) -> Result<(), Fail>
    requires { IsWatchedInStep all.old }
    ensures in_step { IsWatchedInStep all.new }
    ensures names { all.new.chains.snaps ≡ all.old.chains.snaps }
{
    make(rt, alloc, all, changes)?;
    attach_both(rt, alloc, all, mood, place, seats)?;
    attach_both(rt, alloc, all, mood, Some(1), seats)
}

// Three seats in each chain beside two snapshots. The oldest is older than the first snapshot where
// nothing is changed after it. The names of both.
fn attach_all(
    rt: &impl Abort,
    alloc: Global,
    all: &mut Alterable<Watcher>,
    row: &Row,
    mood: Mood,
    seats: &mut Vec<Seat>,
) -> Result<(SnapKeys, SnapKeys), Fail>
    requires { IsWatchedInStep all.old }
    ensures in_step { IsWatchedInStep all.new }
    ensures there { IfOk result (λ names. Contains all.new.chains.snaps names.0) }
{
    let changes = row.before;
    let (older, newer) = if changes.is_empty() {
        (Some(0), None)
    } else {
        (None, Some(0))
    };
    attach_both(rt, alloc, all, mood, older, seats)?;
    let first = snapshot(all, seats, alloc)?;
    attach_newer(rt, alloc, all, changes, mood, newer, seats)?;
    let second = snapshot_beside(all, seats, alloc, (first, first))?;
    attach_both(rt, alloc, all, mood, Some(2), seats)?;
    Ok((first, second))
}

// Adds a node, which a seat may refuse once.
fn next_node(all: &mut Alterable<Watcher>) -> Option<Node>
    requires { IsWatchedInStep all.old }
    ensures { IsWatchedInStep all.new }
{
    match all.add_node() {
        Ok(node) => Some(node),
        Err(_) => all.add_node().ok(),
    }
}

// Adds a loop of the node, which a seat may refuse once. None also where the node isn't live.
fn next_arc(all: &mut Alterable<Watcher>, node: Node) -> Option<Arc>
    requires { IsWatchedInStep all.old }
    ensures { IsWatchedInStep all.new }
{
    if !is_live(all.graph(), ItemSort::Node, node.0) {
        return None;
    }
    match all.add_arc(node, node) {
        Ok(arc) => Some(arc),
        Err(_) => last_arc(all, node),
    }
}

fn last_arc(all: &mut Alterable<Watcher>, node: Node) -> Option<Arc>
    requires { IsWatchedInStep all.old }
    ensures { IsWatchedInStep all.new }
{
    if !is_live(all.graph(), ItemSort::Node, node.0) {
        return None;
    }
    all.add_arc(node, node).ok()
}

// The ids of the next node and of the next arc. None where one isn't added.
fn next_ids(all: &mut Alterable<Watcher>) -> Option<(u32, u32)>
    requires { IsWatchedInStep all.old }
    ensures { IsWatchedInStep all.new }
{
    let node = next_node(all)?;
    let arc = next_arc(all, node)?;
    Some((node.0, arc.0))
}

// What a seat was told, and how much of it to lose. None where it isn't moody.
fn account(all: &Alterable<Watcher>, seat: Seat) -> Option<(u64, u64)> {
    match all.seat(seat.0, seat.1) {
        Some(Watcher::Moody(moody)) => Some((moody.known, moody.lost)),
        _ => None,
    }
}

// How many of the seats are moody ones of the sort. Each was told so much, and to lose so many
// items.
fn knowing(
    rt: &impl Abort,
    all: &Alterable<Watcher>,
    sort: ItemSort,
    seats: &[Seat],
    told: u64,
    lost: u64,
) -> u32 {
    let mut count = 0u32;
    for seat in seats {
        if seat.0 == sort {
            if let Some(knows) = account(all, *seat) {
                assert_eq!(rt; knows, (told, lost));
                count = count.wrapping_add(1);
            }
        }
    }
    count
}

// What the first moody seat of the sort was told.
fn first_told(all: &Alterable<Watcher>, sort: ItemSort, seats: &[Seat]) -> u64 {
    for seat in seats {
        if seat.0 == sort {
            if let Some(knows) = account(all, *seat) {
                return knows.0;
            }
        }
    }
    0
}

// The three seats of the sort know what a new one is told.
fn know_all(
    rt: &impl Abort,
    alloc: Global,
    all: &mut Alterable<Watcher>,
    sort: ItemSort,
    seats: &[Seat],
    lost: u64,
) -> Result<(), Fail>
    requires { IsWatchedInStep all.old }
    ensures { IsWatchedInStep all.new }
{
    let told = first_told(all, sort, seats);
    assert_eq!(rt; knowing(rt, all, sort, seats, told, lost), 3);
    let mut new = Vec::new(alloc);
    attach_moody(rt, alloc, all, sort, 1_000, &mut new)?;
    for seat in &new {
        assert_eq!(rt; account(all, *seat), Some((told, 0)));
    }
    Ok(())
}

// How many notices of the row the seats of a sort may refuse.
fn refusable(row: &Row, sort: ItemSort) -> u32 {
    match sort {
        ItemSort::Node => row.refusable.0,
        ItemSort::Arc => row.refusable.1,
    }
}

// What the row does is refused where its seat may.
fn refuse_row(
    rt: &impl Abort,
    alloc: Global,
    all: &mut Alterable<Watcher>,
    row: &Row,
    mood: Mood,
    name: SnapKeys,
    seats: &[Seat],
) -> Result<(), Fail>
    requires in_step { IsWatchedInStep all.old }
    requires there { Contains all.old.chains.snaps name }
    ensures in_step { IsWatchedInStep all.new }
    ensures there { Contains all.new.chains.snaps name }
{
    if mood.notice == 0 || mood.notice > refusable(row, mood.sort) {
        return Ok(());
    }
    refuse(rt, alloc, all, row.act, name, seats, AlterFault::Memory)
}

// What is there once it is done.
fn check(
    rt: &impl Abort,
    alloc: Global,
    all: &mut Alterable<Watcher>,
    row: &Row,
    second: SnapKeys,
    seats: &[Seat],
) -> Result<(), Fail>
    requires { IsWatchedInStep all.old }
    ensures { IsWatchedInStep all.new }
{
    has_lists(rt, alloc, all, row.lists)?;
    assert_eq!(rt; all.snapshot_valid(second), row.valid, "{:?}", row.act);
    know_all(rt, alloc, all, ItemSort::Node, seats, row.lost.0)?;
    know_all(rt, alloc, all, ItemSort::Arc, seats, row.lost.1)?;
    match next_ids(all) {
        Some(ids) => {
            assert_eq!(rt; ids, row.next, "{:?}", row.act);
            Ok(())
        }
        None => no_memory(),
    }
}

// What is refused leaves all as before, and the next time it is done.
fn attempt(rt: &impl Abort, alloc: Global, row: &Row, mood: Mood) -> Result<(), Fail> {
    let mut all = Alterable::new(alloc);
    make_listed(rt, alloc, &mut all, &BUILD, BUILT)?;
    let mut seats = Vec::new(alloc);
    let (first, second) = attach_all(rt, alloc, &mut all, row, mood, &mut seats)?;
    refuse_row(rt, alloc, &mut all, row, mood, first, seats.as_slice())?;
    take(rt, alloc, &mut all, row.act, first, seats.as_slice())?;
    check(rt, alloc, &mut all, row, second, seats.as_slice())
}

// Each notice of one seat, and one more, which doesn't come.
fn attempt_each(
    rt: &impl Abort,
    alloc: Global,
    row: &Row,
    sort: ItemSort,
    place: u32,
) -> Result<(), Fail> {
    for notice in 0..8u32 {
        let mood = Mood {
            sort,
            place,
            notice,
        };
        attempt(rt, alloc, row, mood)?;
    }
    Ok(())
}

#[test]
fn what_is_refused_leaves_all_as_before(rt: HostRuntime) -> Result<(), Fail> {
    for row in ROWS {
        for place in 0..3 {
            attempt_each(&rt, rt.alloc(), &row, ItemSort::Node, place)?;
            attempt_each(&rt, rt.alloc(), &row, ItemSort::Arc, place)?;
        }
    }
    Ok(())
}
