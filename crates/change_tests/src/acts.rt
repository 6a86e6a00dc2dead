//! What the tests do to a digraph with snapshots.

ghost use Rattle.std.specs.Prelude.{◌≡◌, Contains, OnErr, IfOk};
ghost use Rattle.alter_graph.specs.declared.snaps.SnapKeys.{SnapKeys};
ghost use Rattle.change_tests.specs.Watching.{IsWatchedInStep};

use crate::seats::{Seat, has_lists, no_memory, state};
use crate::watcher::Watcher;
use alter_graph::{AlterFault, Alterable, SnapKeys};
use base_items::ItemSort;
use named_changes::{Change, alter};
use std::alloc::{AllocError, Global};
use std::process::Abort;
use std::test::Fail;

/// An alteration by ids, or the restore of a snapshot.
#[derive(Clone, Copy, Debug)]
pub enum Act {
    Alter(Change),
    Restore,
}

// Makes a change of live items.
fn change(
    rt: &impl Abort,
    all: &mut Alterable<Watcher>,
    change: Change,
    alloc: Global,
) -> Result<(), AlterFault>
    requires in_step { IsWatchedInStep all.old }
    ensures in_step { IsWatchedInStep all.new }
    ensures names { all.new.chains.snaps ≡ all.old.chains.snaps }
{
    let Some(answer) = alter(all, change, alloc) else {
        panic!(rt; "{change:?} of what isn't live");
    };
    answer
}

/// Makes changes in turn, and gives up where memory is wanting.
pub fn make(
    rt: &impl Abort,
    alloc: Global,
    all: &mut Alterable<Watcher>,
    changes: &[Change],
) -> Result<(), Fail>
    requires in_step { IsWatchedInStep all.old }
    ensures in_step { IsWatchedInStep all.new }
    ensures names { all.new.chains.snaps ≡ all.old.chains.snaps }
{
    for it in changes {
        if let Err(fault) = change(rt, all, *it, alloc) {
            assert_eq!(rt; fault, AlterFault::Memory, "{it:?}");
            return no_memory();
        }
    }
    Ok(())
}

/// Makes changes, after which these are all lists.
pub fn make_listed(
    rt: &impl Abort,
    alloc: Global,
    all: &mut Alterable<Watcher>,
    changes: &[Change],
    lists: &str,
) -> Result<(), Fail>
    requires in_step { IsWatchedInStep all.old }
    ensures in_step { IsWatchedInStep all.new }
    ensures names { all.new.chains.snaps ≡ all.old.chains.snaps }
{
    make(rt, alloc, all, changes)?;
    has_lists(rt, alloc, all, lists)
}

/// Makes a snapshot, whose halves are the newest seats. The others stay.
pub fn snapshot(
    all: &mut Alterable<Watcher>,
    seats: &mut Vec<Seat>,
    alloc: Global,
) -> Result<SnapKeys, Fail>
    requires in_step { IsWatchedInStep all.old }
    ensures in_step { IsWatchedInStep all.new }
    ensures there { IfOk result (λ name. Contains all.new.chains.snaps name) }
    ensures others { (k : SnapKeys) → Contains all.old.chains.snaps k
        → Contains all.new.chains.snaps k }
{
    let name = all.snapshot(alloc).ok_or(AllocError)?;
    seats.push((ItemSort::Node, name.nodes))?;
    seats.push((ItemSort::Arc, name.arcs))?;
    Ok(name)
}

/// Makes a snapshot beside two others, which may be the same one. Both stay.
pub fn snapshot_beside(
    all: &mut Alterable<Watcher>,
    seats: &mut Vec<Seat>,
    alloc: Global,
    others: (SnapKeys, SnapKeys),
) -> Result<SnapKeys, Fail>
    requires in_step { IsWatchedInStep all.old }
    requires one { Contains all.old.chains.snaps others.0 }
    requires other { Contains all.old.chains.snaps others.1 }
    ensures in_step { IsWatchedInStep all.new }
    ensures there { IfOk result (λ name. Contains all.new.chains.snaps name) }
    ensures one { Contains all.new.chains.snaps others.0 }
    ensures other { Contains all.new.chains.snaps others.1 }
{
    snapshot(all, seats, alloc)
}

/// Alters the digraph, or restores the snapshot.
pub fn perform(
    rt: &impl Abort,
    alloc: Global,
    all: &mut Alterable<Watcher>,
    it: Act,
    name: SnapKeys,
) -> Result<(), AlterFault>
    requires in_step { IsWatchedInStep all.old }
    requires there { Contains all.old.chains.snaps name }
    ensures in_step { IsWatchedInStep all.new }
    ensures names { OnErr result (all.new.chains.snaps ≡ all.old.chains.snaps) }
{
    match it {
        Act::Alter(it) => change(rt, all, it, alloc),
        Act::Restore => all.restore(name, alloc),
    }
}

/// It is refused for this reason, or for want of memory, at which the test gives up. All is as
/// before.
pub fn refuse(
    rt: &impl Abort,
    alloc: Global,
    all: &mut Alterable<Watcher>,
    it: Act,
    name: SnapKeys,
    seats: &[Seat],
    why: AlterFault,
) -> Result<(), Fail>
    requires in_step { IsWatchedInStep all.old }
    requires there { Contains all.old.chains.snaps name }
    ensures in_step { IsWatchedInStep all.new }
    ensures there { Contains all.new.chains.snaps name }
{
    let before = state(alloc, all, seats)?;
    let Err(fault) = perform(rt, alloc, all, it, name) else {
        panic!(rt; "{it:?} isn't refused");
    };
    let now = state(alloc, all, seats)?;
    assert_eq!(rt; now.as_str(), before.as_str(), "{it:?}");
    if fault == AlterFault::Memory && why != fault {
        return no_memory();
    }
    assert_eq!(rt; fault, why, "{it:?}");
    Ok(())
}

/// Does it. Where memory is wanting all is as before, it is done the next time or, where a moody
/// seat refuses that too, the time after, and the test gives up.
pub fn take(
    rt: &impl Abort,
    alloc: Global,
    all: &mut Alterable<Watcher>,
    it: Act,
    name: SnapKeys,
    seats: &[Seat],
) -> Result<(), Fail>
    requires in_step { IsWatchedInStep all.old }
    requires there { Contains all.old.chains.snaps name }
    ensures in_step { IsWatchedInStep all.new }
{
    let before = state(alloc, all, seats)?;
    let Err(fault) = perform(rt, alloc, all, it, name) else {
        return Ok(());
    };
    assert_eq!(rt; fault, AlterFault::Memory, "{it:?}");
    let now = state(alloc, all, seats)?;
    assert_eq!(rt; now.as_str(), before.as_str(), "{it:?}");
    let last = match perform(rt, alloc, all, it, name) {
        Ok(()) => Ok(()),
        Err(_) => perform(rt, alloc, all, it, name),
    };
    assert_eq!(rt; last, Ok(()), "{it:?}");
    no_memory()
}
