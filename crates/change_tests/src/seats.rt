//! Seats of a digraph's chains, and what is to be read of each.

ghost use Rattle.std.specs.Prelude.{◌≡◌, IsErr};
ghost use Rattle.observe_core.specs.Untold.{TracksNothing};
ghost use Rattle.alter_graph.specs.Attaching.{HasNoCounts};
ghost use Rattle.change_tests.specs.Watching.{watched, IsWatchedInStep};

use crate::watcher::Watcher;
use alter_graph::Alterable;
use base_items::ItemSort;
use digraph_text::listed;
use guard_kinds::Guard;
use notify_chain::SeatKey;
use observe_core::{Kind, Observer, Veto};
use snap_shots::Half;
use std::alloc::{AllocError, Global};
use std::fmt::Write;
use std::process::Abort;
use std::test::Fail;

/// A seat of the nodes' chain or of the arcs'.
pub type Seat = (ItemSort, SeatKey);

/// The answer of a test that finds no memory.
pub fn no_memory() -> Result<(), Fail>
    ensures { IsErr result }
{
    let answer: Result<(), AllocError> = Err(AllocError);
    Ok(answer?)
}

// The ids added since, each behind a blank.
fn push_added(text: &mut String, half: &Half) -> Result<(), AllocError> {
    let mut after = None;
    for _ in 0..half.added_count() {
        let Some(id) = half.next_added(after) else {
            break;
        };
        write!(text, " {id}")?;
        after = Some(id);
    }
    Ok(())
}

// The arcs moved since with their ends and stamps at the making. No test moves more than eight.
fn push_moved(text: &mut String, half: &Half) -> Result<(), AllocError> {
    let mut after = None;
    for _ in 0..9u32 {
        let Some(f) = half.next_moved(after) else {
            break;
        };
        write!(text, " {}:{}>{}", f.id, f.from, f.to)?;
        write!(text, "@{},{}", f.from_at, f.to_at)?;
        after = Some(f.id);
    }
    Ok(())
}

fn push_half(text: &mut String, half: &Half) -> Result<(), AllocError> {
    text.push_str(if half.valid() { "valid +" } else { "stale +" })?;
    push_added(text, half)?;
    text.push_str(" ~")?;
    push_moved(text, half)
}

// A tally's three counts, or what is left of a fuse, and how many items there are.
fn push_guard(text: &mut String, guard: &Guard) -> Result<(), AllocError> {
    let now = guard.readout();
    match guard.kind() {
        Kind::Tally => write!(text, "{} {} {}", now.added, now.erased, now.moved)?,
        _ => write!(text, "{} left", now.left)?,
    }
    write!(text, " of {}", now.items)
}

fn push_seat(text: &mut String, watcher: &Watcher) -> Result<(), AllocError> {
    match watcher {
        Watcher::Moody(moody) => write!(text, "{} {}", moody.known, moody.lost),
        Watcher::Guard(guard) => push_guard(text, guard),
        Watcher::Half(half) => push_half(text, half),
    }
}

// What each seat tells, as `; 0 3 2 of 3` for a tally, `; 1 left of 3` for a fuse and
// `; valid + 7 ~` for a half; `; gone` where a seat has left.
fn push_seats(
    text: &mut String,
    all: &Alterable<Watcher>,
    seats: &[Seat],
) -> Result<(), AllocError> {
    for (sort, key) in seats {
        text.push_str("; ")?;
        match all.seat(*sort, *key) {
            Some(watcher) => push_seat(text, watcher)?,
            None => text.push_str("gone")?,
        }
    }
    Ok(())
}

/// The seats tell this.
pub fn told(
    rt: &impl Abort,
    alloc: Global,
    all: &Alterable<Watcher>,
    seats: &[Seat],
    expected: &str,
) -> Result<(), Fail> {
    let mut text = String::new(alloc);
    push_seats(&mut text, all, seats)?;
    assert_eq!(rt; text.as_str(), expected);
    Ok(())
}

/// These are all lists.
pub fn has_lists(
    rt: &impl Abort,
    alloc: Global,
    all: &Alterable<Watcher>,
    lists: &str,
) -> Result<(), Fail> {
    let text = listed(alloc, all.graph())?;
    assert_eq!(rt; text.as_str(), lists);
    Ok(())
}

/// All lists, and what each seat tells.
pub fn state(
    alloc: Global,
    all: &Alterable<Watcher>,
    seats: &[Seat],
) -> Result<String, AllocError> {
    let mut text = listed(alloc, all.graph())?;
    push_seats(&mut text, all, seats)?;
    Ok(text)
}

/// Attaches an observer, which finds no memory once or never. It is then handed back, all is as
/// before, and the next time it is taken.
pub fn attach(
    rt: &impl Abort,
    alloc: Global,
    all: &mut Alterable<Watcher>,
    sort: ItemSort,
    watcher: Watcher,
    refuses: bool,
    seats: &mut Vec<Seat>,
) -> Result<(), Fail>
    requires in_step { IsWatchedInStep all.old }
    requires empty { TracksNothing (watched watcher).seen }
    requires counts { HasNoCounts (watched watcher).seen }
    ensures in_step { IsWatchedInStep all.new }
    ensures names { all.new.chains.snaps ≡ all.old.chains.snaps }
{
    let before = state(alloc, all, seats.as_slice())?;
    match all.attach(sort, watcher, alloc) {
        Ok(key) => {
            assert!(rt; !refuses, "a seat is taken");
            seats.push((sort, key))?;
            Ok(())
        }
        Err((back, veto)) => {
            assert_eq!(rt; veto, Veto::Memory);
            let now = state(alloc, all, seats.as_slice())?;
            assert_eq!(rt; now.as_str(), before.as_str());
            attach_again(rt, alloc, all, sort, back, seats)?;
            if refuses { Ok(()) } else { no_memory() }
        }
    }
}

// One that was handed back knows nothing.
fn attach_again(
    rt: &impl Abort,
    alloc: Global,
    all: &mut Alterable<Watcher>,
    sort: ItemSort,
    back: Watcher,
    seats: &mut Vec<Seat>,
) -> Result<(), Fail>
    requires in_step { IsWatchedInStep all.old }
    requires empty { TracksNothing (watched back).seen }
    requires counts { HasNoCounts (watched back).seen }
    ensures in_step { IsWatchedInStep all.new }
    ensures names { all.new.chains.snaps ≡ all.old.chains.snaps }
{
    if let Watcher::Moody(moody) = &back {
        assert_eq!(rt; (moody.known, moody.lost), (0, 0));
    }
    match all.attach(sort, back, alloc) {
        Ok(key) => {
            seats.push((sort, key))?;
            Ok(())
        }
        Err(_) => no_memory(),
    }
}
