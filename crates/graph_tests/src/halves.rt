//! Half a snapshot told of additions, moves, erasures and undone notices, with what it holds after
//! each.

ghost use Rattle.observe_core.specs.Facts.{IsInBounds};

use crate::halved::Halved;
use base_items::Fact;
use observe_core::{After, Observer, Veto};
use snap_shots::{Half, Snapshot};
use std::alloc::{AllocError, Global};
use std::fmt::Write;
use std::process::Abort;
use std::test::Fail;

// A notice; those that end in `Back` are undone. An arc is told by its id and its target, with a
// stamp that is its target too, so that a move back to a target is one back to the same fact.
#[derive(Clone, Copy, Debug)]
enum Notice {
    // the half is made anew when the arc is there alone
    Restart(u32, u32),
    Add(u32, u32),
    AddBack(u32, u32),
    Move(u32, u32),
    MoveBack(u32, u32),
    Erase(u32),
    Clear,
}

// A notice, and what the half holds after it: whether it is valid, the added ids, and the moved
// arcs with their targets at the making.
type Row = (Notice, &'static str);

const MOVES: [Row; 9] = [
    (Notice::Restart(4, 1), "valid + ~"),
    (Notice::MoveBack(4, 2), "valid + ~"),
    (Notice::Move(4, 2), "valid + ~ 4:1"),
    // the first fact is kept
    (Notice::Move(4, 3), "valid + ~ 4:1"),
    // a move that leads back is undone, and leads back again
    (Notice::MoveBack(4, 1), "valid + ~ 4:1"),
    (Notice::Move(4, 1), "valid + ~"),
    (Notice::MoveBack(4, 5), "valid + ~"),
    (Notice::Move(4, 5), "valid + ~ 4:1"),
    // what was there is lost, and with it what is kept of it
    (Notice::Erase(4), "stale + ~"),
];

const ADDITIONS: [Row; 10] = [
    (Notice::Restart(4, 1), "valid + ~"),
    (Notice::AddBack(9, 1), "valid + ~"),
    (Notice::Add(9, 1), "valid + 9 ~"),
    (Notice::Add(3, 1), "valid + 3 9 ~"),
    // no fact of an added arc is kept
    (Notice::Move(9, 2), "valid + 3 9 ~"),
    (Notice::MoveBack(3, 2), "valid + 3 9 ~"),
    (Notice::Erase(3), "valid + 9 ~"),
    (Notice::Add(4_194_303, 1), "valid + 9 4194303 ~"),
    (Notice::Move(4, 2), "valid + 9 4194303 ~ 4:1"),
    (Notice::Clear, "stale + ~"),
];

const ADDED_ALONE: [Row; 4] = [
    (Notice::Add(0, 1), "valid + 0 ~"),
    (Notice::Erase(0), "valid + ~"),
    (Notice::Add(1, 1), "valid + 1 ~"),
    // a clear of added items alone leaves it valid
    (Notice::Clear, "valid + ~"),
];

fn arc(id: u32, to: u32) -> Fact {
    Fact {
        id,
        from: 0,
        to,
        from_at: 0,
        to_at: to as u64,
    }
}

// Tells the half. False where it can't be told, refuses, or leaves.
fn tell(halved: &mut Halved, notice: Notice, alloc: Global) -> bool {
    let taken: Option<Result<(), Veto>> = match notice {
        Notice::Restart(id, to) => halved.restart(alloc, arc(id, to)).map(|()| Ok(())),
        Notice::Add(id, to) => halved.add(arc(id, to)),
        Notice::AddBack(id, to) => halved.add_and_back(arc(id, to)),
        Notice::Move(id, to) => halved.shift(arc(id, to)),
        Notice::MoveBack(id, to) => halved.shift_and_back(arc(id, to)),
        Notice::Erase(id) => return halved.erase(id) == Some(After::Keep),
        Notice::Clear => return halved.clear() == After::Keep,
    };
    taken == Some(Ok(()))
}

fn held(half: &Half, alloc: Global) -> Result<String, AllocError> {
    let mut text = String::new(alloc);
    text.push_str(if half.valid() { "valid +" } else { "stale +" })?;
    let mut after = None;
    for _ in 0..half.added_count() {
        let Some(id) = half.next_added(after) else {
            break;
        };
        write!(text, " {id}")?;
        after = Some(id);
    }
    if half.next_added(after).is_some() {
        text.push_str(" and more")?;
    }
    text.push_str(" ~")?;
    let mut after = None;
    // no row moves more arcs than this
    for _ in 0..4 {
        let Some(fact) = half.next_moved(after) else {
            break;
        };
        write!(text, " {}:{}", fact.id, fact.to)?;
        after = Some(fact.id);
    }
    Ok(text)
}

fn follow(rt: &impl Abort, alloc: Global, rows: &[Row]) -> Result<(), Fail> {
    let mut halved = Halved::new(alloc);
    for (notice, expected) in rows {
        assert!(rt; tell(&mut halved, *notice, alloc), "{notice:?}");
        let text = held(halved.half(), alloc)?;
        assert_eq!(rt; text.as_str(), *expected, "after {notice:?}");
    }
    Ok(())
}

#[test]
fn a_half_holds_what_was_added_and_moved(rt: HostRuntime) -> Result<(), Fail> {
    follow(&rt, rt.alloc(), &MOVES)?;
    follow(&rt, rt.alloc(), &ADDITIONS)?;
    follow(&rt, rt.alloc(), &ADDED_ALONE)?;
    let made = Snapshot::make(rt.alloc());
    assert!(rt; made.nodes.valid() && made.arcs.valid());
    Ok(())
}

// A new half that is told of one addition. None where memory is wanting.
fn with_one_added(alloc: Global, f: Fact) -> Option<Half>
    requires { IsInBounds f }
{
    let mut half = Half::new(alloc);
    match half.add(f) {
        Ok(()) => Some(half),
        Err(_) => None,
    }
}

// A half costs what was added since, however great the ids are.
#[test]
fn many_halves_of_great_ids_end_at_once(rt: HostRuntime) {
    let last = Fact {
        id: 4_194_303,
        from: 0,
        to: 0,
        from_at: 9,
        to_at: 9,
    };
    for _ in 0..100_000u32 {
        let Some(half) = with_one_added(rt.alloc(), last) else {
            panic!(rt; "no memory");
        };
        assert_eq!(rt; half.next_added(None), Some(4_194_303));
    }
}
