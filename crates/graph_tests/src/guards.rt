//! Each kind of guard told of accepted, refused and undone notices, with its numbers after each.

use crate::guarded::Guarded;
use base_items::Fact;
use observe_core::{After, Kind, Veto};
use std::alloc::Global;
use std::process::Abort;
use std::test::Fail;

// A notice; those that end in `Back` are undone where they are accepted. An arc is told by its id
// and its ends.
#[derive(Clone, Copy, Debug)]
enum Notice {
    Add(u32, u32, u32),
    AddBack(u32, u32, u32),
    Shift(u32, u32, u32),
    ShiftBack(u32, u32, u32),
    Erase(u32),
    Clear,
}

// A notice, what is answered, and the guard's numbers after it: how many items, what is left of a
// fuse, and a tally's additions, erasures and moves.
type Row = (Notice, &'static str, [u64; 5]);

const QUOTA_OF_2: [Row; 9] = [
    (Notice::Add(0, 1, 2), "ok", [1, 0, 0, 0, 0]),
    (Notice::Add(3, 1, 2), "ok", [2, 0, 0, 0, 0]),
    (Notice::Add(1, 1, 2), "refused", [2, 0, 0, 0, 0]),
    (Notice::AddBack(1, 1, 2), "refused", [2, 0, 0, 0, 0]),
    (Notice::Shift(3, 2, 2), "ok", [2, 0, 0, 0, 0]),
    (Notice::Erase(0), "keep", [1, 0, 0, 0, 0]),
    (Notice::AddBack(1, 1, 2), "ok", [1, 0, 0, 0, 0]),
    (Notice::Add(1, 1, 2), "ok", [2, 0, 0, 0, 0]),
    (Notice::Clear, "keep", [0, 0, 0, 0, 0]),
];

const LOOPLESS: [Row; 6] = [
    (Notice::Add(0, 1, 1), "refused", [0, 0, 0, 0, 0]),
    (Notice::Add(0, 1, 2), "ok", [1, 0, 0, 0, 0]),
    (Notice::Shift(0, 2, 2), "refused", [1, 0, 0, 0, 0]),
    (Notice::ShiftBack(0, 2, 1), "ok", [1, 0, 0, 0, 0]),
    (Notice::Shift(0, 1, 1), "refused", [1, 0, 0, 0, 0]),
    (Notice::Shift(0, 3, 1), "ok", [1, 0, 0, 0, 0]),
];

const SIMPLE: [Row; 9] = [
    (Notice::Add(0, 1, 2), "ok", [1, 0, 0, 0, 0]),
    (Notice::Add(1, 1, 2), "refused", [1, 0, 0, 0, 0]),
    (Notice::Add(1, 2, 1), "ok", [2, 0, 0, 0, 0]),
    (Notice::Add(2, 1, 3), "ok", [3, 0, 0, 0, 0]),
    (Notice::Shift(1, 1, 2), "refused", [3, 0, 0, 0, 0]),
    (Notice::ShiftBack(0, 5, 5), "ok", [3, 0, 0, 0, 0]),
    (Notice::Shift(1, 1, 2), "refused", [3, 0, 0, 0, 0]),
    (Notice::Erase(0), "keep", [2, 0, 0, 0, 0]),
    (Notice::Shift(1, 1, 2), "ok", [2, 0, 0, 0, 0]),
];

const OUTCAP_OF_1: [Row; 8] = [
    (Notice::Add(0, 1, 2), "ok", [1, 0, 0, 0, 0]),
    (Notice::Add(1, 1, 3), "refused", [1, 0, 0, 0, 0]),
    (Notice::Add(1, 2, 2), "ok", [2, 0, 0, 0, 0]),
    (Notice::Shift(1, 1, 1), "refused", [2, 0, 0, 0, 0]),
    (Notice::ShiftBack(0, 3, 2), "ok", [2, 0, 0, 0, 0]),
    (Notice::Shift(1, 1, 1), "refused", [2, 0, 0, 0, 0]),
    (Notice::Shift(0, 3, 2), "ok", [2, 0, 0, 0, 0]),
    (Notice::Shift(1, 1, 1), "ok", [2, 0, 0, 0, 0]),
];

const FUSE_OF_2: [Row; 9] = [
    (Notice::Add(0, 1, 1), "ok", [1, 2, 0, 0, 0]),
    (Notice::Add(1, 1, 1), "ok", [2, 2, 0, 0, 0]),
    (Notice::Add(2, 1, 1), "ok", [3, 2, 0, 0, 0]),
    (Notice::AddBack(3, 1, 1), "ok", [3, 2, 0, 0, 0]),
    (Notice::Erase(0), "keep", [2, 1, 0, 0, 0]),
    (Notice::AddBack(0, 1, 1), "ok", [2, 1, 0, 0, 0]),
    (Notice::Erase(1), "detach", [1, 0, 0, 0, 0]),
    (Notice::Erase(2), "detach", [0, 0, 0, 0, 0]),
    (Notice::Clear, "detach", [0, 0, 0, 0, 0]),
];

const TALLY: [Row; 7] = [
    (Notice::Add(0, 1, 1), "ok", [1, 0, 1, 0, 0]),
    (Notice::AddBack(1, 1, 1), "ok", [1, 0, 1, 0, 0]),
    (Notice::Add(1, 1, 1), "ok", [2, 0, 2, 0, 0]),
    (Notice::Shift(1, 2, 1), "ok", [2, 0, 2, 0, 1]),
    (Notice::ShiftBack(1, 3, 1), "ok", [2, 0, 2, 0, 1]),
    (Notice::Erase(0), "keep", [1, 0, 2, 1, 1]),
    (Notice::Clear, "keep", [0, 0, 2, 2, 1]),
];

// An arc with these ends, in places that tell it from the same arc elsewhere.
const fn arc(id: u32, from: u32, to: u32, at: u64) -> Fact {
    Fact {
        id,
        from,
        to,
        from_at: at,
        to_at: at,
    }
}

fn accepts(answer: Result<(), Veto>) -> &'static str {
    match answer {
        Ok(()) => "ok",
        Err(Veto::Refused) => "refused",
        Err(Veto::Memory) => "memory",
    }
}

fn stays(answer: After) -> &'static str {
    match answer {
        After::Keep => "keep",
        After::Detach => "detach",
    }
}

// What the guard answers. None where it can't be told.
fn answer(guard: &mut Guarded, notice: Notice, at: u64) -> Option<&'static str> {
    match notice {
        Notice::Add(id, from, to) => Some(accepts(guard.add(arc(id, from, to, at))?)),
        Notice::AddBack(id, from, to) => Some(accepts(guard.add_and_back(arc(id, from, to, at))?)),
        Notice::Shift(id, from, to) => Some(accepts(guard.shift(arc(id, from, to, at))?)),
        Notice::ShiftBack(id, from, to) => {
            Some(accepts(guard.shift_and_back(arc(id, from, to, at))?))
        }
        Notice::Erase(id) => Some(stays(guard.erase(id)?)),
        Notice::Clear => Some(stays(guard.clear()?)),
    }
}

fn follow(rt: &impl Abort, alloc: Global, kind: Kind, k: u32, rows: &[Row]) {
    let Some(mut guard) = Guarded::new(kind, k, alloc) else {
        panic!(rt; "{kind:?} has no parameter {k}");
    };
    for at in 0..rows.len() {
        let (notice, expected, numbers) = rows[at];
        let Some(told) = answer(&mut guard, notice, at as u64) else {
            panic!(rt; "{kind:?} can't be told {notice:?}");
        };
        assert_eq!(rt; told, expected, "{kind:?} at {notice:?}");
        let now = guard.readout();
        let read = [
            now.items as u64,
            now.left as u64,
            now.added,
            now.erased,
            now.moved,
        ];
        assert_eq!(rt; read, numbers, "{kind:?} after {notice:?}");
        assert_eq!(rt; now.k, k, "{kind:?}");
    }
}

#[test]
fn guards_answer_by_their_law(rt: HostRuntime) {
    follow(&rt, rt.alloc(), Kind::Quota, 2, &QUOTA_OF_2);
    follow(&rt, rt.alloc(), Kind::Loopless, 0, &LOOPLESS);
    follow(&rt, rt.alloc(), Kind::Simple, 0, &SIMPLE);
    follow(&rt, rt.alloc(), Kind::OutCap, 1, &OUTCAP_OF_1);
    follow(&rt, rt.alloc(), Kind::Fuse, 2, &FUSE_OF_2);
    follow(&rt, rt.alloc(), Kind::Tally, 0, &TALLY);
    assert!(rt; Guarded::new(Kind::Fuse, 0, rt.alloc()).is_none());
}

// Tells a guard of so many arcs of a dense graph, moves each, and erases each.
fn fill(rt: &impl Abort, alloc: Global, kind: Kind, k: u32, count: u32) {
    let Some(mut guard) = Guarded::new(kind, k, alloc) else {
        panic!(rt; "{kind:?} has no parameter {k}");
    };
    for id in 0..count {
        let told = guard.add(arc(id, id / 320, 1000 + id % 320, 0));
        assert_eq!(rt; told, Some(Ok(())), "{kind:?}");
    }
    for id in 0..count {
        let told = guard.shift(arc(id, id / 320, 2000 + id % 320, 1));
        assert_eq!(rt; told, Some(Ok(())), "{kind:?}");
    }
    for id in 0..count {
        let told = guard.erase(id);
        assert!(rt; told.is_some(), "{kind:?}");
    }
    assert_eq!(rt; guard.readout().items, 0, "{kind:?}");
}

#[test]
fn guards_of_100_000_facts_end_at_once(rt: HostRuntime) {
    fill(&rt, rt.alloc(), Kind::Quota, 100_000, 100_000);
    fill(&rt, rt.alloc(), Kind::Loopless, 0, 100_000);
    fill(&rt, rt.alloc(), Kind::Simple, 0, 100_000);
    fill(&rt, rt.alloc(), Kind::OutCap, 320, 100_000);
    fill(&rt, rt.alloc(), Kind::Fuse, 100_000, 100_000);
    fill(&rt, rt.alloc(), Kind::Tally, 0, 100_000);
}
