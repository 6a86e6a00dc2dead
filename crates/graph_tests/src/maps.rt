//! Each map over one script of notices: what it holds after each, worked out by hand.

ghost use Rattle.std.specs.Prelude.{◌≡◌, true};
ghost use Rattle.observe_core.specs.Fits.{Fits};
ghost use Rattle.fact_table.specs.Table.{facts_of};

use crate::followed::{add, clear, erase, shift};
use crate::kept_up::{name_item, set_bool, set_int, set_text, tie_item, write_true};
use base_items::Fact;
use fact_table::FactTable;
use index_maps::{CrossRef, Degree, Ties, TrueItems};
use observe_core::Observer;
use std::process::Abort;
use std::test::Fail;
use token_text::copy_text;
use value_maps::{BoolMap, IntMap, TextMap};

// An arc is told by its id and its ends.
#[derive(Clone, Copy, Debug)]
enum Notice {
    Add(u32, u32, u32),
    Shift(u32, u32, u32),
    Erase(u32),
    Clear,
}

// The id 0 is used again after its first item went.
const SCRIPT: [Notice; 9] = [
    Notice::Add(2, 0, 1),
    Notice::Add(0, 1, 1),
    Notice::Shift(2, 1, 0),
    Notice::Erase(0),
    Notice::Add(1, 0, 1),
    Notice::Add(0, 2, 1),
    Notice::Erase(2),
    Notice::Clear,
    Notice::Add(0, 0, 0),
];

fn arc(id: u32, from: u32, to: u32) -> Fact {
    Fact {
        id,
        from,
        to,
        from_at: 0,
        to_at: 0,
    }
}

// Tells a notice: whether it was told and accepted.
fn follow<O: Observer>(observer: &mut O, facts: &mut FactTable, notice: Notice) -> bool
    requires { Fits (O.watch observer.old).seen (facts_of facts.old) }
    ensures { Fits (O.watch observer.new).seen (facts_of facts.new) }
{
    match notice {
        Notice::Add(id, from, to) => add(observer, facts, arc(id, from, to)),
        Notice::Shift(id, from, to) => shift(observer, facts, arc(id, from, to)),
        Notice::Erase(id) => erase(observer, facts, id),
        Notice::Clear => clear(observer, facts),
    }
}

#[test]
fn ints(rt: HostRuntime) -> Result<(), Fail> {
    // what is set, the sum, and the least value with its item
    let rows: [(Option<(u32, i64)>, i128, Option<(u32, i64)>); 9] = [
        (Some((2, 7)), 7, Some((2, 7))),
        (Some((0, -3)), 4, Some((0, -3))),
        (None, 4, Some((0, -3))),
        (None, 7, Some((2, 7))),
        (None, 7, Some((1, 0))),
        (None, 7, Some((0, 0))),
        (None, 0, Some((0, 0))),
        (None, 0, None),
        (None, 0, Some((0, 0))),
    ];
    let mut map = IntMap::new(rt.alloc());
    let mut facts = FactTable::new(rt.alloc());
    for at in 0..9usize {
        assert!(rt; follow(&mut map, &mut facts, SCRIPT[at]));
        let (set, total, least) = rows[at];
        if let Some((id, value)) = set {
            assert!(rt; set_int(&mut map, &facts, id, value));
        }
        assert_eq!(rt; map.total(), total, "at {at}");
        assert_eq!(rt; map.least(), least, "at {at}");
    }
    Ok(())
}

#[test]
fn bools_and_true_items(rt: HostRuntime) -> Result<(), Fail> {
    // what is made true, how many are, and the first two
    let rows: [(Option<u32>, u32, [Option<u32>; 2]); 9] = [
        (Some(2), 1, [Some(2), None]),
        (Some(0), 2, [Some(0), Some(2)]),
        (None, 2, [Some(0), Some(2)]),
        (None, 1, [Some(2), None]),
        (None, 1, [Some(2), None]),
        (None, 1, [Some(2), None]),
        (None, 0, [None, None]),
        (None, 0, [None, None]),
        (Some(0), 1, [Some(0), None]),
    ];
    let mut map = BoolMap::new(rt.alloc());
    let mut trues = TrueItems::new(rt.alloc());
    let mut facts = FactTable::new(rt.alloc());
    let mut others = FactTable::new(rt.alloc());
    for at in 0..9usize {
        assert!(rt; follow(&mut map, &mut facts, SCRIPT[at]));
        assert!(rt; follow(&mut trues, &mut others, SCRIPT[at]));
        let (set, count, [first, second]) = rows[at];
        if let Some(id) = set {
            assert!(rt; set_bool(&mut map, &facts, id, true));
            assert!(rt; write_true(&mut trues, &others, id, true));
        }
        assert_eq!(rt; map.count(), count, "at {at}");
        assert_eq!(rt; trues.next(None), first, "at {at}");
        if first.is_some() {
            assert_eq!(rt; trues.next(first), second, "at {at}");
        }
    }
    Ok(())
}

// True items far apart, in words of their own on each level.
#[test]
fn true_items_far_apart(rt: HostRuntime) -> Result<(), Fail> {
    let ids: [u32; 6] = [0, 63, 64, 4_096, 300_000, 4_194_303];
    let mut trues = TrueItems::new(rt.alloc());
    let mut facts = FactTable::new(rt.alloc());
    for id in ids {
        assert!(rt; follow(&mut trues, &mut facts, Notice::Add(id, 0, 0)));
        assert!(rt; write_true(&mut trues, &facts, id, true));
    }
    let mut last: Option<u32> = None;
    for id in ids {
        last = trues.next(last);
        assert_eq!(rt; last, Some(id));
    }
    assert_eq!(rt; trues.next(last), None);
    Ok(())
}

#[test]
fn texts(rt: HostRuntime) -> Result<(), Fail> {
    // the item whose text is set, and the text that it had
    let rows: [(u32, Option<&[u8]>); 9] = [
        (2, Some(b"")),
        (0, Some(b"")),
        (2, Some(b"after 0")),
        (0, None),
        (2, Some(b"after 2")),
        (0, Some(b"")),
        (2, None),
        (0, None),
        (0, Some(b"")),
    ];
    let names: [&[u8]; 9] = [
        b"after 0", b"after 1", b"after 2", b"after 3", b"after 4", b"after 5", b"after 6",
        b"after 7", b"after 8",
    ];
    let mut map = TextMap::new(rt.alloc());
    let mut facts = FactTable::new(rt.alloc());
    for at in 0..9usize {
        assert!(rt; follow(&mut map, &mut facts, SCRIPT[at]));
        let (id, before) = rows[at];
        let text = copy_text(rt.alloc(), names[at])?;
        match set_text(&mut map, &facts, id, text) {
            Some(old) => assert_eq!(rt; Some(old.as_bytes()), before, "at {at}"),
            None => assert!(rt; before.is_none(), "at {at}"),
        }
    }
    Ok(())
}

#[test]
fn labels(rt: HostRuntime) -> Result<(), Fail> {
    // the item that is called `x` or `y`, and where these are found
    let rows: [(Option<(u32, &[u8])>, [Option<u32>; 2]); 9] = [
        (Some((2, b"x")), [Some(2), None]),
        (Some((0, b"y")), [Some(2), Some(0)]),
        (None, [Some(2), Some(0)]),
        (None, [Some(2), None]),
        (Some((1, b"y")), [Some(2), Some(1)]),
        (None, [Some(2), Some(1)]),
        (Some((0, b"x")), [Some(0), Some(1)]),
        (None, [None, None]),
        (Some((0, b"y")), [None, Some(0)]),
    ];
    let mut refs = CrossRef::new(rt.alloc());
    let mut facts = FactTable::new(rt.alloc());
    for at in 0..9usize {
        assert!(rt; follow(&mut refs, &mut facts, SCRIPT[at]));
        let (named, [x, y]) = rows[at];
        if let Some((id, label)) = named {
            assert!(rt; name_item(&mut refs, &facts, id, copy_text(rt.alloc(), label)?));
        }
        assert_eq!(rt; refs.find(&copy_text(rt.alloc(), b"x")?), x, "at {at}");
        assert_eq!(rt; refs.find(&copy_text(rt.alloc(), b"y")?), y, "at {at}");
    }
    Ok(())
}

#[test]
fn degrees(rt: HostRuntime) -> Result<(), Fail> {
    // how many arcs go from the nodes 0, 1 and 2, and to them
    let rows: [([u32; 3], [u32; 3]); 9] = [
        ([1, 0, 0], [0, 1, 0]),
        ([1, 1, 0], [0, 2, 0]),
        ([0, 2, 0], [1, 1, 0]),
        ([0, 1, 0], [1, 0, 0]),
        ([1, 1, 0], [1, 1, 0]),
        ([1, 1, 1], [1, 2, 0]),
        ([1, 0, 1], [0, 2, 0]),
        ([0, 0, 0], [0, 0, 0]),
        ([1, 0, 0], [1, 0, 0]),
    ];
    let mut from = Degree::new(true, rt.alloc());
    let mut to = Degree::new(false, rt.alloc());
    let mut facts = FactTable::new(rt.alloc());
    let mut others = FactTable::new(rt.alloc());
    for at in 0..9usize {
        assert!(rt; follow(&mut from, &mut facts, SCRIPT[at]));
        assert!(rt; follow(&mut to, &mut others, SCRIPT[at]));
        let (out, into) = rows[at];
        assert_eq!(rt; [from.get(0), from.get(1), from.get(2)], out, "at {at}");
        assert_eq!(rt; [to.get(0), to.get(1), to.get(2)], into, "at {at}");
    }
    Ok(())
}

#[test]
fn ties(rt: HostRuntime) -> Result<(), Fail> {
    // a tie that is made, and the items of the ties 5 and 3
    let rows: [(Option<(u32, u32)>, [Option<u32>; 2]); 9] = [
        (Some((5, 2)), [Some(2), None]),
        (Some((3, 0)), [Some(2), Some(0)]),
        (None, [Some(2), Some(0)]),
        (None, [Some(2), None]),
        (None, [Some(2), None]),
        (Some((3, 2)), [Some(2), Some(2)]),
        (None, [None, None]),
        (None, [None, None]),
        (Some((5, 0)), [Some(0), None]),
    ];
    let mut ties = Ties::new(rt.alloc());
    let mut facts = FactTable::new(rt.alloc());
    for at in 0..9usize {
        assert!(rt; follow(&mut ties, &mut facts, SCRIPT[at]));
        let (made, [five, three]) = rows[at];
        if let Some((tie, id)) = made {
            assert!(rt; tie_item(&mut ties, &facts, tie, id));
        }
        assert_eq!(rt; ties.item(5), five, "at {at}");
        assert_eq!(rt; ties.item(3), three, "at {at}");
    }
    ties.drop_tie(5);
    assert_eq!(rt; ties.item(5), None);
    Ok(())
}
