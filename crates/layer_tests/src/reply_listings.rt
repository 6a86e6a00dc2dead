//! The texts of listings, of single values and of saves.

use crate::reply_lines::{arcs, guards, is_text, names, nodes, snaps, word};
use base_items::List;
use report_text::Reply;
use std::test::Fail;

const NODES: [&[u8]; 3] = [
    b"nodes 0\n",
    b"n 4294967295 \"\"\nnodes 1\n",
    b"n 4294967295 \"\"\nn 0 \"#x\"\nnodes 2\n",
];

const ITEMS: [&[u8]; 3] = [
    b"items 0\n",
    b"i 4294967295 \"\"\nitems 1\n",
    b"i 4294967295 \"\"\ni 0 \"#x\"\nitems 2\n",
];

const ARCS: [&[u8]; 3] = [
    b"arcs 0\n",
    b"a 4294967295 \"x y\" a \"\"\narcs 1\n",
    b"a 4294967295 \"x y\" a \"\"\na 0 k/+ b a/o\narcs 2\n",
];

const OUT: [&[u8]; 3] = [
    b"out 0\n",
    b"a 4294967295 \"x y\" a \"\"\nout 1\n",
    b"a 4294967295 \"x y\" a \"\"\na 0 k/+ b a/o\nout 2\n",
];

const IN: [&[u8]; 3] = [
    b"in 0\n",
    b"a 4294967295 \"x y\" a \"\"\nin 1\n",
    b"a 4294967295 \"x y\" a \"\"\na 0 k/+ b a/o\nin 2\n",
];

const SHORT: [&[u8]; 4] = [
    b"unassigned 0\n",
    b"h \"\"\nunassigned 1\n",
    b"h \"\"\nh x/i\nunassigned 2\n",
    b"h \"\"\nh x/i\nh \"a b\"\nunassigned 3\n",
];

#[test]
fn lists_items(rt: HostRuntime) -> Result<(), Fail> {
    let alloc = rt.alloc();
    for count in 0..3 {
        assert!(rt;
            is_text(alloc, Reply::Nodes(nodes(alloc, count)?), NODES[count]),
            "at {count}"
        );
        assert!(rt;
            is_text(alloc, Reply::Items(nodes(alloc, count)?), ITEMS[count]),
            "at {count}"
        );
    }
    Ok(())
}

#[test]
fn lists_arcs(rt: HostRuntime) -> Result<(), Fail> {
    let alloc = rt.alloc();
    for count in 0..3 {
        assert!(rt;
            is_text(alloc, Reply::Arcs(arcs(alloc, count)?), ARCS[count]),
            "at {count}"
        );
        assert!(rt;
            is_text(alloc, Reply::Out(arcs(alloc, count)?), OUT[count]),
            "at {count}"
        );
        assert!(rt;
            is_text(alloc, Reply::In(arcs(alloc, count)?), IN[count]),
            "at {count}"
        );
    }
    Ok(())
}

#[test]
fn lists_names(rt: HostRuntime) -> Result<(), Fail> {
    let alloc = rt.alloc();
    for count in 0..4 {
        assert!(rt;
            is_text(alloc, Reply::Short(names(alloc, count)?), SHORT[count]),
            "at {count}"
        );
    }
    Ok(())
}

const GUARDS: [(usize, &[u8]); 3] = [
    (0, b"guards 0\n"),
    (1, b"g q node quota 4194304 0\nguards 1\n"),
    (
        6,
        b"g q node quota 4194304 0\ng \"l 1\" arc loopless 4294967295\ng s arc simple 0\n\
          g o arc outcap 0 4294967295\ng f node fuse 1\ng t arc tally 18446744073709551615 0 1\nguards 6\n",
    ),
];

#[test]
fn lists_guards(rt: HostRuntime) -> Result<(), Fail> {
    let alloc = rt.alloc();
    for (count, wanted) in GUARDS {
        assert!(rt;
            is_text(alloc, Reply::Guards(guards(alloc, count)?), wanted),
            "at {count}"
        );
    }
    Ok(())
}

const SNAPS: [&[u8]; 3] = [
    b"snaps 0\n",
    b"k s valid 0 4294967295\nsnaps 1\n",
    b"k s valid 0 4294967295\nk \"\" stale\nsnaps 2\n",
];

#[test]
fn lists_snapshots(rt: HostRuntime) -> Result<(), Fail> {
    let alloc = rt.alloc();
    for count in 0..3 {
        assert!(rt;
            is_text(alloc, Reply::Snaps(snaps(alloc, count)?), SNAPS[count]),
            "at {count}"
        );
    }
    Ok(())
}

const TOTALS: [(i128, &[u8]); 4] = [
    (
        i128::MAX,
        b"total 170141183460469231731687303715884105727\n",
    ),
    (
        i128::MIN,
        b"total -170141183460469231731687303715884105728\n",
    ),
    (0, b"total 0\n"),
    (-1, b"total -1\n"),
];

const COUNTS: [(u32, &[u8]); 2] = [(0, b"count 0\n"), (u32::MAX, b"count 4294967295\n")];

const LEAST: [(i64, &[u8], &[u8]); 2] = [
    (i64::MIN, b"x", b"least -9223372036854775808 x\n"),
    (i64::MAX, b"", b"least 9223372036854775807 \"\"\n"),
];

const VALUES: [(&[u8], &[u8]); 3] = [
    (b"", b"value \"\"\n"),
    (b"-9223372036854775808", b"value -9223372036854775808\n"),
    (b"a\tb", b"value \"a\\tb\"\n"),
];

#[test]
fn answers_numbers(rt: HostRuntime) {
    for (sum, wanted) in TOTALS {
        assert!(rt;
            is_text(rt.alloc(), Reply::Total(sum), wanted),
            "at {wanted:?}"
        );
    }
    for (number, wanted) in COUNTS {
        assert!(rt;
            is_text(rt.alloc(), Reply::Count(number), wanted),
            "at {wanted:?}"
        );
    }
    assert!(rt; is_text(rt.alloc(), Reply::Least(None), b"least -\n"));
    assert!(rt; is_text(rt.alloc(), Reply::Quiet, b""));
}

#[test]
fn answers_least_values(rt: HostRuntime) -> Result<(), Fail> {
    for (value, name, wanted) in LEAST {
        let name = word(rt.alloc(), name)?;
        assert!(rt;
            is_text(rt.alloc(), Reply::Least(Some((value, name))), wanted),
            "at {wanted:?}"
        );
    }
    Ok(())
}

#[test]
fn answers_values(rt: HostRuntime) -> Result<(), Fail> {
    for (value, wanted) in VALUES {
        let value = word(rt.alloc(), value)?;
        assert!(rt;
            is_text(rt.alloc(), Reply::Value(value), wanted),
            "at {wanted:?}"
        );
    }
    Ok(())
}

// A file's name, its bytes, and the text.
const SAVES: [(&[u8], &[u8], &[u8]); 2] = [
    (b"out.lgf", b"@nodes\nl\t\n", b"saved 10\n"),
    (b"", b"", b"saved 0\n"),
];

#[test]
fn answers_saves(rt: HostRuntime) -> Result<(), Fail> {
    for (name, bytes, wanted) in SAVES {
        let name = word(rt.alloc(), name)?;
        let file = List::from_vec(Vec::from_slice(rt.alloc(), bytes)?);
        assert!(rt;
            is_text(rt.alloc(), Reply::Save(name, file), wanted),
            "at {wanted:?}"
        );
    }
    Ok(())
}
