//! The texts of refusals.

use base_items::ItemSort;
use report_text::{Fault, fault_bytes};
use std::alloc::Global;
use std::test::Fail;
use token_text::{Text, copy_text};

// Whether this is the text that refuses the line.
fn is_text(alloc: Global, line: u64, fault: Fault, wanted: &[u8]) -> bool {
    let text = fault_bytes(alloc, line, &fault);
    drop(fault);
    match text {
        Ok(bytes) => bytes.as_slice() == wanted,
        Err(_) => false,
    }
}

// The faults that keep one name, each with the name `b c`, in the order of `fault_of`.
const NAMED: [&[u8]; 12] = [
    b"! 7 2 Unknown \"b c\"\n",
    b"! 7 3 Taken \"b c\"\n",
    b"! 7 4 Vetoed \"b c\"\n",
    b"! 7 5 Stale \"b c\"\n",
    b"! 7 7 WrongType \"b c\"\n",
    b"! 7 9 SameNode \"b c\"\n",
    b"! 7 10 Negative \"b c\"\n",
    b"! 7 11 Crossed \"b c\"\n",
    b"! 7 12 NotBipartite \"b c\"\n",
    b"! 7 15 NoGuard \"b c\"\n",
    b"! 7 16 InUse \"b c\"\n",
    b"! 7 17 NoErase \"b c\"\n",
];

// The fault with this place in the table.
fn fault_of(place: usize, name: Text) -> Fault {
    match place {
        0 => Fault::Unknown(name),
        1 => Fault::Taken(name),
        2 => Fault::Vetoed(name),
        3 => Fault::Stale(name),
        4 => Fault::WrongType(name),
        5 => Fault::SameNode(name),
        6 => Fault::Negative(name),
        7 => Fault::Crossed(name),
        8 => Fault::NotBipartite(name),
        9 => Fault::NoGuard(name),
        10 => Fault::InUse(name),
        _ => Fault::NoErase(name),
    }
}

#[test]
fn refuses_names(rt: HostRuntime) -> Result<(), Fail> {
    for place in 0..12 {
        let name = copy_text(rt.alloc(), b"b c")?;
        assert!(rt;
            is_text(rt.alloc(), 7, fault_of(place, name), NAMED[place]),
            "at {place}"
        );
    }
    Ok(())
}

// The least and the greatest value out of range, and of all: the item, the value and the text.
const OUT_OF_RANGE: [(&[u8], i128, &[u8]); 4] = [
    (b"a", 68_719_476_737, b"! 1 8 OutOfRange a 68719476737\n"),
    (
        b"",
        -68_719_476_737,
        b"! 1 8 OutOfRange \"\" -68719476737\n",
    ),
    (
        b"a",
        i128::MAX,
        b"! 1 8 OutOfRange a 170141183460469231731687303715884105727\n",
    ),
    (
        b"-",
        i128::MIN,
        b"! 1 8 OutOfRange - -170141183460469231731687303715884105728\n",
    ),
];

#[test]
fn refuses_values(rt: HostRuntime) -> Result<(), Fail> {
    for (item, value, wanted) in OUT_OF_RANGE {
        let name = copy_text(rt.alloc(), item)?;
        assert!(rt;
            is_text(rt.alloc(), 1, Fault::OutOfRange(name, value), wanted),
            "at {wanted:?}"
        );
    }
    let item = copy_text(rt.alloc(), b"a")?;
    let token = copy_text(rt.alloc(), b"9223372036854775808")?;
    let wanted = b"! 1 6 BadValue a 9223372036854775808\n";
    assert!(rt; is_text(rt.alloc(), 1, Fault::BadValue(item, token), wanted));
    Ok(())
}

const FULL: [(ItemSort, u32, &[u8]); 3] = [
    (ItemSort::Node, 1_048_576, b"! 1 13 Full nodes 1048576\n"),
    (ItemSort::Arc, 4_194_304, b"! 1 13 Full arcs 4194304\n"),
    (ItemSort::Arc, u32::MAX, b"! 1 13 Full arcs 4294967295\n"),
];

const TOO_DEEP: [(u32, &[u8]); 2] = [(8, b"! 1 14 TooDeep 8\n"), (0, b"! 1 14 TooDeep 0\n")];

#[test]
fn refuses_limits(rt: HostRuntime) {
    for (sort, limit, wanted) in FULL {
        assert!(rt;
            is_text(rt.alloc(), 1, Fault::Full(sort, limit), wanted),
            "at {wanted:?}"
        );
    }
    for (limit, wanted) in TOO_DEEP {
        assert!(rt;
            is_text(rt.alloc(), 1, Fault::TooDeep(limit), wanted),
            "at {wanted:?}"
        );
    }
}

// A line, a column and the text.
const BAD: [(u64, usize, &[u8]); 2] = [
    (1, 9, b"! 1 1 BadLine 9\n"),
    (
        u64::MAX,
        usize::MAX,
        b"! 18446744073709551615 1 BadLine 18446744073709551615\n",
    ),
];

#[test]
fn refuses_lines(rt: HostRuntime) {
    for (line, column, wanted) in BAD {
        assert!(rt;
            is_text(rt.alloc(), line, Fault::BadLine(column), wanted),
            "at {wanted:?}"
        );
    }
}
