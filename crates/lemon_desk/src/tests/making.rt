//! Graphs from a seed.

use super::{PLAIN, Row, check_rows, check_shapeless};
use plain_machine::Status;
use std::test::Fail;

const HEAD: &[u8] = b"@nodes\nlabel\t\n0\t\n1\t\n2\t\n@arcs\n\t\tlabel\tcap\tcost\t\n";

const MADE: [Row<'static>; 4] = [
    Row {
        name: "three nodes and two arcs",
        words: &[b"make", b"1", b"3", b"2"],
        report: b"@nodes\nlabel\t\n0\t\n1\t\n2\t\n@arcs\n\t\tlabel\tcap\tcost\t\n\
            1\t0\t0\t886\t637\t\n1\t2\t1\t161\t505\t\n",
        ..PLAIN
    },
    Row {
        name: "leading zeros, and no arcs",
        words: &[b"make", b"00000000000000000000001", b"03", b"000"],
        report: HEAD,
        ..PLAIN
    },
    Row {
        name: "the largest seed",
        words: &[b"make", b"2147483646", b"2", b"1"],
        report: b"@nodes\nlabel\t\n0\t\n1\t\n@arcs\n\t\tlabel\tcap\tcost\t\n\
            0\t1\t0\t761\t10\t\n",
        ..PLAIN
    },
    Row {
        name: "a write fails",
        words: &[b"make", b"1", b"3", b"0"],
        bad_put: 1,
        status: Status::WriteFault,
        ..PLAIN
    },
];

// Words of no shape.
const SHAPELESS: [&[&[u8]]; 12] = [
    &[b"make", b"0", b"3", b"2"],
    &[b"make", b"0", b"1", b"0"],
    &[b"make", b"2147483647", b"1", b"0"],
    &[b"make", b"1", b"0", b"0"],
    &[b"make", b"1", b"100001", b"0"],
    &[b"make", b"1", b"1", b"400001"],
    &[b"make", b"1", b"3"],
    &[b"make", b"1"],
    &[b"make", b"+1", b"1", b"0"],
    &[b"make", b"1", b"1", b"-0"],
    &[b"make", b"1", b"1", b""],
    &[b"make", b"1", b"1", b"0", b"0"],
];

#[test]
fn makes_graphs(rt: HostRuntime) -> Result<(), Fail> {
    check_rows(&rt, rt.alloc(), &MADE)?;
    check_shapeless(&rt, rt.alloc(), &SHAPELESS)?;
    Ok(())
}
