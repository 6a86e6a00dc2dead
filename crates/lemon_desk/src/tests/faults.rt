//! Words of no shape, files that are missing, and calls of the outside that fail.

use super::{JOINED, JOINED_SAVED, PLAIN, Row, TWO, TWO_LISTED, check_rows};
use plain_machine::Status;
use std::test::Fail;

const USAGE_LINE: &[u8] = b"usage: lgdesk run GRAPH SCRIPT | make SEED N M | drill SEED K\n";

const MISSING: [Row<'static>; 5] = [
    Row {
        name: "no graph file, with a script",
        files: &[(b"s", b"nodes base\n")],
        status: Status::ReadFault,
        ..PLAIN
    },
    Row {
        name: "no file",
        status: Status::ReadFault,
        ..PLAIN
    },
    Row {
        name: "no script",
        files: &[(b"g", TWO)],
        status: Status::ReadFault,
        ..PLAIN
    },
    Row {
        name: "too few words",
        words: &[b"run", b"g"],
        report: USAGE_LINE,
        status: Status::Usage,
        ..PLAIN
    },
    Row {
        name: "a name that begins with a dash",
        words: &[b"run", b"-g", b"s"],
        files: &[(b"-g", TWO), (b"s", b"")],
        report: USAGE_LINE,
        status: Status::Usage,
        ..PLAIN
    },
];

// A graph file is read by two reads, and a script by two more.
const FAILED_READS: [Row<'static>; 4] = [
    Row {
        name: "the first read of the graph fails",
        files: &[(b"g", JOINED), (b"s", b"nodes base\n")],
        bad_read: 1,
        status: Status::ReadFault,
        ..PLAIN
    },
    Row {
        name: "the last read of the graph fails",
        files: &[(b"g", JOINED), (b"s", b"nodes base\n")],
        bad_read: 2,
        status: Status::ReadFault,
        ..PLAIN
    },
    Row {
        name: "the first read of the script fails",
        files: &[(b"g", JOINED), (b"s", b"save one\n"), (b"one", b"old")],
        bad_read: 3,
        saved: &[(b"one", b"old")],
        status: Status::ReadFault,
        ..PLAIN
    },
    Row {
        name: "there is no fifth read",
        files: &[(b"g", TWO), (b"s", b"nodes base\n")],
        bad_read: 5,
        report: TWO_LISTED,
        ..PLAIN
    },
];

const FAILED_WRITES: [Row<'static>; 8] = [
    Row {
        name: "the text that refuses a graph fails to go out",
        files: &[(b"g", b""), (b"s", b"")],
        bad_put: 1,
        status: Status::WriteFault,
        ..PLAIN
    },
    Row {
        name: "the listing of the arcs fails to go out",
        files: &[(b"g", JOINED), (b"s", b"nodes base\narcs base\n")],
        bad_put: 2,
        report: TWO_LISTED,
        status: Status::WriteFault,
        ..PLAIN
    },
    Row {
        name: "the second call of the sink fails",
        files: &[(b"g", TWO), (b"s", b"nodes base\nnodes base\n")],
        bad_put: 2,
        report: TWO_LISTED,
        status: Status::WriteFault,
        ..PLAIN
    },
    Row {
        name: "the second store fails",
        files: &[(b"g", JOINED), (b"s", b"save one\nsave two\n")],
        bad_store: 2,
        report: b"saved 42\n",
        saved: &[(b"one", JOINED_SAVED)],
        status: Status::WriteFault,
        ..PLAIN
    },
    Row {
        name: "the second store fails, and the file of the first one stands",
        files: &[
            (b"g", JOINED),
            (b"s", b"save one\naddnode c\nsave one\nnodes base\n"),
        ],
        bad_store: 2,
        report: b"saved 42\n",
        saved: &[(b"one", JOINED_SAVED)],
        status: Status::WriteFault,
        ..PLAIN
    },
    Row {
        name: "the first store fails, and the older file stands",
        files: &[
            (b"g", TWO),
            (b"s", b"nodes base\nsave one\n"),
            (b"one", b"old"),
        ],
        bad_store: 1,
        report: TWO_LISTED,
        saved: &[(b"one", b"old")],
        status: Status::WriteFault,
        ..PLAIN
    },
    Row {
        name: "the answer to a save fails to go out, and the file stands whole",
        files: &[
            (b"g", JOINED),
            (b"s", b"nodes base\nsave one\nsave two\n"),
            (b"one", b"old"),
            (b"two", b"old"),
        ],
        bad_put: 2,
        report: TWO_LISTED,
        saved: &[(b"one", JOINED_SAVED), (b"two", b"old")],
        status: Status::WriteFault,
        ..PLAIN
    },
    Row {
        name: "a graph that is none is followed by no save",
        files: &[
            (b"g", b"@nodes\nlabel\na\na\n@arcs\n-\n"),
            (b"s", b"save one\n"),
            (b"one", b"old"),
        ],
        report: b"! graph 4 TwiceLabel\n",
        saved: &[(b"one", b"old")],
        status: Status::BadGraph,
        ..PLAIN
    },
];

#[test]
fn ends_before_the_first_line(rt: HostRuntime) -> Result<(), Fail> {
    check_rows(&rt, rt.alloc(), &MISSING)?;
    Ok(check_rows(&rt, rt.alloc(), &FAILED_READS)?)
}

#[test]
fn ends_at_the_first_write_that_fails(rt: HostRuntime) -> Result<(), Fail> {
    Ok(check_rows(&rt, rt.alloc(), &FAILED_WRITES)?)
}
