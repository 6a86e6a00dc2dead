//! Graph files and listings of them.

use super::{CHAIN, EMPTY, JOINED, PLAIN, Row, TWO, TWO_LISTED, check_rows};
use plain_machine::Status;
use std::test::Fail;

// Only the first nodes and the first arcs count, and no row of a section that isn't read.
const BY_HAND: &[u8] = b"# made by hand\n@nodes cities\nlabel\na\n@edges\nlabel\n\
    a a \"x y\"\n@foo\n\"open\n@nodes\nrubbish\n";

const GRAPHS: [Row<'static>; 9] = [
    Row {
        name: "an empty graph and an empty script",
        files: &[(b"g", EMPTY), (b"s", b"")],
        ..PLAIN
    },
    Row {
        name: "listings of an empty graph",
        files: &[(b"g", EMPTY), (b"s", b"nodes base\narcs base\n")],
        report: b"nodes 0\narcs 0\n",
        ..PLAIN
    },
    Row {
        name: "sections without a row",
        files: &[
            (b"g", b"@nodes\n@arcs"),
            (
                b"s",
                b"addnode \"\"\naddarc \"\" \"\" \"\"\narcs base\nnodes base\n",
            ),
        ],
        report: b"a 0 \"\" \"\" \"\"\narcs 1\nn 0 \"\"\nnodes 1\n",
        ..PLAIN
    },
    Row {
        name: "two nodes, the newest first",
        files: &[(b"g", TWO), (b"s", b"nodes base\n")],
        report: TWO_LISTED,
        ..PLAIN
    },
    Row {
        name: "a node and an arc more",
        files: &[
            (b"g", JOINED),
            (b"s", b"addnode c\naddarc 1 b c\nnodes base\narcs base\n"),
        ],
        report: b"n 2 c\nn 1 b\nn 0 a\nnodes 3\na 1 1 b c\na 0 0 a b\narcs 2\n",
        ..PLAIN
    },
    Row {
        name: "the arcs from a node, the newest first",
        files: &[(b"g", CHAIN), (b"s", b"addarc c u w\narcs base\n")],
        report: b"a 1 b v w\na 2 c u w\na 0 a u v\narcs 3\n",
        ..PLAIN
    },
    Row {
        name: "arcs without a column of labels have their ids as labels",
        files: &[
            (b"g", b"@nodes\nlabel\na\nb\n@arcs\ncap\na b x\nb a y\n"),
            (b"s", b"addarc 1 a b\naddarc 2 b b\narcs base\n"),
        ],
        report: b"! 1 3 Taken 1\na 2 2 b b\na 1 1 b a\na 0 0 a b\narcs 3\n",
        status: Status::SomeRefused,
        ..PLAIN
    },
    Row {
        name: "a graph that was made by hand",
        files: &[(b"g", BY_HAND), (b"s", b"arcs base\n")],
        report: b"a 0 \"x y\" a a\narcs 1\n",
        ..PLAIN
    },
    Row {
        name: "lines that end with two bytes",
        files: &[
            (b"g", b"@nodes\r\nlabel\r\na\r\n@arcs\r\n-\r\n"),
            (b"s", b"nodes base\n"),
        ],
        report: b"n 0 a\nnodes 1\n",
        ..PLAIN
    },
];

#[test]
fn lists_graphs(rt: HostRuntime) -> Result<(), Fail> {
    Ok(check_rows(&rt, rt.alloc(), &GRAPHS)?)
}
