//! Lines of scripts: what is no command, names, and labels.

use super::{CHAIN, EMPTY, JOINED, PLAIN, Row, TWO, TWO_LISTED, check_rows};
use plain_machine::Status;
use std::test::Fail;

const SCRIPTS: [Row<'static>; 13] = [
    Row {
        name: "lines that are refused",
        files: &[
            (b"g", JOINED),
            (b"s", b"addnode a\naddarc 7 a z\naddarc 0 a b\nfrob\n"),
        ],
        report: b"! 1 3 Taken a\n! 2 2 Unknown z\n! 3 3 Taken 0\n! 4 1 BadLine 1\n",
        status: Status::SomeRefused,
        ..PLAIN
    },
    Row {
        name: "lines that are passed over, and one that is no command",
        files: &[(b"g", TWO), (b"s", b"#x\n\nfrob\n  frob\nnodes base")],
        report: b"! 3 1 BadLine 1\n! 4 1 BadLine 3\nn 1 b\nn 0 a\nnodes 2\n",
        status: Status::SomeRefused,
        ..PLAIN
    },
    Row {
        name: "blanks in front and behind",
        files: &[(b"g", TWO), (b"s", b" \t\n  # x\n\tnodes  base \r\n")],
        report: TWO_LISTED,
        ..PLAIN
    },
    Row {
        name: "a quote that isn't closed",
        files: &[(b"g", CHAIN), (b"s", b"addnode \"x\n")],
        report: b"! 1 1 BadLine 9\n",
        status: Status::SomeRefused,
        ..PLAIN
    },
    Row {
        name: "columns of lines that are no commands",
        files: &[
            (b"g", TWO),
            (
                b"s",
                b"addnode\naddnode a b\nguard g node loopless\nguard g node fuse 0\n\
                guard g node fuse 12345678\nnodemap - int\nsave \"a\\q\"\nview v\n",
            ),
        ],
        report: b"! 1 1 BadLine 8\n! 2 1 BadLine 11\n! 3 1 BadLine 14\n! 4 1 BadLine 19\n\
            ! 5 1 BadLine 19\n! 6 1 BadLine 9\n! 7 1 BadLine 8\n! 8 1 BadLine 7\n",
        status: Status::SomeRefused,
        ..PLAIN
    },
    Row {
        name: "commands that the program doesn't run",
        files: &[
            (b"g", TWO),
            (
                b"s",
                b"meancycle base m\n  meancycle base m\n\t\"meancycle\" base m\nnodes base\n",
            ),
        ],
        report: b"! 1 1 BadLine 1\n! 2 1 BadLine 3\n! 3 1 BadLine 2\nn 1 b\nn 0 a\nnodes 2\n",
        status: Status::SomeRefused,
        ..PLAIN
    },
    Row {
        name: "views that aren't there",
        files: &[
            (b"g", TWO),
            (b"s", b"nodes other\narcs \"no view\"\narcs \"\"\n"),
        ],
        report: b"! 1 2 Unknown other\n! 2 2 Unknown \"no view\"\n! 3 2 Unknown \"\"\n",
        status: Status::SomeRefused,
        ..PLAIN
    },
    Row {
        name: "words of commands in quotes",
        files: &[(b"g", TWO), (b"s", b"\"nodes\" \"\\x62ase\"\n")],
        report: TWO_LISTED,
        ..PLAIN
    },
    Row {
        name: "labels with escapes",
        files: &[
            (b"g", EMPTY),
            (
                b"s",
                b"addnode \"\\x41\\tb\"\naddnode \"\\101\"\nnodes base\n",
            ),
        ],
        report: b"n 1 A\nn 0 \"A\\tb\"\nnodes 2\n",
        ..PLAIN
    },
    Row {
        name: "labels are compared by their bytes",
        files: &[
            (b"g", JOINED),
            (
                b"s",
                b"addnode \"\\x61\"\naddarc \"0\" a \"b\"\naddarc 1 \"\\141\" b\n",
            ),
        ],
        report: b"! 1 3 Taken a\n! 2 3 Taken 0\n",
        status: Status::SomeRefused,
        ..PLAIN
    },
    Row {
        name: "an arc whose label needs quotes",
        files: &[
            (b"g", CHAIN),
            (b"s", b"addarc \"a b\" u v\naddarc \"a b\" v w\narcs base\n"),
        ],
        report: b"! 2 3 Taken \"a b\"\na 1 b v w\na 2 \"a b\" u v\na 0 a u v\narcs 3\n",
        status: Status::SomeRefused,
        ..PLAIN
    },
    Row {
        name: "the first unknown name, before a taken one",
        files: &[(b"g", CHAIN), (b"s", b"addarc a x y\naddarc a u y\n")],
        report: b"! 1 2 Unknown x\n! 2 2 Unknown y\n",
        status: Status::SomeRefused,
        ..PLAIN
    },
    Row {
        name: "labels of nodes and labels of arcs are apart",
        files: &[
            (b"g", CHAIN),
            (b"s", b"addnode a\naddarc u a u\nnodes base\narcs base\n"),
        ],
        report: b"n 3 a\nn 2 w\nn 1 v\nn 0 u\nnodes 4\na 2 u a u\na 1 b v w\na 0 a u v\narcs 3\n",
        ..PLAIN
    },
];

#[test]
fn runs_scripts(rt: HostRuntime) -> Result<(), Fail> {
    Ok(check_rows(&rt, rt.alloc(), &SCRIPTS)?)
}
