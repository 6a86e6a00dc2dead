//! Largest pairings of views.

use super::{CHAIN, Choice, PLAIN, Row, check_choices, check_rows};
use plain_machine::Status;
use std::test::Fail;

const WORKED: [Row<'static>; 2] = [
    Row {
        name: "no arcs, and no nodes on the left",
        files: &[
            (b"g", b"@nodes\nlabel\na\nb\n@arcs\n-\n"),
            (
                b"s",
                b"nodemap left bool\nmatch base left\nset node left a 1\n\
                    set node left b 1\nmatch base left\n",
            ),
        ],
        report: b"match 0\nh b\nh a\nmatch 0\n",
        ..PLAIN
    },
    Row {
        name: "refusals of a pairing",
        files: &[
            (b"g", CHAIN),
            (
                b"s",
                b"match q left\nmatch base left\nnodemap left int\nmatch base left\n\
                    type node left bool\nset node left v 1\ntrues node ix left\n\
                    match base ix\nview p split base\nmatch p left\nturn a\naddarc c v v\n\
                    match base left\nmatch base label\n",
            ),
        ],
        report: b"! 1 2 Unknown q\n! 2 2 Unknown left\n! 4 7 WrongType left\n\
            ! 8 7 WrongType ix\n! 10 12 NotBipartite w/=\n! 13 12 NotBipartite c\n\
            ! 14 7 WrongType label\n",
        status: Status::SomeRefused,
        ..PLAIN
    },
];

// Rows of which more than one report is right.
const CHOICES: [Choice<'static>; 3] = [
    Choice {
        row: Row {
            name: "one place for three",
            files: &[
                (
                    b"g",
                    b"@nodes\nlabel left\nl1 1\nl2 1\nl3 1\nr 0\n@arcs\nlabel\n\
                        l1 r a\nl2 r b\nr l3 c\n",
                ),
                (b"s", b"type node left bool\nmatch base left\n"),
            ],
            report: b"m a l1 r\nh l3\nh l2\nh l1\nmatch 1\n",
            ..PLAIN
        },
        others: &[
            b"m b l2 r\nh l3\nh l2\nh l1\nmatch 1\n",
            b"m c l3 r\nh l3\nh l2\nh l1\nmatch 1\n",
        ],
    },
    Choice {
        row: Row {
            name: "pairs of all, whichever way their arcs go",
            files: &[
                (
                    b"g",
                    b"@nodes\nlabel left\nl1 1\nl2 1\nr1 0\nr2 0\n@arcs\nlabel\n\
                        r1 l1 a\nl2 r2 b\n",
                ),
                (b"s", b"type node left bool\nmatch base left\n"),
            ],
            report: b"m a l1 r1\nm b l2 r2\nmatch 2\n",
            ..PLAIN
        },
        others: &[
            b"m a l1 r1\nm b l2 r2\nh l2\nmatch 2\n",
            b"m a l1 r1\nm b l2 r2\nh l1\nmatch 2\n",
            b"m a l1 r1\nm b l2 r2\nh l2\nh l1\nmatch 2\n",
        ],
    },
    Choice {
        row: Row {
            name: "a view that has two sides, of a digraph that has not",
            files: &[
                (
                    b"g",
                    b"@nodes\nlabel left\nl 1\nr 0\nm 0\n@arcs\nlabel\nl r p\nr m q\n",
                ),
                (
                    b"s",
                    b"type node left bool\nmatch base left\nnodemap on bool\n\
                        set node on l 1\nset node on r 1\nview s sub base on -\nmatch s left\n",
                ),
            ],
            report: b"! 2 12 NotBipartite q\nm p l r\nmatch 1\n",
            status: Status::SomeRefused,
            ..PLAIN
        },
        others: &[b"! 2 12 NotBipartite q\nm p l r\nh l\nmatch 1\n"],
    },
];

#[test]
fn finds_pairings(rt: HostRuntime) -> Result<(), Fail> {
    check_rows(&rt, rt.alloc(), &WORKED)?;
    Ok(check_choices(&rt, rt.alloc(), &CHOICES)?)
}
