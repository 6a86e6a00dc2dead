//! Views.

use super::{CHAIN, PLAIN, Row, check_rows};
use plain_machine::Status;
use std::test::Fail;

const WORKED: [Row<'static>; 5] = [
    Row {
        name: "a node that is split, under its name in a reverse of the split",
        files: &[
            (b"g", b"@nodes\nlabel\nx\n@arcs\n-\n"),
            (
                b"s",
                b"view s sub base - -\nview p split s\nview r reverse p\nnodes r\narcs r\n\
                out r x/o\n",
            ),
        ],
        report: b"n 0 x/i\nn 1 x/o\nnodes 2\na 1 x/= x/o x/i\narcs 1\na 1 x/= x/o x/i\nout 1\n",
        ..PLAIN
    },
    Row {
        name: "a ninth layer",
        files: &[
            (b"g", CHAIN),
            (
                b"s",
                b"view v1 reverse base\nview v2 reverse v1\nview v3 reverse v2\n\
                view v4 reverse v3\nview v5 reverse v4\nview v6 reverse v5\nview v7 reverse v6\n\
                view v8 reverse v7\nview v9 reverse v8\n",
            ),
        ],
        report: b"! 9 14 TooDeep 8\n",
        status: Status::SomeRefused,
        ..PLAIN
    },
    Row {
        name: "a residual view, and a map that it reads",
        files: &[
            (b"g", CHAIN),
            (
                b"s",
                b"type arc cap int\narcmap fl int\nset arc fl a 5\nview r residual base cap fl\n\
                arcs r\nout r v\nin r v\nunview base\ndropmap arc fl\n",
            ),
        ],
        report: b"a 2 b/+ v w\na 1 a/- v u\narcs 2\na 2 b/+ v w\na 1 a/- v u\nout 2\nin 0\n\
            ! 8 7 WrongType base\n! 9 16 InUse r\n",
        status: Status::SomeRefused,
        ..PLAIN
    },
    Row {
        name: "an undirected view",
        files: &[
            (b"g", CHAIN),
            (b"s", b"view n undirect base\narcs n\nin n v\n"),
        ],
        report: b"a 3 b/- w v\na 2 b/+ v w\na 1 a/- v u\na 0 a/+ u v\narcs 4\na 0 a/+ u v\n\
            a 3 b/- w v\nin 2\n",
        ..PLAIN
    },
    Row {
        name: "a sub reads its map at the moment of the query",
        files: &[
            (b"g", CHAIN),
            (
                b"s",
                b"nodemap on bool\nset node on u 1\nset node on v 1\nview s sub base on -\n\
                nodes s\narcs s\nset node on v 0\narcs s\n",
            ),
        ],
        report: b"n 1 v\nn 0 u\nnodes 2\na 0 a u v\narcs 1\narcs 0\n",
        ..PLAIN
    },
];

#[test]
fn shows(rt: HostRuntime) -> Result<(), Fail> {
    Ok(check_rows(&rt, rt.alloc(), &WORKED)?)
}
