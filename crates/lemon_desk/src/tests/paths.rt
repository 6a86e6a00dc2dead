//! Shortest paths over views.

use super::{CHAIN, PLAIN, Row, check_rows};
use plain_machine::Status;
use std::test::Fail;

const WORKED: [Row<'static>; 4] = [
    Row {
        name: "lengths of at least 0, and a cycle of negative length",
        files: &[
            (
                b"g",
                b"@nodes\nlabel\ns\na\nb\nc\n@arcs\nlabel len\ns a e 2\na b f 0\nb a g 0\n",
            ),
            (
                b"s",
                b"type arc len int\ndijkstra base len s\nset arc len g -1\ndijkstra base len s\n\
                bellman base len s\n",
            ),
        ],
        report: b"u c\nd b 2 f\nd a 2 e\nd s 0 -\npaths 3\n! 4 10 Negative g\na 1 f a b\n\
            a 2 g b a\ncycle -1\n",
        status: Status::SomeRefused,
        ..PLAIN
    },
    Row {
        name: "paths of a reversed view",
        files: &[
            (b"g", CHAIN),
            (
                b"s",
                b"type arc cap int\nview r reverse base\ndijkstra r cap w\nbellman base cap z\n",
            ),
        ],
        report: b"d w 0 -\nd v 3 b\nd u 8 a\npaths 3\n! 4 2 Unknown z\n",
        status: Status::SomeRefused,
        ..PLAIN
    },
    Row {
        name: "lengths on the way back through a residual view",
        files: &[
            (b"g", CHAIN),
            (
                b"s",
                b"type arc cap int\narcmap fl int\nset arc fl a 2\nview r residual base cap fl\n\
                arcmap len int\nset arc len a 3\nbellman r len v\ndijkstra r len v\n\
                set arc len a 68719476737\nbellman r len v\n",
            ),
        ],
        report: b"d w 0 b/+\nd v 0 -\nd u -3 a/-\npaths 3\n! 8 10 Negative a/-\n\
            ! 10 8 OutOfRange a/- -68719476737\n",
        status: Status::SomeRefused,
        ..PLAIN
    },
    Row {
        name: "lengths of split nodes, and names that the view lacks",
        files: &[
            (b"g", CHAIN),
            (
                b"s",
                b"arcmap len int\nset arc len a 1\nview p split base\nnodemap len int\n\
                set node len v 7\ndijkstra p len u/i\nbellman p len v\nbellman q len u\n\
                bellman p gone v/i\n",
            ),
        ],
        report: b"d w/i 8 b\nd w/o 8 w/=\nd v/i 1 a\nd v/o 8 v/=\nd u/i 0 -\nd u/o 0 u/=\n\
            paths 6\n! 7 2 Unknown v\n! 8 2 Unknown q\n! 9 2 Unknown gone\n",
        status: Status::SomeRefused,
        ..PLAIN
    },
];

#[test]
fn finds_paths(rt: HostRuntime) -> Result<(), Fail> {
    Ok(check_rows(&rt, rt.alloc(), &WORKED)?)
}
