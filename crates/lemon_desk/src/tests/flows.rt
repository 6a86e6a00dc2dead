//! Largest flows of views.

use super::{CHAIN, PLAIN, Row, check_rows};
use plain_machine::Status;
use std::test::Fail;

const WORKED: [Row<'static>; 8] = [
    Row {
        name: "a kept residual follows a flow that is written",
        files: &[
            (b"g", CHAIN),
            (
                b"s",
                b"type arc cap int\narcmap fl int\nset arc fl a 5\n\
                    view r residual base cap fl\nkeep r\narcs r\n\
                    maxflow base cap u w into fl\narcs r\n",
            ),
        ],
        report: b"a 2 b/+ v w\na 1 a/- v u\narcs 2\nf b 3\nf a 3\ns v\ns u\nmaxflow 3\n\
            a 3 b/- w v\na 1 a/- v u\na 0 a/+ u v\narcs 3\n",
        ..PLAIN
    },
    Row {
        name: "so does one that is not kept",
        files: &[
            (b"g", CHAIN),
            (
                b"s",
                b"type arc cap int\narcmap fl int\nset arc fl a 5\n\
                    view r residual base cap fl\narcs r\nmaxflow base cap u w into fl\n\
                    arcs r\n",
            ),
        ],
        report: b"a 2 b/+ v w\na 1 a/- v u\narcs 2\nf b 3\nf a 3\ns v\ns u\nmaxflow 3\n\
            a 3 b/- w v\na 1 a/- v u\na 0 a/+ u v\narcs 3\n",
        ..PLAIN
    },
    Row {
        name: "an arc that is not shown gets 0",
        files: &[
            (b"g", CHAIN),
            (
                b"s",
                b"type arc cap int\narcmap fl int\nset arc fl a 9\nset arc fl b 9\n\
                    nodemap on bool\nset node on u 1\nset node on v 1\nview s sub base on -\n\
                    maxflow s cap u v\nget arc fl a\nmaxflow s cap u v into fl\nget arc fl a\n\
                    get arc fl b\n",
            ),
        ],
        report: b"f a 5\ns u\nmaxflow 5\nvalue 9\nf a 5\ns u\nmaxflow 5\nvalue 5\nvalue 0\n",
        ..PLAIN
    },
    Row {
        name: "a flow through split nodes, whose own arcs have no place in the map",
        files: &[
            (b"g", CHAIN),
            (
                b"s",
                b"type arc cap int\nnodemap cap int\nset node cap u 9\n\
                    set node cap v 2\nset node cap w 9\narcmap fl int\nview p split base\n\
                    maxflow p cap u/i w/o into fl\nget arc fl a\nget arc fl b\n",
            ),
        ],
        report: b"f w/= 2\nf v/= 2\nf b 2\nf u/= 2\nf a 2\ns v/i\ns u/i\ns u/o\nmaxflow 2\n\
            value 2\nvalue 2\n",
        ..PLAIN
    },
    Row {
        name: "both ways through an arc, and an arc that only comes in",
        files: &[
            (b"g", b"@nodes\nlabel\nu\nv\n@arcs\nlabel cap\nu v a 4\n"),
            (
                b"s",
                b"type arc cap int\nmaxflow base cap v u\nview n undirect base\n\
                    maxflow n cap v u\nview r reverse base\nmaxflow r cap v u\n",
            ),
        ],
        report: b"s v\nmaxflow 0\nf a/- 4\ns v\nmaxflow 4\nf a 4\ns v\nmaxflow 4\n",
        ..PLAIN
    },
    Row {
        name: "flows into the map of capacities, and a map that is not int",
        files: &[
            (b"g", CHAIN),
            (
                b"s",
                b"type arc cap int\nmaxflow base cap u w into cap\nget arc cap a\n\
                    get arc cap b\nmaxflow base cap u w into label\n",
            ),
        ],
        report: b"f b 3\nf a 3\ns v\ns u\nmaxflow 3\nvalue 3\nvalue 3\n\
            ! 5 7 WrongType label\n",
        status: Status::SomeRefused,
        ..PLAIN
    },
    Row {
        name: "refusals of a largest flow, the first fault of each",
        files: &[
            (b"g", CHAIN),
            (
                b"s",
                b"maxflow q cap u w\nmaxflow base gone z w into nope\n\
                    maxflow base cap z y into nope\nmaxflow base cap u z into nope\n\
                    maxflow base cap u u into nope\nmaxflow base cap u u into cap\n\
                    type arc cap int\narcmap fl bool\nmaxflow base cap u u into fl\n\
                    type arc fl int\nmaxflow base cap u u into fl\nset arc cap a 68719476737\n\
                    set arc cap b -1\nmaxflow base cap u u\nmaxflow base cap u w into fl\n\
                    set arc cap a 0\nmaxflow base cap u w into fl\nview n undirect base\n\
                    maxflow n cap u w into fl\nmaxflow n cap u w\nget arc fl a\n",
            ),
        ],
        report: b"! 1 2 Unknown q\n! 2 2 Unknown gone\n! 3 2 Unknown z\n! 4 2 Unknown z\n\
            ! 5 2 Unknown nope\n! 6 7 WrongType cap\n! 9 7 WrongType fl\n! 11 9 SameNode u\n\
            ! 14 9 SameNode u\n! 15 8 OutOfRange a 68719476737\n! 17 10 Negative b\n\
            ! 19 7 WrongType fl\n! 20 10 Negative b/-\nvalue 0\n",
        status: Status::SomeRefused,
        ..PLAIN
    },
    Row {
        name: "no flow is written along a residual view",
        files: &[
            (b"g", CHAIN),
            (
                b"s",
                b"type arc cap int\narcmap fl int\nset arc fl a 2\n\
                    view r residual base cap fl\nmaxflow r cap u w into fl\nview s split r\n\
                    maxflow s cap u/i w/i into fl\nmaxflow r cap u w\n",
            ),
        ],
        report: b"! 5 7 WrongType fl\n! 7 7 WrongType fl\n! 8 10 Negative a/-\n",
        status: Status::SomeRefused,
        ..PLAIN
    },
];

#[test]
fn finds_flows(rt: HostRuntime) -> Result<(), Fail> {
    Ok(check_rows(&rt, rt.alloc(), &WORKED)?)
}
