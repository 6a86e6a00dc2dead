//! Cheapest flows.

use super::{CHAIN, Choice, PLAIN, Row, check_choices, check_rows};
use plain_machine::Status;
use std::test::Fail;

const WORKED: [Row<'static>; 6] = [
    Row {
        name: "a cheapest flow by both commands, and a kept residual that follows it",
        files: &[
            (
                b"g",
                b"@nodes\nlabel sup\nu 4\nv 0\nw -4\n@arcs\nlabel cap cost\n\
                    u v a 5 1\nv w b 3 1\nu w c 5 3\n",
            ),
            (
                b"s",
                b"type node sup int\ntype arc cap int\ntype arc cost int\n\
                    arcmap fl int\nview r residual base cap fl\nkeep r\n\
                    mincost base - cap cost sup\narcs r\nsimplex base - cap cost sup into fl\n\
                    arcs r\n",
            ),
        ],
        report: b"f b 3\nf c 1\nf a 3\np w 0\np v -2\np u -3\ncost 9\na 2 b/+ v w\n\
            a 4 c/+ u w\na 0 a/+ u v\narcs 3\nf b 3\nf c 1\nf a 3\np w 0\np v -2\np u -3\n\
            cost 9\na 5 c/- w u\na 3 b/- w v\na 1 a/- v u\na 4 c/+ u w\na 0 a/+ u v\narcs 5\n",
        ..PLAIN
    },
    Row {
        name: "the cheaper of two arcs",
        files: &[
            (
                b"g",
                b"@nodes\nlabel sup\nu 2\nw -2\n@arcs\nlabel cap cost\nu w a 3 1\n\
                    u w b 3 2\n",
            ),
            (
                b"s",
                b"type node sup int\ntype arc cap int\ntype arc cost int\n\
                    simplex base - cap cost sup\nmincost base - cap cost sup into cap\n\
                    get arc cap b\n",
            ),
        ],
        report: b"f a 2\np w 0\np u -1\ncost 2\nf a 2\np w 0\np u -1\ncost 2\nvalue 0\n",
        ..PLAIN
    },
    Row {
        name: "a cost below 0 that fills its arc, and a lower bound",
        files: &[
            (
                b"g",
                b"@nodes\nlabel\nu\nv\n@arcs\nlabel low cap cost\nu v a 1 5 -2\n\
                    v u b 0 9 1\n",
            ),
            (
                b"s",
                b"type arc low int\ntype arc cap int\ntype arc cost int\n\
                    mincost base - cap cost -\nset arc cost a 3\nset arc cost b 0\n\
                    simplex base low - cost -\n",
            ),
        ],
        report: b"f b 5\nf a 5\np v 0\np u 1\ncost -5\nf b 1\nf a 1\np v 0\np u 0\ncost 3\n",
        ..PLAIN
    },
    Row {
        name: "no flow, and a map that stays",
        files: &[
            (
                b"g",
                b"@nodes\nlabel sup\nu 1\nv 0\n@arcs\nlabel cap cost\nu v a 5 1\n",
            ),
            (
                b"s",
                b"type node sup int\ntype arc cap int\ntype arc cost int\n\
                    arcmap fl int\nset arc fl a 7\nmincost base - cap cost sup into fl\n\
                    simplex base - cap cost sup into fl\nget arc fl a\n\
                    circulate base - cap sup\n",
            ),
        ],
        report: b"b v\nb u\nbarrier over 1 0\nb v\nb u\nbarrier over 1 0\nvalue 7\nb v\n\
            b u\nbarrier over 1 0\n",
        ..PLAIN
    },
    Row {
        name: "an arc that is filtered out gets 0",
        files: &[
            (
                b"g",
                b"@nodes\nlabel sup\nu 3\nv 0\nw -3\n@arcs\nlabel cap cost\n\
                    u v a 5 1\nv w b 4 1\nu w c 5 1\n",
            ),
            (
                b"s",
                b"type node sup int\ntype arc cap int\ntype arc cost int\n\
                    arcmap fl int\nset arc fl c 7\nset arc fl b 9\narcmap open bool\n\
                    set arc open a 1\nset arc open b 1\nview s sub base - open\n\
                    simplex s - cap cost sup into fl\nget arc fl a\nget arc fl b\n\
                    get arc fl c\n",
            ),
        ],
        report: b"f b 3\nf a 3\np w 0\np v -1\np u -2\ncost 6\nvalue 3\nvalue 3\nvalue 0\n",
        ..PLAIN
    },
    Row {
        name: "refusals of a cheapest flow, the first fault of each",
        files: &[
            (b"g", CHAIN),
            (
                b"s",
                b"mincost base x y z u into nope\nsimplex base - y z u into nope\n\
                    mincost base - - z u into nope\nsimplex base - - cap u into nope\n\
                    mincost base - - cap - into nope\nsimplex base - - cap - into cap\n\
                    type arc cap int\narcmap cost int\narcmap low int\n\
                    set arc cost b 68719476737\nset arc cap a 68719476738\n\
                    set arc low a -68719476739\nmincost base low cap cost -\nset arc low a 6\n\
                    simplex base low cap cost -\nset arc cap a 5\n\
                    mincost base low cap cost -\nset arc cost b 0\n\
                    simplex base low cap cost -\nview r residual base cap low\n\
                    simplex r - - cost - into cost\nmincost base - - label -\n",
            ),
        ],
        report: b"! 1 2 Unknown x\n! 2 2 Unknown y\n! 3 2 Unknown z\n! 4 2 Unknown u\n\
            ! 5 2 Unknown nope\n! 6 7 WrongType cap\n! 13 8 OutOfRange a -68719476739\n\
            ! 15 8 OutOfRange a 68719476738\n! 17 8 OutOfRange b 68719476737\n\
            ! 19 11 Crossed a\n! 21 7 WrongType cost\n! 22 7 WrongType label\n",
        status: Status::SomeRefused,
        ..PLAIN
    },
];

// Rows of which more than one report is right.
const CHOICES: [Choice<'static>; 2] = [
    Choice {
        row: Row {
            name: "arcs of one cost: either is right",
            files: &[
                (
                    b"g",
                    b"@nodes\nlabel sup\nu 2\nw -2\n@arcs\nlabel cap cost\n\
                        u w a 3 1\nu w b 3 1\n",
                ),
                (
                    b"s",
                    b"type node sup int\ntype arc cap int\ntype arc cost int\n\
                        simplex base - cap cost sup\n",
                ),
            ],
            report: b"f a 2\np w 0\np u -1\ncost 2\n",
            ..PLAIN
        },
        others: &[b"f b 2\np w 0\np u -1\ncost 2\n"],
    },
    Choice {
        row: Row {
            name: "ever cheaper: the flow may go round the cycle any number of times",
            files: &[
                (
                    b"g",
                    b"@nodes\nlabel sup\nu -1\nv 0\nw 1\n@arcs\nlabel cost\n\
                        u v a -1\nv u b 0\nw u c 2\n",
                ),
                (
                    b"s",
                    b"type node sup int\ntype arc cost int\narcmap fl int\n\
                        mincost base - - cost sup into fl\nget arc fl c\n",
                ),
            ],
            report: b"f c 1\na 0 a u v\na 1 b v u\nunbounded -1\nvalue 1\n",
            ..PLAIN
        },
        others: &[
            b"f c 1\nf b 1\nf a 1\na 0 a u v\na 1 b v u\nunbounded -1\nvalue 1\n",
            b"f c 1\nf b 2\nf a 2\na 0 a u v\na 1 b v u\nunbounded -1\nvalue 1\n",
            b"f c 1\nf b 3\nf a 3\na 0 a u v\na 1 b v u\nunbounded -1\nvalue 1\n",
        ],
    },
];

#[test]
fn finds_cheapest(rt: HostRuntime) -> Result<(), Fail> {
    check_rows(&rt, rt.alloc(), &WORKED)?;
    Ok(check_choices(&rt, rt.alloc(), &CHOICES)?)
}
