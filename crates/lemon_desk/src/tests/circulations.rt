//! Flows within bounds that meet supplies.

use super::{CHAIN, Choice, PLAIN, Row, check_choices, check_rows};
use plain_machine::Status;
use std::test::Fail;

const WORKED: [Row<'static>; 7] = [
    Row {
        name: "a flow that meets supplies",
        files: &[
            (
                b"g",
                b"@nodes\nlabel sup\nu 4\nv -4\n@arcs\nlabel cap\nu v a 5\n",
            ),
            (
                b"s",
                b"type node sup int\ntype arc cap int\narcmap fl int\n\
                    circulate base - cap sup into fl\nget arc fl a\n",
            ),
        ],
        report: b"f a 4\ncirculation\nvalue 4\n",
        ..PLAIN
    },
    Row {
        name: "with a set that wants more than can come, the map stays",
        files: &[
            (
                b"g",
                b"@nodes\nlabel sup\nu 0\nv -1\n@arcs\nlabel cap\nu v a 5\n",
            ),
            (
                b"s",
                b"type node sup int\ntype arc cap int\narcmap fl int\n\
                    set arc fl a 3\ncirculate base - cap sup into fl\nget arc fl a\n",
            ),
        ],
        report: b"b v\nb u\nbarrier under -1 0\nvalue 3\n",
        ..PLAIN
    },
    Row {
        name: "a set that has more than can leave",
        files: &[
            (
                b"g",
                b"@nodes\nlabel sup\nu 1\nv 0\n@arcs\nlabel cap cost\nu v a 5 1\n",
            ),
            (
                b"s",
                b"type node sup int\ntype arc cap int\ncirculate base - cap sup\n",
            ),
        ],
        report: b"b v\nb u\nbarrier over 1 0\n",
        ..PLAIN
    },
    Row {
        name: "lower bounds that are met around a cycle",
        files: &[
            (
                b"g",
                b"@nodes\nlabel\nu\nv\n@arcs\nlabel low up\nu v a 2 2\nv u b 0 7\n",
            ),
            (
                b"s",
                b"type arc low int\ntype arc up int\n\
                    circulate base low up - into low\nget arc low b\n",
            ),
        ],
        report: b"f b 2\nf a 2\ncirculation\nvalue 2\n",
        ..PLAIN
    },
    Row {
        name: "without maps, and with all of them",
        files: &[
            (b"g", CHAIN),
            (
                b"s",
                b"circulate base - - -\ntype arc cap int\nset arc cap a 3\n\
                    nodemap sup int\nset node sup u 3\nset node sup w -3\n\
                    circulate base cap cap sup\nset arc cap a 4\nnodemap on bool\n\
                    set node on u 1\nset node sup v -4\nset node sup u 4\nset node on v 1\n\
                    view s sub base on -\narcmap fl int\nset arc fl b 9\n\
                    circulate s - cap sup into fl\nget arc fl a\nget arc fl b\n",
            ),
        ],
        report: b"circulation\nf b 3\nf a 3\ncirculation\nf a 4\ncirculation\nvalue 4\n\
            value 0\n",
        ..PLAIN
    },
    Row {
        name: "values, bounds and sides that no query takes",
        files: &[
            (
                b"g",
                b"@nodes\nlabel left\nu 1\nv 1\n@arcs\nlabel cap up low high\n\
                    u v a 9223372036854775808 68719476737 2 1\n",
            ),
            (
                b"s",
                b"type arc cap int\nget arc cap a\ntype arc up int\n\
                    circulate base - up -\ntype arc low int\ntype arc high int\n\
                    circulate base low high -\ntype node left bool\nmatch base left\n",
            ),
        ],
        report: b"! 1 6 BadValue a 9223372036854775808\nvalue 9223372036854775808\n\
            ! 4 8 OutOfRange a 68719476737\n! 7 11 Crossed a\n! 9 12 NotBipartite a\n",
        status: Status::SomeRefused,
        ..PLAIN
    },
    Row {
        name: "refusals of a circulation, the first fault of each",
        files: &[
            (b"g", CHAIN),
            (
                b"s",
                b"circulate q - - -\ncirculate base x y z into nope\n\
                    circulate base - y z into nope\ncirculate base - - z into nope\n\
                    circulate base cap - - into nope\ncirculate base cap - - into cap\n\
                    type arc cap int\nnodemap sup bool\ncirculate base cap cap sup\n\
                    type node sup int\narcmap fl bool\ncirculate base cap cap sup into fl\n\
                    type arc fl int\narcmap low int\nset arc low b 68719476737\n\
                    set arc cap a -68719476737\nset node sup v 68719476738\n\
                    circulate base low cap sup into fl\nset arc low b 4\n\
                    circulate base low cap sup into fl\nset arc cap a -1\n\
                    circulate base low cap sup into fl\nset node sup v 68719476736\n\
                    circulate base low cap sup into fl\nset arc low b 3\n\
                    circulate base low cap sup into fl\nview n undirect base\n\
                    circulate n low cap - into fl\ncirculate n low cap -\nget arc fl a\n",
            ),
        ],
        report: b"! 1 2 Unknown q\n! 2 2 Unknown x\n! 3 2 Unknown y\n! 4 2 Unknown z\n\
            ! 5 2 Unknown nope\n! 6 7 WrongType cap\n! 9 7 WrongType sup\n\
            ! 12 7 WrongType fl\n! 18 8 OutOfRange b 68719476737\n\
            ! 20 8 OutOfRange a -68719476737\n! 22 8 OutOfRange v 68719476738\n\
            ! 24 11 Crossed b\n! 26 11 Crossed a\n! 28 7 WrongType fl\n! 29 11 Crossed a/-\n\
            value 0\n",
        status: Status::SomeRefused,
        ..PLAIN
    },
];

// Rows of which more than one report is right.
const CHOICES: [Choice<'static>; 1] = [Choice {
    row: Row {
        name: "lower bounds that can not be met: either end shows it",
        files: &[
            (
                b"g",
                b"@nodes\nlabel\nu\nv\n@arcs\nlabel low up\nu v a 2 2\nv u b 3 7\n",
            ),
            (
                b"s",
                b"type arc low int\ntype arc up int\n\
                        circulate base low up - into up\nget arc up a\n",
            ),
        ],
        report: b"b u\nbarrier over 0 -1\nvalue 2\n",
        ..PLAIN
    },
    others: &[b"b v\nbarrier under 0 1\nvalue 2\n"],
}];

#[test]
fn finds_circulations(rt: HostRuntime) -> Result<(), Fail> {
    check_rows(&rt, rt.alloc(), &WORKED)?;
    Ok(check_choices(&rt, rt.alloc(), &CHOICES)?)
}
