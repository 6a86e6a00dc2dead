//! Guards.

use super::{CHAIN, PLAIN, Row, check_rows};
use plain_machine::Status;
use std::test::Fail;

const GUARDS: [Row<'static>; 6] = [
    Row {
        name: "a quota refuses a node, and a quota that is broken already isn't attached",
        files: &[
            (b"g", CHAIN),
            (
                b"s",
                b"guard q node quota 3\naddnode x\nnodes base\nguard r node quota 2\n",
            ),
        ],
        report: b"! 2 4 Vetoed q\nn 2 w\nn 1 v\nn 0 u\nnodes 3\n! 4 4 Vetoed r\n",
        status: Status::SomeRefused,
        ..PLAIN
    },
    Row {
        name: "the oldest guard that refuses the first step is named, and nothing is counted",
        files: &[
            (b"g", CHAIN),
            (
                b"s",
                b"guard l arc loopless\nguard q arc quota 2\nguard f node fuse 1\n\
                guard t arc tally\nsplitnode u x k\nguards\nnodes base\narcs base\n",
            ),
        ],
        report: b"! 5 4 Vetoed q\ng l arc loopless 2\ng q arc quota 2 2\ng f node fuse 1\n\
            g t arc tally 0 0 0\nguards 4\nn 2 w\nn 1 v\nn 0 u\nnodes 3\na 1 b v w\na 0 a u v\n\
            arcs 2\n",
        status: Status::SomeRefused,
        ..PLAIN
    },
    Row {
        name: "there are sixteen boxes of a kind",
        files: &[
            (b"g", CHAIN),
            (
                b"s",
                b"guard g1 node quota 9\nguard g2 node quota 9\nguard g3 node quota 9\n\
                guard g4 node quota 9\nguard g5 node quota 9\nguard g6 node quota 9\n\
                guard g7 node quota 9\nguard g8 node quota 9\nguard g9 node quota 9\n\
                guard g10 node quota 9\nguard g11 node quota 9\nguard g12 node quota 9\n\
                guard g13 node quota 9\nguard g14 node quota 9\nguard g15 node quota 9\n\
                guard g16 node quota 9\nguard g17 node quota 9\n",
            ),
        ],
        report: b"! 17 15 NoGuard quota\n",
        status: Status::SomeRefused,
        ..PLAIN
    },
    Row {
        name: "a guard that is let go gives its box back, and its name",
        files: &[
            (b"g", CHAIN),
            (
                b"s",
                b"unguard q\nguard q node quota 3\naddnode x\nunguard q\naddnode x\nguards\n\
                guard q node quota 3\nguard q arc loopless\nguard r arc loopless\nguards\n",
            ),
        ],
        report: b"! 1 2 Unknown q\n! 3 4 Vetoed q\nguards 0\n! 7 4 Vetoed q\ng q arc loopless 2\n\
            g r arc loopless 2\nguards 2\n",
        status: Status::SomeRefused,
        ..PLAIN
    },
    Row {
        name: "a guard that is refused leaves its box in the pool",
        files: &[
            (b"g", CHAIN),
            (
                b"s",
                b"addarc c u u\nguard x arc loopless\ndelarc c\nguard l1 arc loopless\n\
                guard l2 arc loopless\nguard l3 arc loopless\nguard l4 arc loopless\n\
                guard l5 arc loopless\nguard l6 arc loopless\nguard l7 arc loopless\n\
                guard l8 arc loopless\nguard l9 arc loopless\nguard l10 arc loopless\n\
                guard l11 arc loopless\nguard l12 arc loopless\nguard l13 arc loopless\n\
                guard l14 arc loopless\nguard l15 arc loopless\nguard l16 arc loopless\n\
                guard l17 arc loopless\nunguard l3\nguard y arc loopless\n",
            ),
        ],
        report: b"! 2 4 Vetoed x\n! 20 15 NoGuard loopless\n",
        status: Status::SomeRefused,
        ..PLAIN
    },
    Row {
        name: "guards of the other sort aren't told",
        files: &[
            (b"g", CHAIN),
            (
                b"s",
                b"guard q arc quota 2\naddnode x\naddarc c u x\ndelarc a\naddarc c u x\nturn c\n\
                source b x\nguards\n",
            ),
        ],
        report: b"! 3 4 Vetoed q\ng q arc quota 2 2\nguards 1\n",
        status: Status::SomeRefused,
        ..PLAIN
    },
];

#[test]
fn guards_are_put_up_and_let_go(rt: HostRuntime) -> Result<(), Fail> {
    Ok(check_rows(&rt, rt.alloc(), &GUARDS)?)
}
