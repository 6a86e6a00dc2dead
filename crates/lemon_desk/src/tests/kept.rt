//! Views that are kept.

use super::{CHAIN, PLAIN, Row, check_rows};
use plain_machine::Status;
use std::test::Fail;

const WORKED: [Row<'static>; 5] = [
    Row {
        name: "a kept sub follows its map and the changes of the digraph",
        files: &[
            (b"g", CHAIN),
            (
                b"s",
                b"nodemap on bool\nset node on u 1\nset node on v 1\nview s sub base on -\nkeep s\n\
                nodes s\narcs s\nset node on v 0\narcs s\ntype arc cap int\nset arc cap a 7\n\
                delarc a\naddarc c w u\nget arc cap c\nsplitarc b x k\narcs base\n",
            ),
        ],
        report: b"n 1 v\nn 0 u\nnodes 2\na 0 a u v\narcs 1\narcs 0\nvalue 0\na 2 k x w\n\
            a 0 c w u\na 1 b v x\narcs 3\n",
        ..PLAIN
    },
    Row {
        name: "a kept residual over a sub follows the flow map",
        files: &[
            (b"g", CHAIN),
            (
                b"s",
                b"type arc cap int\narcmap fl int\nnodemap on bool\nset node on u 1\n\
                set node on v 1\nview s sub base on -\nview r residual s cap fl\nkeep r\narcs r\n\
                set arc fl a 2\narcs r\nkeep r\nview t split r\nkeep t\n",
            ),
        ],
        report: b"a 0 a/+ u v\narcs 1\na 1 a/- v u\na 0 a/+ u v\narcs 2\n! 12 3 Taken r\n\
            ! 14 7 WrongType t\n",
        status: Status::SomeRefused,
        ..PLAIN
    },
    Row {
        name: "an arc that comes has no room, and one whose node went is gone",
        files: &[
            (b"g", CHAIN),
            (
                b"s",
                b"type arc cap int\narcmap fl int\nview r residual base cap fl\nkeep r\n\
                set arc fl a 5\naddarc c w u\nset arc cap c 2\narcs r\nsnap p\nturn c\ndelnode v\n\
                arcs r\nnodes r\nout r w\nrestore p\narcs r\nclear\nnodes r\narcs r\n",
            ),
        ],
        report: b"a 4 c/+ w u\na 2 b/+ v w\na 1 a/- v u\narcs 3\na 4 c/+ u w\narcs 1\nn 2 w\n\
            n 0 u\nnodes 2\nout 0\n! 15 5 Stale p\na 4 c/+ u w\narcs 1\nnodes 0\narcs 0\n",
        status: Status::SomeRefused,
        ..PLAIN
    },
    Row {
        name: "a filter of the arcs alone",
        files: &[
            (b"g", CHAIN),
            (
                b"s",
                b"arcmap open bool\nview s sub base - open\nkeep s\narcs s\nset arc open b 1\n\
                arcs s\nsplitarc b x k\narcs s\nset arc open k 1\nturn k\nin s x\ndelnode v\n\
                arcs s\nnodes s\n",
            ),
        ],
        report: b"arcs 0\na 1 b v w\narcs 1\na 1 b v x\narcs 1\na 2 k w x\na 1 b v x\nin 2\n\
            a 2 k w x\narcs 1\nn 3 x\nn 2 w\nn 0 u\nnodes 3\n",
        ..PLAIN
    },
    Row {
        name: "what isn't kept, and what goes out of use once a view goes",
        files: &[
            (b"g", CHAIN),
            (
                b"s",
                b"keep base\nkeep q\nview b reverse base\nkeep b\nnodemap on bool\narcmap fl int\n\
                type arc cap int\nview s sub base on -\nkeep s\nview t sub s - -\nkeep t\n\
                view r residual t cap fl\nkeep r\nunview s\ndropmap node on\nunview r\nunview t\n\
                set node on w 1\nnodes s\nunview s\nnodes s\ndropmap node on\n",
            ),
        ],
        report: b"! 1 7 WrongType base\n! 2 2 Unknown q\n! 4 7 WrongType b\n\
            ! 11 7 WrongType t\n! 13 7 WrongType r\n! 14 16 InUse t\n! 15 16 InUse s\nn 2 w\n\
            nodes 1\n! 21 2 Unknown s\n",
        status: Status::SomeRefused,
        ..PLAIN
    },
];

#[test]
fn follows(rt: HostRuntime) -> Result<(), Fail> {
    Ok(check_rows(&rt, rt.alloc(), &WORKED)?)
}
