//! What is derived from the graph and its maps, and attributes that are tied to items.

use super::{CHAIN, EMPTY, PLAIN, Row, STATIONS, check_rows};
use plain_machine::Status;
use std::test::Fail;

const TIED: &[u8] = b"@nodes\nlabel\nu\nv\n@arcs\nlabel\nu v a\n@attributes\nroot u\n\
    end a\nnote \"x y\"\n";

const WORKED: [Row<'static>; 6] = [
    Row {
        name: "degrees, totals and an index of one small graph",
        files: &[
            (b"g", CHAIN),
            (
                b"s",
                b"type arc cap int\ntotal arc cap\nleast arc cap\ndelarc b\nleast arc cap\n\
                degree d out\nget node d u\nnodemap on bool\nset node on v 1\ncount node on\n\
                trues node ix on\nitems node ix\ndropmap node on\nset node d u 4\n",
            ),
        ],
        report: b"total 8\nleast 3 b\nleast 5 a\nvalue 1\ncount 1\ni 1 v\nitems 1\n\
            ! 13 16 InUse ix\n! 14 7 WrongType d\n",
        status: Status::SomeRefused,
        ..PLAIN
    },
    Row {
        name: "an int of more than 64 bits is text alone",
        files: &[
            (
                b"g",
                b"@nodes\nlabel left\nu 1\nv 1\n@arcs\nlabel cap up low high\n\
            u v a 9223372036854775808 68719476737 2 1\n",
            ),
            (b"s", b"type arc cap int\nget arc cap a\ntype arc up int\n"),
        ],
        report: b"! 1 6 BadValue a 9223372036854775808\nvalue 9223372036854775808\n",
        status: Status::SomeRefused,
        ..PLAIN
    },
    Row {
        name: "maps without items",
        files: &[
            (b"g", EMPTY),
            (
                b"s",
                b"arcmap m int\ntotal arc m\nleast arc m\nnodemap b bool\ncount node b\n",
            ),
        ],
        report: b"total 0\nleast -\ncount 0\n",
        ..PLAIN
    },
    Row {
        name: "a tied attribute has the present label, and goes with its item",
        files: &[
            (b"g", STATIONS),
            (
                b"s",
                b"tie source node\ntie target node\nrelabel node 0 s\nattr source\ndelnode 2\n\
                save o\n",
            ),
        ],
        report: b"value s\nsaved 107\n",
        saved: &[(
            b"o",
            b"@nodes\nlabel\ttitle\t\ns\t\"North gate\"\t\n1\tDepot\t\n@arcs\n\
            \t\tlabel\tcapacity\tcost\t\ns\t1\t0\t16\t4\t\n@attributes\nsource s\n",
        )],
        ..PLAIN
    },
    Row {
        name: "what ties and new labels ask for",
        files: &[
            (b"g", STATIONS),
            (
                b"s",
                b"tie source arc\ntie nope node\ntie source arc\nrelabel node 0 1\ndelarc 0\n\
                attr source\nuntie target\n",
            ),
        ],
        report: b"! 2 2 Unknown nope\n! 3 3 Taken source\n! 4 3 Taken 1\n! 6 2 Unknown source\n\
            ! 7 2 Unknown target\n",
        status: Status::SomeRefused,
        ..PLAIN
    },
    Row {
        name: "an attribute that is no label",
        files: &[
            (b"g", b"@nodes\nlabel\na\n@arcs\n-\n@attributes\nroot x\n"),
            (b"s", b"tie root node\n"),
        ],
        report: b"! 1 6 BadValue root x\n",
        status: Status::SomeRefused,
        ..PLAIN
    },
];

const DERIVED: [Row<'static>; 6] = [
    Row {
        name: "an index follows writes, additions and erasures",
        files: &[
            (b"g", CHAIN),
            (
                b"s",
                b"nodemap on bool\nset node on w 1\nset node on u 1\ntrues node ix on\n\
                items node ix\nset node on u 0\naddnode x\nset node on x 1\nitems node ix\n\
                get node ix w\nget node ix v\ndelnode w\nitems node ix\nclear\nitems node ix\n",
            ),
        ],
        report: b"i 0 u\ni 2 w\nitems 2\ni 2 w\ni 3 x\nitems 2\nvalue 1\nvalue 0\ni 3 x\nitems 1\n\
            items 0\n",
        ..PLAIN
    },
    Row {
        name: "degrees follow the arcs, and are no columns",
        files: &[
            (b"g", CHAIN),
            (
                b"s",
                b"degree d out\ndegree e in\nget node d u\nget node e u\nturn a\nget node d u\n\
                get node e u\naddarc c u u\nget node d u\nget node e u\ndelnode v\n\
                get node d u\nget node e u\nset node d u 4\ntype node d int\ndegree d in\n\
                dropmap node d\nget node d u\nsave o\n",
            ),
        ],
        report: b"value 1\nvalue 0\nvalue 0\nvalue 1\nvalue 1\nvalue 2\nvalue 1\nvalue 1\n\
            ! 14 7 WrongType d\n! 15 7 WrongType d\n! 16 3 Taken d\n! 18 2 Unknown d\nsaved 49\n",
        saved: &[(
            b"o",
            b"@nodes\nlabel\t\nu\t\nw\t\n@arcs\n\t\tlabel\tcap\t\nu\tu\tc\t\"\"\t\n",
        )],
        status: Status::SomeRefused,
        ..PLAIN
    },
    Row {
        name: "totals, and the least value, of the first item of those that have it",
        files: &[
            (b"g", CHAIN),
            (
                b"s",
                b"type arc cap int\nset arc cap a 3\nleast arc cap\nset arc cap b -7\n\
                total arc cap\nleast arc cap\ntotal node h\ntotal arc label\ncount arc cap\n\
                nodemap on bool\nleast node on\nset node on v true\ncount node on\n",
            ),
        ],
        report: b"least 3 a\ntotal -4\nleast -7 b\n! 7 2 Unknown h\n! 8 7 WrongType label\n\
            ! 9 7 WrongType cap\n! 11 7 WrongType on\ncount 1\n",
        status: Status::SomeRefused,
        ..PLAIN
    },
    Row {
        name: "a map of another type, or refused at the first value in the order of the base",
        files: &[
            (b"g", CHAIN),
            (
                b"s",
                b"set arc cap a x\nset arc cap b y\ntype arc cap int\nget arc cap a\n\
                set arc cap b 1\ntype arc cap bool\nset arc cap a true\narcmap z int\n\
                type arc cap bool\nget arc cap a\nget arc cap b\ntype arc cap text\n\
                get arc cap a\ntype arc label int\ntype arc h int\ntype arc cap int\nsave o\n",
            ),
        ],
        report: b"! 3 6 BadValue b y\nvalue x\n! 6 6 BadValue a x\nvalue 1\nvalue 1\nvalue 1\n\
            ! 14 7 WrongType label\n! 15 2 Unknown h\nsaved 66\n",
        saved: &[(
            b"o",
            b"@nodes\nlabel\t\nu\t\nv\t\nw\t\n@arcs\n\t\tlabel\tcap\tz\t\nu\tv\ta\t1\t0\t\n\
            v\tw\tb\t1\t0\t\n",
        )],
        status: Status::SomeRefused,
        ..PLAIN
    },
    Row {
        name: "what reads a map is told, the oldest index first",
        files: &[
            (b"g", CHAIN),
            (
                b"s",
                b"nodemap on bool\ntrues node ix on\ntrues node iy on\ntype node on int\n\
                dropmap node on\ndropmap node ix\ntrues node ix on\ndropmap node on\n\
                trues node iz ix\ntrues node iz h\ntrues node on on\nitems node on\n\
                items node h\nset node ix u 1\ndropmap node iy\ndropmap node ix\n\
                type node on int\nitems node ix\n",
            ),
        ],
        report: b"! 4 16 InUse ix\n! 5 16 InUse ix\n! 8 16 InUse iy\n! 9 7 WrongType ix\n\
            ! 10 2 Unknown h\n! 11 3 Taken on\n! 12 7 WrongType on\n! 13 2 Unknown h\n\
            ! 14 7 WrongType ix\n! 18 2 Unknown ix\n",
        status: Status::SomeRefused,
        ..PLAIN
    },
    Row {
        name: "attributes that are tied to items, and new labels",
        files: &[
            (b"g", TIED),
            (
                b"s",
                b"tie root node\ntie end arc\nattr root\nrelabel node u r\nattr root\n\
                tie root node\nuntie root\nattr root\nrelabel node r q\nattr root\n\
                tie root node\nrelabel node q r\ntie root node\ndelarc a\nattr end\n\
                tie end arc\nuntie note\nattr note\nrelabel node z k\nrelabel node r v\n\
                attr nope\nsave o\nclear\nattr root\nsave p\n",
            ),
        ],
        report: b"value u\nvalue r\n! 6 3 Taken root\nvalue r\nvalue r\n! 11 6 BadValue root r\n\
            ! 15 2 Unknown end\n! 16 2 Unknown end\n! 17 2 Unknown note\nvalue \"x y\"\n\
            ! 19 2 Unknown z\n! 20 3 Taken v\n! 21 2 Unknown nope\nsaved 65\n\
            ! 24 2 Unknown root\nsaved 52\n",
        saved: &[
            (
                b"o",
                b"@nodes\nlabel\t\nr\t\nv\t\n@arcs\n\t\tlabel\t\n@attributes\nroot r\n\
                note \"x y\"\n",
            ),
            (
                b"p",
                b"@nodes\nlabel\t\n@arcs\n\t\tlabel\t\n@attributes\nnote \"x y\"\n",
            ),
        ],
        status: Status::SomeRefused,
        ..PLAIN
    },
];

#[test]
fn derives(rt: HostRuntime) -> Result<(), Fail> {
    check_rows(&rt, rt.alloc(), &WORKED)?;
    Ok(check_rows(&rt, rt.alloc(), &DERIVED)?)
}
