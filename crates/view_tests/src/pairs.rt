//! Towers of two layers, against lists that an independent program worked out.

use crate::rows::{RESIDUAL, Row, SUB, try_rows};
use std::test::Fail;
use view_tower::Layer;

// Each layer under reverse.
const REVERSE_ON_TOP: [Row; 5] = [
    Row {
        layers: &[Layer::Reverse, Layer::Reverse],
        nodes: &["2 >2 <2 1; 1 >1 <3 0; 0 >3 0 <; "],
        arcs: &["0 0-1 2 0 yes; 1 1-2 2 1 no; 2 2-2 2 2 yes; 3 0-1 2 3 yes; "],
    },
    Row {
        layers: &[SUB, Layer::Reverse],
        nodes: &["1 >3 0 <; 0 > <3 0; "],
        arcs: &["0 1-0 2 0 yes; 3 1-0 2 3 yes; "],
    },
    Row {
        layers: &[Layer::Undirect, Layer::Reverse],
        nodes: &["2 >4 2 5 <4 5 3; 1 >6 0 3 <2 7 1; 0 >7 1 <6 0; "],
        arcs: &[
            "0(+) 1-0 2 0 yes; 1(-) 0-1 2 0 yes; 2(+) 2-1 2 1 no; 3(-) 1-2 2 1 no; ",
            "4(+) 2-2 2 2 yes; 5(-) 2-2 2 2 yes; 6(+) 1-0 2 3 yes; 7(-) 0-1 2 3 yes; ",
        ],
    },
    Row {
        layers: &[RESIDUAL, Layer::Reverse],
        nodes: &["2 >2 5 <5 3; 1 >0 3 <2 7; 0 >7 <0; "],
        arcs: &[
            "0(+) 1-0 2 0 yes; 2(+) 2-1 2 1 no; 3(-) 1-2 -2 -1 no; 5(-) 2-2 -2 -2 yes; ",
            "7(-) 0-1 -2 -3 yes; ",
        ],
    },
    Row {
        layers: &[Layer::Split, Layer::Reverse],
        nodes: &["4(i) >4 2 <5; 5(o) >5 <4; 2(i) >6 0 <3; 3(o) >3 <2; 0(i) > <1; 1(o) >1 <6 0; "],
        arcs: &[
            "0 2-1 2 0 yes; 1(=) 1-0 5 0 yes; 2 4-3 2 1 no; 3(=) 3-2 6 0 yes; 4 4-5 2 2 yes; ",
            "5(=) 5-4 7 0 no; 6 2-1 2 3 yes; ",
        ],
    },
];

// Each layer under sub.
const SUB_ON_TOP: [Row; 5] = [
    Row {
        layers: &[Layer::Reverse, SUB],
        nodes: &["1 >3 0 <; 0 > <3 0; "],
        arcs: &["0 1-0 2 0 yes; 3 1-0 2 3 yes; "],
    },
    Row {
        layers: &[SUB, SUB],
        nodes: &["1 > <3 0; 0 >3 0 <; "],
        arcs: &["0 0-1 2 0 yes; 3 0-1 2 3 yes; "],
    },
    Row {
        layers: &[Layer::Undirect, SUB],
        nodes: &["1 >7 1 <6 0; 0 >6 0 <7 1; "],
        arcs: &["0(+) 0-1 2 0 yes; 1(-) 1-0 2 0 yes; 6(+) 0-1 2 3 yes; 7(-) 1-0 2 3 yes; "],
    },
    Row {
        layers: &[RESIDUAL, SUB],
        nodes: &["1 >7 <0; 0 >0 <7; "],
        arcs: &["0(+) 0-1 2 0 yes; 7(-) 1-0 -2 -3 yes; "],
    },
    Row {
        layers: &[Layer::Split, SUB],
        nodes: &["2(i) >3 <6 0; 3(o) > <3; 0(i) >1 <; 1(o) >6 0 <1; "],
        arcs: &["0 1-2 2 0 yes; 1(=) 0-1 5 0 yes; 3(=) 2-3 6 0 yes; 6 1-2 2 3 yes; "],
    },
];

// Each layer under undirect.
const UNDIRECT_ON_TOP: [Row; 5] = [
    Row {
        layers: &[Layer::Reverse, Layer::Undirect],
        nodes: &["2 >4 2 5 <4 5 3; 1 >6 0 3 <2 7 1; 0 >7 1 <6 0; "],
        arcs: &[
            "0(+) 1-0 2 0 yes; 1(-) 0-1 2 0 yes; 2(+) 2-1 2 1 no; 3(-) 1-2 2 1 no; ",
            "4(+) 2-2 2 2 yes; 5(-) 2-2 2 2 yes; 6(+) 1-0 2 3 yes; 7(-) 0-1 2 3 yes; ",
        ],
    },
    Row {
        layers: &[SUB, Layer::Undirect],
        nodes: &["1 >7 1 <6 0; 0 >6 0 <7 1; "],
        arcs: &["0(+) 0-1 2 0 yes; 1(-) 1-0 2 0 yes; 6(+) 0-1 2 3 yes; 7(-) 1-0 2 3 yes; "],
    },
    Row {
        layers: &[Layer::Undirect, Layer::Undirect],
        nodes: &[
            "2 >8 10 6 9 5 11 <8 4 10 9 11 7; 1 >4 14 2 13 1 7 <12 0 6 5 15 3; ",
            "0 >12 0 15 3 <14 2 13 1; ",
        ],
        arcs: &[
            "0(++) 0-1 2 0 yes; 1(+-) 1-0 2 0 yes; 2(-+) 1-0 2 0 yes; 3(--) 0-1 2 0 yes; ",
            "4(++) 1-2 2 1 no; 5(+-) 2-1 2 1 no; 6(-+) 2-1 2 1 no; 7(--) 1-2 2 1 no; ",
            "8(++) 2-2 2 2 yes; 9(+-) 2-2 2 2 yes; 10(-+) 2-2 2 2 yes; 11(--) 2-2 2 2 yes; ",
            "12(++) 0-1 2 3 yes; 13(+-) 1-0 2 3 yes; 14(-+) 1-0 2 3 yes; 15(--) 0-1 2 3 yes; ",
        ],
    },
    Row {
        layers: &[RESIDUAL, Layer::Undirect],
        nodes: &["2 >10 6 5 11 <4 10 11 7; 1 >4 14 1 7 <0 6 5 15; 0 >0 15 <14 1; "],
        arcs: &[
            "0(++) 0-1 2 0 yes; 1(+-) 1-0 2 0 yes; 4(++) 1-2 2 1 no; 5(+-) 2-1 2 1 no; ",
            "6(-+) 2-1 -2 -1 no; 7(--) 1-2 -2 -1 no; 10(-+) 2-2 -2 -2 yes; ",
            "11(--) 2-2 -2 -2 yes; 14(-+) 1-0 -2 -3 yes; 15(--) 0-1 -2 -3 yes; ",
        ],
    },
    Row {
        layers: &[Layer::Split, Layer::Undirect],
        nodes: &[
            "4(i) >10 9 5 <8 4 11; 5(o) >8 11 <10 9; 2(i) >6 13 1 <12 0 7; 3(o) >4 7 <6 5; ",
            "0(i) >2 <3; 1(o) >12 0 3 <2 13 1; ",
        ],
        arcs: &[
            "0(+) 1-2 2 0 yes; 1(-) 2-1 2 0 yes; 2(=+) 0-1 5 0 yes; 3(=-) 1-0 5 0 yes; ",
            "4(+) 3-4 2 1 no; 5(-) 4-3 2 1 no; 6(=+) 2-3 6 0 yes; 7(=-) 3-2 6 0 yes; ",
            "8(+) 5-4 2 2 yes; 9(-) 4-5 2 2 yes; 10(=+) 4-5 7 0 no; 11(=-) 5-4 7 0 no; ",
            "12(+) 1-2 2 3 yes; 13(-) 2-1 2 3 yes; ",
        ],
    },
];

// Each layer under residual.
const RESIDUAL_ON_TOP: [Row; 5] = [
    Row {
        layers: &[Layer::Reverse, RESIDUAL],
        nodes: &["2 >2 5 <5 3; 1 >0 3 <2 7; 0 >7 <0; "],
        arcs: &[
            "0(+) 1-0 2 0 yes; 2(+) 2-1 2 1 no; 3(-) 1-2 -2 -1 no; 5(-) 2-2 -2 -2 yes; ",
            "7(-) 0-1 -2 -3 yes; ",
        ],
    },
    Row {
        layers: &[SUB, RESIDUAL],
        nodes: &["1 >7 <0; 0 >0 <7; "],
        arcs: &["0(+) 0-1 2 0 yes; 7(-) 1-0 -2 -3 yes; "],
    },
    Row {
        layers: &[Layer::Undirect, RESIDUAL],
        nodes: &["2 >6 9 5 11 <4 9 11 7; 1 >4 2 13 7 <0 6 5 15; 0 >0 15 <2 13; "],
        arcs: &[
            "0(++) 0-1 2 0 yes; 2(-+) 1-0 2 0 yes; 4(++) 1-2 2 1 no; 5(+-) 2-1 -2 -1 no; ",
            "6(-+) 2-1 2 1 no; 7(--) 1-2 -2 -1 no; 9(+-) 2-2 -2 -2 yes; ",
            "11(--) 2-2 -2 -2 yes; 13(+-) 1-0 -2 -3 yes; 15(--) 0-1 -2 -3 yes; ",
        ],
    },
    Row {
        layers: &[RESIDUAL, RESIDUAL],
        nodes: &["2 >5 <4; 1 >4 14 <0 5; 0 >0 <14; "],
        arcs: &["0(++) 0-1 2 0 yes; 4(++) 1-2 2 1 no; 5(+-) 2-1 -2 -1 no; 14(-+) 1-0 -2 -3 yes; "],
    },
    Row {
        layers: &[Layer::Split, RESIDUAL],
        nodes: &[
            "4(i) >10 9 5 <4; 5(o) > <10 9; 2(i) >6 13 <0; 3(o) >4 <6 5; 0(i) >2 <; ",
            "1(o) >0 <2 13; ",
        ],
        arcs: &[
            "0(+) 1-2 2 0 yes; 2(=+) 0-1 5 0 yes; 4(+) 3-4 2 1 no; 5(-) 4-3 -2 -1 no; ",
            "6(=+) 2-3 6 0 yes; 9(-) 4-5 -2 -2 yes; 10(=+) 4-5 7 0 no; 13(-) 2-1 -2 -3 yes; ",
        ],
    },
];

// Each layer under split.
const SPLIT_ON_TOP: [Row; 5] = [
    Row {
        layers: &[Layer::Reverse, Layer::Split],
        nodes: &["4(i) >5 <4; 5(o) >4 2 <5; 2(i) >3 <2; 3(o) >6 0 <3; 0(i) >1 <6 0; 1(o) > <1; "],
        arcs: &[
            "0 3-0 2 0 yes; 1(=) 0-1 5 0 yes; 2 5-2 2 1 no; 3(=) 2-3 6 0 yes; 4 5-4 2 2 yes; ",
            "5(=) 4-5 7 0 no; 6 3-0 2 3 yes; ",
        ],
    },
    Row {
        layers: &[SUB, Layer::Split],
        nodes: &["2(i) >3 <6 0; 3(o) > <3; 0(i) >1 <; 1(o) >6 0 <1; "],
        arcs: &["0 1-2 2 0 yes; 1(=) 0-1 5 0 yes; 3(=) 2-3 6 0 yes; 6 1-2 2 3 yes; "],
    },
    Row {
        layers: &[Layer::Undirect, Layer::Split],
        nodes: &[
            "4(i) >5 <8 4 10; 5(o) >8 10 6 <5; 2(i) >3 <12 0 6; 3(o) >4 14 2 <3; ",
            "0(i) >1 <14 2; 1(o) >12 0 <1; ",
        ],
        arcs: &[
            "0(+) 1-2 2 0 yes; 1(=) 0-1 5 0 yes; 2(-) 3-0 2 0 yes; 3(=) 2-3 6 0 yes; ",
            "4(+) 3-4 2 1 no; 5(=) 4-5 7 0 no; 6(-) 5-2 2 1 no; 8(+) 5-4 2 2 yes; ",
            "10(-) 5-4 2 2 yes; 12(+) 1-2 2 3 yes; 14(-) 3-0 2 3 yes; ",
        ],
    },
    Row {
        layers: &[RESIDUAL, Layer::Split],
        nodes: &[
            "4(i) >5 <4 10; 5(o) >10 6 <5; 2(i) >3 <0 6; 3(o) >4 14 <3; 0(i) >1 <14; ",
            "1(o) >0 <1; ",
        ],
        arcs: &[
            "0(+) 1-2 2 0 yes; 1(=) 0-1 5 0 yes; 3(=) 2-3 6 0 yes; 4(+) 3-4 2 1 no; ",
            "5(=) 4-5 7 0 no; 6(-) 5-2 -2 -1 no; 10(-) 5-4 -2 -2 yes; 14(-) 3-0 -2 -3 yes; ",
        ],
    },
    Row {
        layers: &[Layer::Split, Layer::Split],
        nodes: &[
            "8(ii) >9 <8 4; 9(io) >10 <9; 10(oi) >11 <10; 11(oo) >8 <11; 4(ii) >5 <12 0; ",
            "5(io) >6 <5; 6(oi) >7 <6; 7(oo) >4 <7; 0(ii) >1 <; 1(io) >2 <1; 2(oi) >3 <2; ",
            "3(oo) >12 0 <3; ",
        ],
        arcs: &[
            "0 3-4 2 0 yes; 1(i=) 0-1 5 0 yes; 2(=) 1-2 5 0 yes; 3(o=) 2-3 5 0 yes; ",
            "4 7-8 2 1 no; 5(i=) 4-5 6 0 yes; 6(=) 5-6 6 0 yes; 7(o=) 6-7 6 0 yes; ",
            "8 11-8 2 2 yes; 9(i=) 8-9 7 0 no; 10(=) 9-10 7 0 no; 11(o=) 10-11 7 0 no; ",
            "12 3-4 2 3 yes; ",
        ],
    },
];

#[test]
fn reverse_on_top(rt: HostRuntime) -> Result<(), Fail> {
    try_rows(&rt, rt.alloc(), &REVERSE_ON_TOP)?;
    Ok(())
}

#[test]
fn sub_on_top(rt: HostRuntime) -> Result<(), Fail> {
    try_rows(&rt, rt.alloc(), &SUB_ON_TOP)?;
    Ok(())
}

#[test]
fn undirect_on_top(rt: HostRuntime) -> Result<(), Fail> {
    try_rows(&rt, rt.alloc(), &UNDIRECT_ON_TOP)?;
    Ok(())
}

#[test]
fn residual_on_top(rt: HostRuntime) -> Result<(), Fail> {
    try_rows(&rt, rt.alloc(), &RESIDUAL_ON_TOP)?;
    Ok(())
}

#[test]
fn split_on_top(rt: HostRuntime) -> Result<(), Fail> {
    try_rows(&rt, rt.alloc(), &SPLIT_ON_TOP)?;
    Ok(())
}
