//! Towers of one layer, and of several, against lists that an independent program worked out.

use crate::rows::{RESIDUAL, Row, SUB, try_rows};
use std::test::Fail;
use view_tower::Layer;

// The base, and each layer over it.
const ONE_LAYER: [Row; 6] = [
    Row {
        layers: &[],
        nodes: &["2 >2 <2 1; 1 >1 <3 0; 0 >3 0 <; "],
        arcs: &["0 0-1 2 0 yes; 1 1-2 2 1 no; 2 2-2 2 2 yes; 3 0-1 2 3 yes; "],
    },
    Row {
        layers: &[Layer::Reverse],
        nodes: &["2 >2 1 <2; 1 >3 0 <1; 0 > <3 0; "],
        arcs: &["0 1-0 2 0 yes; 1 2-1 2 1 no; 2 2-2 2 2 yes; 3 1-0 2 3 yes; "],
    },
    Row {
        layers: &[SUB],
        nodes: &["1 > <3 0; 0 >3 0 <; "],
        arcs: &["0 0-1 2 0 yes; 3 0-1 2 3 yes; "],
    },
    Row {
        layers: &[Layer::Undirect],
        nodes: &["2 >4 5 3 <4 2 5; 1 >2 7 1 <6 0 3; 0 >6 0 <7 1; "],
        arcs: &[
            "0(+) 0-1 2 0 yes; 1(-) 1-0 2 0 yes; 2(+) 1-2 2 1 no; 3(-) 2-1 2 1 no; ",
            "4(+) 2-2 2 2 yes; 5(-) 2-2 2 2 yes; 6(+) 0-1 2 3 yes; 7(-) 1-0 2 3 yes; ",
        ],
    },
    Row {
        layers: &[RESIDUAL],
        nodes: &["2 >5 3 <2 5; 1 >2 7 <0 3; 0 >0 <7; "],
        arcs: &[
            "0(+) 0-1 2 0 yes; 2(+) 1-2 2 1 no; 3(-) 2-1 -2 -1 no; 5(-) 2-2 -2 -2 yes; ",
            "7(-) 1-0 -2 -3 yes; ",
        ],
    },
    Row {
        layers: &[Layer::Split],
        nodes: &["4(i) >5 <4 2; 5(o) >4 <5; 2(i) >3 <6 0; 3(o) >2 <3; 0(i) >1 <; 1(o) >6 0 <1; "],
        arcs: &[
            "0 1-2 2 0 yes; 1(=) 0-1 5 0 yes; 2 3-4 2 1 no; 3(=) 2-3 6 0 yes; 4 5-4 2 2 yes; ",
            "5(=) 4-5 7 0 no; 6 1-2 2 3 yes; ",
        ],
    },
];

// Eight layers, three that split, and a part of what a flow leaves.
const SEVERAL_LAYERS: [Row; 3] = [
    Row {
        layers: &[
            Layer::Reverse,
            SUB,
            Layer::Split,
            Layer::Reverse,
            Layer::Undirect,
            Layer::Reverse,
            SUB,
            Layer::Reverse,
        ],
        nodes: &["2(i) >7 <6; 3(o) >6 13 1 <12 0 7; 0(i) >12 0 3 <2 13 1; 1(o) >2 <3; "],
        arcs: &[
            "0(+) 0-3 2 0 yes; 1(-) 3-0 2 0 yes; 2(=+) 1-0 5 0 yes; 3(=-) 0-1 5 0 yes; ",
            "6(=+) 3-2 6 0 yes; 7(=-) 2-3 6 0 yes; 12(+) 0-3 2 3 yes; 13(-) 3-0 2 3 yes; ",
        ],
    },
    Row {
        layers: &[Layer::Split, Layer::Split, Layer::Split],
        nodes: &[
            "16(iii) >17 <16 8; 17(iio) >18 <17; 18(ioi) >19 <18; 19(ioo) >20 <19; ",
            "20(oii) >21 <20; 21(oio) >22 <21; 22(ooi) >23 <22; 23(ooo) >16 <23; ",
            "8(iii) >9 <24 0; 9(iio) >10 <9; 10(ioi) >11 <10; 11(ioo) >12 <11; ",
            "12(oii) >13 <12; 13(oio) >14 <13; 14(ooi) >15 <14; 15(ooo) >8 <15; 0(iii) >1 <; ",
            "1(iio) >2 <1; 2(ioi) >3 <2; 3(ioo) >4 <3; 4(oii) >5 <4; 5(oio) >6 <5; ",
            "6(ooi) >7 <6; 7(ooo) >24 0 <7; ",
        ],
        arcs: &[
            "0 7-8 2 0 yes; 1(ii=) 0-1 5 0 yes; 2(i=) 1-2 5 0 yes; 3(io=) 2-3 5 0 yes; ",
            "4(=) 3-4 5 0 yes; 5(oi=) 4-5 5 0 yes; 6(o=) 5-6 5 0 yes; 7(oo=) 6-7 5 0 yes; ",
            "8 15-16 2 1 no; 9(ii=) 8-9 6 0 yes; 10(i=) 9-10 6 0 yes; 11(io=) 10-11 6 0 yes; ",
            "12(=) 11-12 6 0 yes; 13(oi=) 12-13 6 0 yes; 14(o=) 13-14 6 0 yes; ",
            "15(oo=) 14-15 6 0 yes; 16 23-16 2 2 yes; 17(ii=) 16-17 7 0 no; ",
            "18(i=) 17-18 7 0 no; 19(io=) 18-19 7 0 no; 20(=) 19-20 7 0 no; ",
            "21(oi=) 20-21 7 0 no; 22(o=) 21-22 7 0 no; 23(oo=) 22-23 7 0 no; ",
            "24 7-8 2 3 yes; ",
        ],
    },
    Row {
        layers: &[Layer::Undirect, RESIDUAL, Layer::Reverse, SUB],
        nodes: &["1 >0 15 <2 13; 0 >2 13 <0 15; "],
        arcs: &[
            "0(++) 1-0 2 0 yes; 2(-+) 0-1 2 0 yes; 13(+-) 0-1 -2 -3 yes; ",
            "15(--) 1-0 -2 -3 yes; ",
        ],
    },
];

#[test]
fn one_layer(rt: HostRuntime) -> Result<(), Fail> {
    try_rows(&rt, rt.alloc(), &ONE_LAYER)?;
    Ok(())
}

#[test]
fn several_layers(rt: HostRuntime) -> Result<(), Fail> {
    try_rows(&rt, rt.alloc(), &SEVERAL_LAYERS)?;
    Ok(())
}
