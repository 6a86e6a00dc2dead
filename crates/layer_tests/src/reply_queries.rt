//! The texts of what queries answer.

use crate::reply_lines::{arcs, flows, is_text, means, names, pairs, paths, potentials};
use report_text::Reply;
use std::test::Fail;

// How many nodes there are, and the text.
const PATHS: [(usize, &[u8]); 3] = [
    (0, b"paths 0\n"),
    (1, b"d s 0 -\npaths 1\n"),
    (
        5,
        b"d s 0 -\nu \"c d\"\nd b -9223372036854775808 f\nd \"\" 9223372036854775807 \"\"\nu e\n\
          paths 3\n",
    ),
];

#[test]
fn tells_paths(rt: HostRuntime) -> Result<(), Fail> {
    let alloc = rt.alloc();
    for (count, wanted) in PATHS {
        assert!(rt;
            is_text(alloc, Reply::Paths(paths(alloc, count)?), wanted),
            "at {count}"
        );
    }
    Ok(())
}

// How many arcs a cycle has, its length, and the text.
const CYCLES: [(usize, i64, &[u8]); 3] = [
    (0, i64::MIN, b"cycle -9223372036854775808\n"),
    (1, -1, b"a 4294967295 \"x y\" a \"\"\ncycle -1\n"),
    (
        2,
        i64::MAX,
        b"a 4294967295 \"x y\" a \"\"\na 0 k/+ b a/o\ncycle 9223372036854775807\n",
    ),
];

#[test]
fn tells_cycles(rt: HostRuntime) -> Result<(), Fail> {
    let alloc = rt.alloc();
    for (count, length, wanted) in CYCLES {
        let reply = Reply::Cycle(arcs(alloc, count)?, length);
        assert!(rt; is_text(alloc, reply, wanted), "at {wanted:?}");
    }
    Ok(())
}

// How many flows and how many nodes there are, the value, and the text.
const CUTS: [(usize, usize, i64, &[u8]); 4] = [
    (0, 0, 0, b"maxflow 0\n"),
    (0, 1, 0, b"s \"\"\nmaxflow 0\n"),
    (
        1,
        0,
        i64::MAX,
        b"f \"p q\" 9223372036854775807\nmaxflow 9223372036854775807\n",
    ),
    (
        2,
        2,
        5,
        b"f \"p q\" 9223372036854775807\nf r -1\ns \"\"\ns x/i\nmaxflow 5\n",
    ),
];

const CIRCULATIONS: [&[u8]; 4] = [
    b"circulation\n",
    b"f \"p q\" 9223372036854775807\ncirculation\n",
    b"f \"p q\" 9223372036854775807\nf r -1\ncirculation\n",
    b"f \"p q\" 9223372036854775807\nf r -1\nf s -9223372036854775808\ncirculation\n",
];

#[test]
fn tells_flows(rt: HostRuntime) -> Result<(), Fail> {
    let alloc = rt.alloc();
    for (count, side, value, wanted) in CUTS {
        let reply = Reply::MaxFlow(flows(alloc, count)?, names(alloc, side)?, value);
        assert!(rt; is_text(alloc, reply, wanted), "at {wanted:?}");
    }
    for count in 0..4 {
        let reply = Reply::Circulation(flows(alloc, count)?);
        assert!(rt; is_text(alloc, reply, CIRCULATIONS[count]), "at {count}");
    }
    Ok(())
}

// How many nodes a barrier has, whether it supplies too much, its supply, the limit, and the text.
const BARRIERS: [(usize, bool, i128, i128, &[u8]); 4] = [
    (0, true, 1, 0, b"barrier over 1 0\n"),
    (1, false, -2, -1, b"b \"\"\nbarrier under -2 -1\n"),
    (
        2,
        true,
        i128::MAX,
        i128::MIN,
        b"b \"\"\nb x/i\n\
          barrier over 170141183460469231731687303715884105727 -170141183460469231731687303715884105728\n",
    ),
    (
        3,
        false,
        i128::MIN,
        i128::MAX,
        b"b \"\"\nb x/i\nb \"a b\"\n\
          barrier under -170141183460469231731687303715884105728 170141183460469231731687303715884105727\n",
    ),
];

#[test]
fn tells_barriers(rt: HostRuntime) -> Result<(), Fail> {
    let alloc = rt.alloc();
    for (count, over, supply, limit, wanted) in BARRIERS {
        let reply = Reply::Barrier(names(alloc, count)?, over, supply, limit);
        assert!(rt; is_text(alloc, reply, wanted), "at {wanted:?}");
    }
    Ok(())
}

// How many flows and how many potentials, or arcs of a cycle, there are, the cost, and the text.
const CHEAPEST: [(usize, usize, i128, &[u8]); 4] = [
    (0, 0, 0, b"cost 0\n"),
    (
        0,
        1,
        i128::MIN,
        b"p u 0\ncost -170141183460469231731687303715884105728\n",
    ),
    (1, 0, -7, b"f \"p q\" 9223372036854775807\ncost -7\n"),
    (
        2,
        3,
        i128::MAX,
        b"f \"p q\" 9223372036854775807\nf r -1\np u 0\np \"v w\" -9223372036854775808\n\
          p - 9223372036854775807\ncost 170141183460469231731687303715884105727\n",
    ),
];

const FREE_CYCLES: [(usize, usize, i128, &[u8]); 3] = [
    (0, 0, -1, b"unbounded -1\n"),
    (
        0,
        1,
        i128::MIN,
        b"a 4294967295 \"x y\" a \"\"\nunbounded -170141183460469231731687303715884105728\n",
    ),
    (
        2,
        2,
        -30,
        b"f \"p q\" 9223372036854775807\nf r -1\na 4294967295 \"x y\" a \"\"\na 0 k/+ b a/o\nunbounded -30\n",
    ),
];

#[test]
fn tells_costs(rt: HostRuntime) -> Result<(), Fail> {
    let alloc = rt.alloc();
    for (count, potential, cost, wanted) in CHEAPEST {
        let reply = Reply::Cheapest(flows(alloc, count)?, potentials(alloc, potential)?, cost);
        assert!(rt; is_text(alloc, reply, wanted), "at {wanted:?}");
    }
    for (count, length, cost, wanted) in FREE_CYCLES {
        let reply = Reply::FreeCycle(flows(alloc, count)?, arcs(alloc, length)?, cost);
        assert!(rt; is_text(alloc, reply, wanted), "at {wanted:?}");
    }
    Ok(())
}

// How many pairs and how many nodes there are, and the text.
const MATCHES: [(usize, usize, &[u8]); 4] = [
    (0, 0, b"match 0\n"),
    (0, 1, b"h \"\"\nmatch 0\n"),
    (1, 0, b"m a \"l 1\" r\nmatch 1\n"),
    (
        2,
        3,
        b"m a \"l 1\" r\nm b l r2\nh \"\"\nh x/i\nh \"a b\"\nmatch 2\n",
    ),
];

#[test]
fn tells_pairings(rt: HostRuntime) -> Result<(), Fail> {
    let alloc = rt.alloc();
    for (count, set, wanted) in MATCHES {
        let reply = Reply::Match(pairs(alloc, count)?, names(alloc, set)?);
        assert!(rt; is_text(alloc, reply, wanted), "at {wanted:?}");
    }
    Ok(())
}

// How many pairs and how many duals there are, the weight, and the texts of a heaviest and of a
// cheapest pairing.
const WEIGHTED: [(usize, usize, i128, &[u8], &[u8]); 3] = [
    (0, 0, 0, b"heaviest 0\n", b"assign 0\n"),
    (
        1,
        1,
        i128::MIN,
        b"m a \"l 1\" r\ny u 0\nheaviest -170141183460469231731687303715884105728\n",
        b"m a \"l 1\" r\ny u 0\nassign -170141183460469231731687303715884105728\n",
    ),
    (
        2,
        2,
        i128::MAX,
        b"m a \"l 1\" r\nm b l r2\ny u 0\ny \"v w\" -9223372036854775808\n\
          heaviest 170141183460469231731687303715884105727\n",
        b"m a \"l 1\" r\nm b l r2\ny u 0\ny \"v w\" -9223372036854775808\n\
          assign 170141183460469231731687303715884105727\n",
    ),
];

#[test]
fn tells_weighted_pairings(rt: HostRuntime) -> Result<(), Fail> {
    let alloc = rt.alloc();
    for (count, duals, weight, heaviest, assigned) in WEIGHTED {
        let heavy = Reply::Heavy(pairs(alloc, count)?, potentials(alloc, duals)?, weight);
        assert!(rt; is_text(alloc, heavy, heaviest), "at {heaviest:?}");
        let cheap = Reply::Assigned(pairs(alloc, count)?, potentials(alloc, duals)?, weight);
        assert!(rt; is_text(alloc, cheap, assigned), "at {assigned:?}");
    }
    Ok(())
}

// How many arcs and how many potentials there are, the total, the time, and the text.
const MEANS: [(usize, usize, i64, i64, &[u8]); 3] = [
    (0, 0, 0, 1, b"mean 0 1\n"),
    (
        1,
        1,
        i64::MIN,
        i64::MAX,
        b"a 4294967295 \"x y\" a \"\"\np u -170141183460469231731687303715884105728\n\
          mean -9223372036854775808 9223372036854775807\n",
    ),
    (
        2,
        3,
        5,
        2,
        b"a 4294967295 \"x y\" a \"\"\na 0 k/+ b a/o\np u -170141183460469231731687303715884105728\n\
          p v 0\np w 170141183460469231731687303715884105727\nmean 5 2\n",
    ),
];

const ACYCLIC: [&[u8]; 4] = [
    b"acyclic\n",
    b"t \"\"\nacyclic\n",
    b"t \"\"\nt x/i\nacyclic\n",
    b"t \"\"\nt x/i\nt \"a b\"\nacyclic\n",
];

#[test]
fn tells_means(rt: HostRuntime) -> Result<(), Fail> {
    let alloc = rt.alloc();
    for (count, potential, total, time, wanted) in MEANS {
        let reply = Reply::Mean(arcs(alloc, count)?, means(alloc, potential)?, total, time);
        assert!(rt; is_text(alloc, reply, wanted), "at {wanted:?}");
    }
    for count in 0..4 {
        let reply = Reply::Acyclic(names(alloc, count)?);
        assert!(rt; is_text(alloc, reply, ACYCLIC[count]), "at {count}");
    }
    Ok(())
}
