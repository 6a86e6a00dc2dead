//! Which graph the words ask for.

ghost use Rattle.std.specs.Prelude.{◌≡◌, ◌≤◌, ℕ, IfSome, IfNone};
ghost use Rattle.plain_machine.specs.Words.{AsksGraph, IsBounded, contents};

use plain_machine::{MAX_MADE_ARCS, MAX_MADE_NODES, MAX_SEED};

/// The graph that is asked for: its seed, and how many nodes and arcs.
#[derive(Clone, Copy)]
pub struct Wanted {
    pub seed: u32,
    pub nodes: u32,
    pub arcs: u32,
}

/// The graph that the words after the program's name ask for. None where they ask for none.
pub fn make_words(words: &[Vec<u8>]) -> Option<Wanted>
    ensures some { IfSome result (λ wanted.
        AsksGraph (contents words.now) wanted.seed wanted.nodes wanted.arcs) }
    ensures none { IfNone result ((seed nodes arcs : ℕ)
        → AsksGraph (contents words.now) seed nodes arcs → ⊥) }
{
    let [first, seed, nodes, arcs] = words else {
        return None;
    };
    if first.as_slice() != b"make".as_slice() {
        return None;
    }
    Some(Wanted {
        seed: read_bounded(seed.as_slice(), 1, MAX_SEED)?,
        nodes: read_bounded(nodes.as_slice(), 1, MAX_MADE_NODES)?,
        arcs: read_bounded(arcs.as_slice(), 0, MAX_MADE_ARCS)?,
    })
}

/// The number that the digits say, where it is within the bounds.
pub fn read_bounded(digits: &[u8], low: u32, high: u32) -> Option<u32>
    ensures some { IfSome result (IsBounded low high digits.now) }
    ensures none { IfNone result ((number : ℕ) → IsBounded low high digits.now number → ⊥) }
{
    if let [b'+', ..] = digits {
        return None;
    }
    let Ok(text) = str::from_utf8(digits) else {
        return None;
    };
    let Ok(number) = text.parse::<u32>() else {
        return None;
    };
    if number < low {
        return None;
    }
    if high < number {
        return None;
    }
    Some(number)
}
