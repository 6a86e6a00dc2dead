//! Which drill the words ask for.

ghost use Rattle.std.specs.Prelude.{◌≡◌, ℕ, IfSome, IfNone};
ghost use Rattle.plain_machine.specs.Words.{AsksDrill, contents};

use graph_maker::read_bounded;
use plain_machine::{MAX_DRILLED, MAX_SEED};

/// The drill that is asked for: its seed, and how many lines are drawn.
#[derive(Clone, Copy)]
pub struct Wanted {
    pub seed: u32,
    pub lines: u32,
}

/// The drill that the words after the program's name ask for. None where they ask for none.
pub fn drill_words(words: &[Vec<u8>]) -> Option<Wanted>
    ensures some { IfSome result (λ wanted.
        AsksDrill (contents words.now) wanted.seed wanted.lines) }
    ensures none { IfNone result ((seed lines : ℕ)
        → AsksDrill (contents words.now) seed lines → ⊥) }
{
    let [first, seed, lines] = words else {
        return None;
    };
    if first.as_slice() != b"drill".as_slice() {
        return None;
    }
    Some(Wanted {
        seed: read_bounded(seed.as_slice(), 1, MAX_SEED)?,
        lines: read_bounded(lines.as_slice(), 0, MAX_DRILLED)?,
    })
}
