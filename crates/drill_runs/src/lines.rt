//! The lines of a drill are drawn.

ghost use Rattle.std.specs.Prelude.{◌≡◌, ◌<◌, ◌∷◌, ◌++◌, IfOk, OnOk};
ghost use Rattle.plain_machine.specs.Drill as spec;
ghost use Rattle.plain_machine.specs.Generator.{state};

use crate::forms::form_at;
use crate::texts::push_number;
use graph_maker::Draws;
use plain_machine::DrillWord;
use std::alloc::{AllocError, Global};

/// How many draws the graph of a drill takes: four for each of its 400 arcs.
const GRAPH_DRAWS: u32 = 1600;

/// The draws behind those of the graph.
pub fn draws_after_graph(seed: u32) -> Draws
    requires { seed < 2147483647 }
    ensures state { result.state ≡ spec.line_state seed 0 }
    ensures below { result.state < 2147483647 }
{
    let mut draws = Draws { state: seed as u64 };
    let mut count = 0;
    while count < GRAPH_DRAWS {
        draws.draw(1);
        count += 1;
    }
    draws
}

// Appends a word of the line with this number.
fn push_word(
    out: &mut Vec<u8>,
    draws: &mut Draws,
    word: DrillWord,
    number: u32,
) -> Result<(), AllocError>
    requires { draws.old.state < 2147483647 }
    ensures text { OnOk result (out.new.items
        ≡ out.old.items ++ 32 ∷ spec.word_text word number draws.old.state) }
    ensures drawn { OnOk result (draws.new.state ≡ spec.after_word word draws.old.state) }
    ensures below { OnOk result (draws.new.state < 2147483647) }
{
    out.push(b' ')?;
    match word {
        DrillWord::New(letter) => {
            out.push(letter)?;
            push_number(out, number as u64)
        }
        DrillWord::Node => push_number(out, draws.draw(100)),
        DrillWord::Arc => push_number(out, draws.draw(400)),
    }
}

// Appends words of the line with this number.
fn push_words(
    out: &mut Vec<u8>,
    draws: &mut Draws,
    words: &[DrillWord],
    number: u32,
) -> Result<(), AllocError>
    requires { draws.old.state < 2147483647 }
    ensures text { OnOk result (out.new.items
        ≡ out.old.items ++ spec.words_text words.now number draws.old.state) }
    ensures drawn { OnOk result (draws.new.state ≡ spec.after_words words.now draws.old.state) }
    ensures below { OnOk result (draws.new.state < 2147483647) }
{
    let mut rest = words;
    'words: while let [word, others @ ..] = rest {
        push_word(out, draws, *word, number)?;
        rest = others;
    }
    Ok(())
}

/// Draws the line with this number.
pub fn draw_line(alloc: Global, draws: &mut Draws, number: u32) -> Result<Vec<u8>, AllocError>
    requires { draws.old.state < 2147483647 }
    ensures text { IfOk result (λ line. line.items ≡ spec.line_text number draws.old.state) }
    ensures drawn { OnOk result (draws.new.state ≡ spec.after_line draws.old.state) }
    ensures below { OnOk result (draws.new.state < 2147483647) }
{
    let form = form_at(draws.draw(12));
    let mut line = Vec::from_slice(alloc, form.command)?;
    push_words(&mut line, draws, form.words, number)?;
    Ok(line)
}
