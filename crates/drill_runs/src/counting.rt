//! Lines are answered, and the answers counted.

ghost use Rattle.std.specs.Prelude.{◌≡◌, ◌+◌, ◌^◌, ◌<◌, ◌≤◌, ℕ, [], ◌∷◌, IfOk};
ghost use Rattle.base_items.specs.declared.limits.TheConstants.{MAX_STAMP as STAMP_LIMIT};
ghost use Rattle.plain_machine.specs.Drill as spec;
ghost use Rattle.drill_runs.specs.Counting.{Counted, no_counts};

use plain_world::Answer;
use script_runs::{Desk, answer_line, is_refused};
use std::alloc::{AllocError, Global};

/// How many lines were accepted, and how many refused.
#[derive(Clone, Copy)]
pub struct LineCounts {
    pub accepted: u64,
    pub refused: u64,
}

impl LineCounts {
    /// No line was counted.
    pub fn none() -> LineCounts
        ensures { result ≡ no_counts }
    {
        LineCounts {
            accepted: 0,
            refused: 0,
        }
    }
}

// The counts with one answer more.
fn count_answer(answer: &Answer, counts: LineCounts) -> LineCounts
    requires accepted { counts.accepted < 2 ^ 32 }
    requires refused { counts.refused < 2 ^ 32 }
    ensures accepted { (number : ℕ) → result.accepted
        ≡ counts.accepted + spec.accepted_in ((number, answer.now) ∷ []) }
    ensures refused { (number : ℕ) → result.refused
        ≡ counts.refused + spec.refused_in ((number, answer.now) ∷ []) }
    ensures few { (result.accepted ≤ counts.accepted + 1) × (result.refused ≤ counts.refused + 1) }
{
    if is_refused(answer) {
        LineCounts {
            accepted: counts.accepted,
            refused: counts.refused + 1,
        }
    } else {
        LineCounts {
            accepted: counts.accepted + 1,
            refused: counts.refused,
        }
    }
}

/// Answers a line, and counts the answer. A line that is passed over isn't counted.
pub fn count_line<D: Desk>(
    alloc: Global,
    desk: &mut D,
    line: &[u8],
    counts: LineCounts,
) -> Result<LineCounts, AllocError>
    requires in_step { D.in_step desk.old }
    requires stamps { (D.plain desk.old).graph.stamps + 2 ^ 24 ≤ STAMP_LIMIT }
    requires accepted { counts.accepted < 2 ^ 32 }
    requires refused { counts.refused < 2 ^ 32 }
    ensures counted { IfOk result (λ now. (number : ℕ)
        → Counted (D.plain desk.old) (D.plain desk.new) number (line.now ∷ []) counts now) }
    ensures few { IfOk result (λ now. (now.accepted ≤ counts.accepted + 1)
        × (now.refused ≤ counts.refused + 1)) }
    ensures in_step { D.in_step desk.new }
    ensures stamps { (D.plain desk.new).graph.stamps < (D.plain desk.old).graph.stamps + 2 ^ 24 }
{
    match answer_line(alloc, desk, line)? {
        None => Ok(counts),
        Some(answer) => {
            let now = count_answer(&answer, counts);
            drop(answer);
            Ok(now)
        }
    }
}
