//! The lines of a drill are answered.

ghost use Rattle.std.specs.Prelude.{◌≡◌, ◌+◌, ◌*◌, ◌^◌, ◌<◌, ◌≤◌, ℕ, List, IfOk, OnOk, length};
ghost use Rattle.base_items.specs.declared.limits.TheConstants.{MAX_STAMP as STAMP_LIMIT};
ghost use Rattle.plain_world.specs.declared.answers.Answer.{Answer as PlainAnswer};
ghost use Rattle.plain_machine.specs.Built.{Answers};
ghost use Rattle.plain_machine.specs.Runs.{Run};
ghost use Rattle.plain_machine.specs.Drill as spec;
ghost use Rattle.drill_runs.specs.Counting.{Counted, no_counts};

use crate::counting::{LineCounts, count_line};
use crate::forms::{FIRST_LINES, first_line};
use crate::lines::{draw_line, draws_after_graph};
use script_runs::Desk;
use std::alloc::{AllocError, Global};

/// Answers the lines before those that are drawn. It needs 2^24 stamps for each.
pub fn answer_first<D: Desk>(alloc: Global, desk: &mut D) -> Result<(), AllocError>
    requires in_step { D.in_step desk.old }
    requires stamps { (D.plain desk.old).graph.stamps + 2 ^ 24 * 8 ≤ STAMP_LIMIT }
    ensures opened { OnOk result ((said : List (ℕ × PlainAnswer))
        × Run Answers (D.plain desk.old) 1 spec.first_lines said (D.plain desk.new)) }
    ensures in_step { D.in_step desk.new }
    ensures stamps { OnOk result ((D.plain desk.new).graph.stamps
        ≤ (D.plain desk.old).graph.stamps + 2 ^ 24 * 7) }
{
    let counts = LineCounts::none();
    let mut place = 0;
    'lines: while place < FIRST_LINES {
        count_line(alloc, desk, first_line(place), counts)?;
        place += 1;
    }
    Ok(())
}

/// Answers so many lines, each as it is drawn, and counts the answers. It needs 2^24 stamps for
/// each.
pub fn answer_drawn<D: Desk>(
    alloc: Global,
    desk: &mut D,
    seed: u32,
    lines: u32,
) -> Result<LineCounts, AllocError>
    requires seed { seed < 2147483647 }
    requires in_step { D.in_step desk.old }
    requires stamps { (D.plain desk.old).graph.stamps + 2 ^ 24 * (lines + 1) ≤ STAMP_LIMIT }
    ensures counted { IfOk result (Counted (D.plain desk.old) (D.plain desk.new)
        (length spec.first_lines + 1) (spec.drawn_lines seed lines) no_counts) }
    ensures in_step { D.in_step desk.new }
{
    let mut draws = draws_after_graph(seed);
    let mut counts = LineCounts::none();
    let mut number = 0;
    'lines: while number < lines {
        let line = draw_line(alloc, &mut draws, number)?;
        counts = count_line(alloc, desk, line.as_slice(), counts)?;
        number += 1;
    }
    Ok(counts)
}
