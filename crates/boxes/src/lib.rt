// Minute and temperature together: how many readings lie in each box of marks, the sum of their values, and both for each cell.
//
// This file: the call. filling: its lists, filled from readings that no check refuses.
// cells: the cells of both directions' strips, filled from the readings.
// cumulative: a table of cumulative sums over the cells.
// cuts: the distinct cuts of a direction in rising order, and the place of a number among them.
// strips: the strip of a number among the cuts, without a branch on the number.
// sums: count and value sum of every pair of windows, four numbers of a table each.
// tables: that a box is four numbers of a table, in proofs/.
// windows: the strips of marks' windows.
#![tactic(auto)]

mod cells;
mod cumulative;
mod cuts;
mod filling;
mod strips;
mod sums;
mod windows;

ghost use Rattle.std.specs.Prelude.{◌≡◌};
ghost use Rattle.meanings.specs.Calls.{answer_of};
ghost use Rattle.meanings.specs.boxes.Boxes.{boxes as boxes_meaning, boxes_then, counts_then, sums_then};
ghost use Rattle.meanings.specs.boxes.Lent.{along_minutes, along_temperatures};

use checks::boxes::box_fault;
use meanings::Refusal;
use meanings::boxes::{Question, Sizes};

// Fills in two numbers for each pair of marks, minute marks slowest: how many readings lie in the closed box, and the sum of their values. Fills in
// the count and the value sum of each cell, 65 to a minute strip. Or answers with the report, all three lists as they were.
#[tactic(auto, unfolding(meanings::specs::boxes::Boxes::boxes, meanings::specs::boxes::Boxes::boxes_then, meanings::specs::boxes::Boxes::counts_then, meanings::specs::boxes::Boxes::sums_then))]
pub fn boxes(
    asked: Question,
    boxes: &mut [u64],
    counts: &mut [u32],
    sums: &mut [u32],
) -> Result<(), Refusal>
    ensures result_value { answer_of result ≡ boxes_meaning (along_minutes asked.entry) (along_temperatures asked.entry) asked.entry.readings.values.now boxes.old counts.old sums.old }
    ensures boxes_after { boxes.new ≡ boxes_then (along_minutes asked.entry) (along_temperatures asked.entry) asked.entry.readings.values.now boxes.old counts.old sums.old }
    ensures counts_after { counts.new ≡ counts_then (along_minutes asked.entry) (along_temperatures asked.entry) asked.entry.readings.values.now boxes.old counts.old sums.old }
    ensures sums_after { sums.new ≡ sums_then (along_minutes asked.entry) (along_temperatures asked.entry) asked.entry.readings.values.now boxes.old counts.old sums.old }
{
    let sizes = Sizes {
        boxes: boxes.len(),
        counts: counts.len(),
        sums: sums.len(),
    };
    box_fault(asked, sizes)?;
    filling::fill(asked, boxes, counts, sums);
    Ok(())
}
