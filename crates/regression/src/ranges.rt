// The sweep over readings known as ranges: one step a mark on a record of the lowest values and on one of the highest, side by side.

mod step;

ghost use Rattle.std.specs.Prelude.{◌≡◌, ◌+◌, ◌*◌, ◌≤◌, length};
ghost use Rattle.meanings.specs.Calls.{answer_of};
ghost use Rattle.std.proofs.lemmas.List.Edits.{sets};
ghost use Rattle.meanings.specs.Limits.{full as full_limits};
ghost use Rattle.meanings.specs.Moves.{moves};
ghost use Rattle.meanings.specs.Running.{fresh, passes};
ghost use Rattle.meanings.specs.ranges.Ranges.{range_fields, range_row_width, range_rows, smooth_ranges as smooth_ranges_meaning, smooth_ranges_rows};
ghost use Rattle.regression.specs.Sweep.{SweepAccepted};

use crate::estimator::of_16_bits;
use arithmetic::ranges::{BothRecord, both_row};
use checks::full;
use checks::ranges::ranges_fault;
use meanings::ranges::{RANGE_ROW_WIDTH, RangeEstimate, Ranges};
use meanings::{Mark, Marks, Refusal};

// Stores the row of mark k. The C interface lends the rows as one list of numbers; a From for the sweep alone would be as long, and copied besides.
pub(crate) fn put_range_row(rows: &mut [u64], k: usize, e: RangeEstimate)
    requires { range_row_width * k + range_row_width ≤ length rows.old }
    ensures { rows.new ≡ sets rows.old (range_row_width * k) (range_fields e) }
{
    let at = RANGE_ROW_WIDTH * k;
    rows[at] = e.left;
    rows[at + 1] = e.right;
    rows[at + 2] = e.weight;
    rows[at + 3] = e.sum.low;
    rows[at + 4] = e.sum.high;
    rows[at + 5] = e.value.low;
    rows[at + 6] = e.value.high;
}

// Stores the rows of all marks and answers the passes: last right plus last left. No loop in common with the sweep of `sweep`: it would be over
// a trait for record, step and row.
pub(crate) fn sweep_rows(ranges: Ranges, marks: Marks, rows: &mut [u64]) -> u64
    requires { SweepAccepted ranges.minutes.now ranges.lows.now ranges.highs.now marks.points.now marks.bandwidths.now (length rows.old) }
    ensures value { result ≡ passes ranges.entry.minutes.now ranges.entry.lows.now fresh (moves marks.entry.points.now marks.entry.bandwidths.now) }
    ensures rows_after { rows.new ≡ range_rows ranges.entry.minutes.now ranges.entry.lows.now ranges.entry.highs.now marks.entry.points.now marks.entry.bandwidths.now (length marks.entry.points.now) }
{
    of_16_bits(ranges.minutes);
    of_16_bits(ranges.lows);
    of_16_bits(ranges.highs);
    let mut running = BothRecord::default();
    for k in 0..marks.points.len() {
        let mark = Mark {
            point: marks.points[k],
            bandwidth: marks.bandwidths[k],
        };
        running = step::both_move(running, ranges, mark);
        put_range_row(rows, k, both_row(running, mark));
    }
    running.right as u64 + running.left as u64
}

// The whole sweep: rows receives seven numbers a mark, and the answer is the passes, or the report, with rows as it was.
#[tactic(auto, unfolding(meanings::specs::ranges::Ranges::smooth_ranges, meanings::specs::ranges::Ranges::smooth_ranges_rows))]
pub fn smooth_ranges(ranges: Ranges, marks: Marks, rows: &mut [u64]) -> Result<u64, Refusal>
    ensures result_value { answer_of result ≡ smooth_ranges_meaning full_limits ranges.entry.minutes.now ranges.entry.lows.now ranges.entry.highs.now marks.entry.points.now marks.entry.bandwidths.now rows.old }
    ensures rows_after { rows.new ≡ smooth_ranges_rows full_limits ranges.entry.minutes.now ranges.entry.lows.now ranges.entry.highs.now marks.entry.points.now marks.entry.bandwidths.now rows.old }
{
    ranges_fault(ranges, marks, rows.len(), full())?;
    Ok(sweep_rows(ranges, marks, rows))
}
