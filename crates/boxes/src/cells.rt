// The cells of both directions' strips: how many readings lie in each, and the sum of their values. Every function that another crate can reach
// takes every input.

mod readings;

ghost use Rattle.std.specs.Prelude.{length};
ghost use Rattle.boxes.specs.Cells.{FitsTested, CellsTried};

use meanings::boxes::{BOX_LIMITS, BoxReadings, CELLS, MAX_CUTS};

// The cuts of both directions, in rising order.
#[derive(Clone, Copy)]
pub struct Cuts<'a> {
    pub minutes: &'a [u64],
    pub temperatures: &'a [u64],
}

// Whether lists of such lengths can be filled: readings alike in number and at most 1,024, at most 64 cuts a direction, and 4,225 cells in each list.
// Of both lists the lengths alone are looked at: Sizes of `meanings::boxes` is of other lists.
fn fillable(readings: BoxReadings, cuts: Cuts, counts: usize, sums: usize) -> bool
    ensures { FitsTested (length readings.entry.minutes.now) (length readings.entry.temperatures.now) (length readings.entry.values.now) (length cuts.entry.minutes.now) (length cuts.entry.temperatures.now) counts sums result }
{
    readings.minutes.len() == readings.temperatures.len()
        && readings.minutes.len() == readings.values.len()
        && readings.minutes.len() <= BOX_LIMITS.samples
        && cuts.minutes.len() <= MAX_CUTS
        && cuts.temperatures.len() <= MAX_CUTS
        && counts == CELLS
        && sums == CELLS
}

// Fills both lists of cells, by the cuts of both directions; lists that don't fit stay as they are. Both stand side by side, as in the C interface: they
// are written here and read for the tables, so that a struct would be one of `&mut` here and another of `&` there.
pub(crate) fn fill_cells(readings: BoxReadings, cuts: Cuts, counts: &mut [u32], sums: &mut [u32])
    ensures { CellsTried readings.entry.minutes.now readings.entry.temperatures.now readings.entry.values.now cuts.entry.minutes.now cuts.entry.temperatures.now counts.old sums.old counts.new sums.new }
{
    if fillable(readings, cuts, counts.len(), sums.len()) {
        counts.fill(0);
        sums.fill(0);
        readings::put_readings(readings, cuts, counts, sums);
    }
}
