// What half widths by neighbours are refused for, for any pair of limits. Every function takes every input.

ghost use Rattle.std.specs.Prelude.{◌≡◌};
ghost use Rattle.meanings.specs.Reports.{verdict_fault, first_of};
ghost use Rattle.meanings.specs.neighbours.Neighbours.{too_few_checks, neighbours_checks};

use crate::curve::{curve_size_fault, order_fault};
use crate::uneven_rows;
use meanings::{Limits, Marks, ROW_WIDTH, Readings, Refusal, Report};

// What K earns over so many readings: 14.
fn too_few_fault(samples: usize, k: usize) -> Result<(), Refusal>
    ensures { verdict_fault result ≡ first_of (too_few_checks samples k) }
{
    if k == 0 {
        return Err(Report::TooFewSamples.at(0));
    }
    if samples < k {
        return Err(Report::TooFewSamples.at(0));
    }
    Ok(())
}

// What the call is refused for, with so many numbers for its rows: 8, 6, 7, 4, 5, 14.
pub fn neighbours_fault(
    readings: Readings,
    marks: Marks,
    k: usize,
    rows: usize,
    limits: Limits,
) -> Result<(), Refusal>
    ensures { verdict_fault result ≡ first_of (neighbours_checks limits readings.entry.minutes.now readings.entry.values.now marks.entry.points.now k marks.entry.bandwidths.now rows) }
{
    let more = uneven_rows(rows, ROW_WIDTH, marks.points.len());
    curve_size_fault(readings, marks, more, limits)?;
    order_fault(readings.minutes, marks.points)?;
    too_few_fault(readings.minutes.len(), k)
}
