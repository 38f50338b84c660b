// The refusals of the sweep over ranges, for any pair of limits. Every public function takes every input.

ghost use Rattle.std.specs.Prelude.{◌≡◌, ◌||◌, ◌++◌, length};
ghost use Rattle.meanings.specs.Lists.{lowest};
ghost use Rattle.meanings.specs.Reports.{verdict_fault, first_of, uneven_samples, uneven_rows, sample_order_checks};
ghost use Rattle.meanings.specs.ranges.Ranges.{range_row_width, crossed, crossed_checks, range_checks};

use crate::curve::curve_size_fault;
use crate::sweep::curve_fault;
use crate::{first_decrease, uneven_rows};
use meanings::ranges::{RANGE_ROW_WIDTH, Ranges};
use meanings::{Limits, Marks, Readings, Refusal, Report};

// Whether a third list of readings, or the rows, are of another length than they have to be.
#[tactic(auto, using(meanings::proofs::Checks::differ_true, meanings::proofs::Checks::differ_same))]
fn uneven_more(ranges: Ranges, points: &[u16], rows: usize) -> bool
    ensures { result ≡ (uneven_samples ranges.entry.minutes.now ranges.entry.highs.now || uneven_rows range_row_width rows (length points.now)) }
{
    if ranges.minutes.len() != ranges.highs.len() {
        return true;
    }
    uneven_rows(rows, RANGE_ROW_WIDTH, points.len())
}

// The lowest position whose lowest value is above its highest. By `for`, as first_decrease of `checks`, for speed.
pub(crate) fn first_crossed(ranges: Ranges) -> Option<usize>
    requires { length ranges.lows.now ≡ length ranges.highs.now }
    ensures { result ≡ lowest (crossed ranges.entry.lows.now ranges.entry.highs.now) (length ranges.entry.lows.now) }
{
    for i in 0..ranges.lows.len() {
        if ranges.highs[i] < ranges.lows[i] {
            return Some(i);
        }
    }
    None
}

// What minutes and ranges of one length earn: 4, 15.
pub(crate) fn samples_fault(ranges: Ranges) -> Result<(), Refusal>
    requires { length ranges.lows.now ≡ length ranges.highs.now }
    ensures { verdict_fault result ≡ first_of (sample_order_checks ranges.entry.minutes.now ++ crossed_checks ranges.entry.lows.now ranges.entry.highs.now) }
{
    if let Some(i) = first_decrease(ranges.minutes) {
        return Err(Report::SampleOutOfOrder.at(i));
    }
    if let Some(i) = first_crossed(ranges) {
        return Err(Report::CrossedRange.at(i));
    }
    Ok(())
}

// What the sweep over ranges with so many numbers for its rows is refused for: 8, 6, 7, 4, 15, 5, 9, 10. The marks are looked at as those of a
// curve without readings.
pub fn ranges_fault(
    ranges: Ranges,
    marks: Marks,
    rows: usize,
    limits: Limits,
) -> Result<(), Refusal>
    ensures { verdict_fault result ≡ first_of (range_checks limits ranges.entry.minutes.now ranges.entry.lows.now ranges.entry.highs.now marks.entry.points.now marks.entry.bandwidths.now rows) }
{
    let more = uneven_more(ranges, marks.points, rows);
    let lowest = Readings {
        minutes: ranges.minutes,
        values: ranges.lows,
    };
    curve_size_fault(lowest, marks, more, limits)?;
    samples_fault(ranges)?;
    let none = Readings {
        minutes: &[],
        values: &[],
    };
    curve_fault(none, marks, false, limits)
}
