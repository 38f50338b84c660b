// The refusals of the comparison of two tanks, for any pair of limits. Every function takes every input.

ghost use Rattle.std.specs.Prelude.{◌≡◌};
ghost use Rattle.meanings.specs.Reports.{verdict_fault, first_of};
ghost use Rattle.meanings.specs.pair.Comparison.{second_checks, compare_checks};

use crate::series::series_fault;
use crate::sweep::curve_fault;
use meanings::{Limits, Marks, Readings, Refusal, Report};

// What the second tank's lists earn: 16, at the place of the first of 8, 6 and 4.
fn second_fault(readings: Readings, limits: Limits) -> Result<(), Refusal>
    ensures { verdict_fault result ≡ first_of (second_checks limits readings.entry.minutes.now readings.entry.values.now) }
{
    series_fault(readings, limits).map_err(|refusal| Report::SecondSeries.at(refusal.place))
}

// What the comparison is refused for: 8, 6, 7, 4, 5, 9, 10 with the first tank, then 16.
pub fn compare_fault(
    first: Readings,
    second: Readings,
    marks: Marks,
    limits: Limits,
) -> Result<(), Refusal>
    ensures { verdict_fault result ≡ first_of (compare_checks limits first.entry.minutes.now first.entry.values.now second.entry.minutes.now second.entry.values.now marks.entry.points.now marks.entry.bandwidths.now) }
{
    curve_fault(first, marks, false, limits)?;
    second_fault(second, limits)
}
