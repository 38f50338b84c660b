// The refusals of readings with marks by their lengths and by their order, and of a list of half widths, for any pair of limits. Every public function takes
// every input.

ghost use Rattle.std.specs.Prelude.{◌≡◌, ◌||◌, length};
ghost use Rattle.meanings.specs.Lists.{lowest};
ghost use Rattle.meanings.specs.Reports.{verdict_fault, first_of, outside_at, uneven_samples, uneven_points};
ghost use Rattle.meanings.specs.Reports.{curve_size_checks, order_checks};

use crate::{first_decrease, outside};
use meanings::{Limits, Marks, Readings, Refusal, Report};

// The lowest position whose half width is 0 or over the greatest one. By `for`, as first_decrease of `checks`, for speed.
pub(crate) fn first_out_of_range(bandwidths: &[u32], most: u32) -> Option<usize>
    ensures { result ≡ lowest (outside_at most bandwidths.now) (length bandwidths.now) }
{
    for (i, &bandwidth) in bandwidths.iter().enumerate() {
        if outside(bandwidth, most) {
            return Some(i);
        }
    }
    None
}

// Whether the lengths of readings and marks don't agree, or those of one more list, as `more` says.
pub fn uneven(readings: Readings, marks: Marks, more: bool) -> bool
    ensures { result ≡ (uneven_samples readings.entry.minutes.now readings.entry.values.now || uneven_points marks.entry.points.now marks.entry.bandwidths.now || more) }
{
    if readings.minutes.len() != readings.values.len() {
        return true;
    }
    if marks.points.len() != marks.bandwidths.len() {
        return true;
    }
    more
}

// What the lengths of readings and marks earn: 8, 6, 7.
pub(crate) fn curve_size_fault(
    readings: Readings,
    marks: Marks,
    more: bool,
    limits: Limits,
) -> Result<(), Refusal>
    ensures { verdict_fault result ≡ first_of (curve_size_checks limits readings.entry.minutes.now readings.entry.values.now marks.entry.points.now marks.entry.bandwidths.now more) }
{
    if uneven(readings, marks, more) {
        return Err(Report::LengthMismatch.at(0));
    }
    if limits.samples < readings.minutes.len() {
        return Err(Report::TooMany.at(0));
    }
    if limits.points < marks.points.len() {
        return Err(Report::TooMany.at(0));
    }
    if marks.points.is_empty() {
        return Err(Report::NoPoints.at(0));
    }
    Ok(())
}

// What the order of minutes and of marks earns: 4, 5.
pub(crate) fn order_fault(minutes: &[u16], points: &[u16]) -> Result<(), Refusal>
    ensures { verdict_fault result ≡ first_of (order_checks minutes.now points.now) }
{
    if let Some(i) = first_decrease(minutes) {
        return Err(Report::SampleOutOfOrder.at(i));
    }
    if let Some(i) = first_decrease(points) {
        return Err(Report::PointOutOfOrder.at(i));
    }
    Ok(())
}
