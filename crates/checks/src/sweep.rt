// The refusals of calls over readings and marks, with a rows list or without one, for any pair of limits, and those of the sweep. Every public
// function takes every input.

ghost use Rattle.std.specs.Prelude.{◌≡◌, length};
ghost use Rattle.meanings.specs.Lists.{lowest};
ghost use Rattle.meanings.specs.Reports.{verdict_fault, first_of, edge_decreases, windows_checks, curve_checks, smooth_checks};

use crate::curve::{curve_size_fault, first_out_of_range, order_fault};
use crate::{edge_below, uneven_rows};
use meanings::{Limits, MAX_BANDWIDTH, Mark, Marks, ROW_WIDTH, Readings, Refusal, Report};

// The lowest position at which an edge lies below the one before. By `for`, as first_decrease of `checks`, for speed.
pub(crate) fn first_edge_decrease(marks: Marks) -> Option<usize>
    requires { length marks.points.now ≡ length marks.bandwidths.now }
    ensures { result ≡ lowest (edge_decreases marks.entry.points.now marks.entry.bandwidths.now) (length marks.entry.points.now) }
{
    for i in 1..marks.points.len() {
        let mark = Mark {
            point: marks.points[i],
            bandwidth: marks.bandwidths[i],
        };
        let before = Mark {
            point: marks.points[i - 1],
            bandwidth: marks.bandwidths[i - 1],
        };
        if edge_below(mark, before) {
            return Some(i);
        }
    }
    None
}

// What the windows of the marks earn: 9, 10.
pub(crate) fn windows_fault(marks: Marks) -> Result<(), Refusal>
    requires { length marks.points.now ≡ length marks.bandwidths.now }
    ensures { verdict_fault result ≡ first_of (windows_checks marks.entry.points.now marks.entry.bandwidths.now) }
{
    if let Some(i) = first_out_of_range(marks.bandwidths, MAX_BANDWIDTH) {
        return Err(Report::BandwidthOutOfRange.at(i));
    }
    if let Some(i) = first_edge_decrease(marks) {
        return Err(Report::EdgeDecreases.at(i));
    }
    Ok(())
}

// What a call over readings and marks is refused for, where `more` says that one more list does not fit: 8, 6, 7, 4, 5, 9, 10.
pub fn curve_fault(
    readings: Readings,
    marks: Marks,
    more: bool,
    limits: Limits,
) -> Result<(), Refusal>
    ensures { verdict_fault result ≡ first_of (curve_checks limits readings.entry.minutes.now readings.entry.values.now marks.entry.points.now marks.entry.bandwidths.now more) }
{
    curve_size_fault(readings, marks, more, limits)?;
    order_fault(readings.minutes, marks.points)?;
    windows_fault(marks)
}

// What a sweep with so many numbers for its rows is refused for: the same, with five numbers a mark.
pub fn smooth_fault(
    readings: Readings,
    marks: Marks,
    rows: usize,
    limits: Limits,
) -> Result<(), Refusal>
    ensures { verdict_fault result ≡ first_of (smooth_checks limits readings.entry.minutes.now readings.entry.values.now marks.entry.points.now marks.entry.bandwidths.now rows) }
{
    let more = uneven_rows(rows, ROW_WIDTH, marks.points.len());
    curve_fault(readings, marks, more, limits)
}
